//! A proof handed over in a buffer that a caller gave.

ghost use Rattle.std.specs.Prelude.{◌≡◌, length, nat_le, pos};
ghost use Rattle.voskligan_c.specs.Calls.{handed_of, handed_where, key_status, key_words, lines_written, placed, proof_of, status_of_call};
ghost use Rattle.voskligan_c.specs.Message.{written, words_of};

use crate::message::{tell, tell_report};
use stark_answers::{Finding, Report};

/// What became of a proof.
#[derive(Clone, Copy, Debug, PartialEq, Eq)]
pub(crate) enum Handed {
    /// It stands in the buffer.
    Placed,
    /// The buffer is too small for it.
    NoRoom,
    /// There is none.
    NoProof,
}

impl Handed {
    /// The status of a call that found this: 0 where a proof stands in the buffer, 3 where it is
    /// too small for it, and else that of what was found.
    pub(crate) fn status(self, finding: &Finding) -> i32
        ensures { result ≡ pos (status_of_call self finding.now) }
    {
        match self {
            Handed::Placed => 0,
            Handed::NoRoom => 3,
            Handed::NoProof => i32::from(finding.end().status()),
        }
    }

    /// Tells `proved`, `no room`, or what was found and why.
    pub(crate) fn tell(self, report: &Report<Finding>, message: &mut [u8])
        ensures { message.new ≡ written
            (lines_written self report.now.answer (words_of report.now.reason)) message.old }
    {
        match self {
            Handed::Placed => tell(b"proved\n", message),
            Handed::NoRoom => tell(b"no room\n", message),
            Handed::NoProof => tell_report(report.answer.written(), &report.reason, message),
        }
    }
}

/// Places bytes at the head of a buffer that has room for them; else it stays as it was. Says
/// whether it had room.
fn place(bytes: &[u8], buffer: &mut [u8]) -> Handed
    ensures handed { result ≡ handed_where (length bytes.now) (length buffer.old) }
    ensures placed { buffer.new ≡ placed bytes.now buffer.old }
{
    let count = bytes.len();
    if count > buffer.len() {
        return Handed::NoRoom;
    }
    let (head, _rest) = buffer.split_at_mut(count);
    head.copy_from_slice(bytes);
    Handed::Placed
}

/// Hands the bytes of a proof over, if that is what was found, and says how many they are.
pub(crate) fn hand_over(finding: &Finding, proof: &mut [u8], needed: &mut usize) -> Handed
    ensures handed { result ≡ handed_of finding.now (length proof.old) }
    ensures needed { needed.new ≡ length (proof_of finding.now) }
    ensures placed { proof.new ≡ placed (proof_of finding.now) proof.old }
{
    match finding {
        Finding::Proof(_) | Finding::ProofBytes(_) => {
            let bytes = finding.written();
            *needed = bytes.len();
            place(bytes, proof)
        }
        _ => {
            *needed = 0;
            Handed::NoProof
        }
    }
}

/// Places the bytes of a key, and tells whether there was room for them.
pub(crate) fn hand_over_key(bytes: &[u8], key: &mut [u8], message: &mut [u8]) -> i32
    ensures status { result ≡ pos (key_status (nat_le (length bytes.now) (length key.old))) }
    ensures placed { key.new ≡ placed bytes.now key.old }
    ensures words { message.new
        ≡ written (key_words (nat_le (length bytes.now) (length key.old))) message.old }
{
    match place(bytes, key) {
        Handed::Placed => {
            tell(b"made\n", message);
            0
        }
        Handed::NoRoom | Handed::NoProof => {
            tell(b"no room\n", message);
            3
        }
    }
}
