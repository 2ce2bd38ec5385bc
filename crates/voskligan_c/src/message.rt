//! Texts written to a buffer that a caller gave.

ghost use Rattle.std.specs.Prelude.{◌≡◌, ◌++◌};
ghost use Rattle.voskligan_c.specs.Message.{line_behind, written, words_of};

/// Writes a text: as much of it as leaves a byte, a 0 byte, and after it what was there.
pub(crate) fn tell(text: &[u8], message: &mut [u8])
    ensures { message.new ≡ written text.now message.old }
{
    let Some(last) = message.len().checked_sub(1) else {
        return;
    };
    let count = text.len().min(last);
    let (head, rest) = message.split_at_mut(count);
    head.copy_from_slice(&text[..count]);
    rest[0] = 0;
}

/// Tells two texts as one.
#[tactic(auto, using(crate::proofs::Telling::stated_behind, crate::proofs::Telling::stated_alone))]
fn tell_both(first: &[u8], second: &[u8], message: &mut [u8])
    ensures { message.new ≡ written (first.now ++ second.now) message.old }
{
    tell(first, message);
    if first.len() < message.len() {
        let (_, rest) = message.split_at_mut(first.len());
        tell(second, rest);
    }
}

/// Tells three texts as one.
#[tactic(auto, using(crate::proofs::Telling::stated_behind, crate::proofs::Telling::stated_alone))]
fn tell_three(first: &[u8], second: &[u8], third: &[u8], message: &mut [u8])
    ensures { message.new ≡ written (first.now ++ (second.now ++ third.now)) message.old }
{
    tell(first, message);
    if first.len() < message.len() {
        let (_, rest) = message.split_at_mut(first.len());
        tell_both(second, third, rest);
    }
}

/// Tells a line and, where there is a reason, the reason as a second line.
pub(crate) fn tell_report(line: &[u8], reason: &Option<String>, message: &mut [u8])
    ensures { message.new
        ≡ written (line.now ++ line_behind (words_of reason.now)) message.old }
{
    match reason {
        Some(words) => tell_three(line, words.as_bytes(), b"\n", message),
        None => tell(line, message),
    }
}
