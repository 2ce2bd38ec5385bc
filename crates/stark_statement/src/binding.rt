//! How a statement is bound into a transcript: by the digest of its bytes.
ghost use Rattle.std.specs.Prelude.{◌≡◌, OnErr, OnOk};
ghost use Rattle.sha2.specs.Sha256.{sha256};
ghost use Rattle.stark_support.specs.Sponge.{observed_bytes};
ghost use Rattle.stark_statement.specs.StatementBytes.{after_statement};
ghost use Rattle.stark_statement.specs.Words.{framed};
ghost use Rattle.stark_statement.specs.StatementView.{statement_view};

use crate::statement::Statement;
use crate::writing::number_bytes;
use sha2::{Digest, Sha256};
use stark_support::{CanObserve, PrimeField64, observe_bytes};
use std::alloc::{AllocError, Global};

/// The SHA-256 digest of bytes with their number before them, as 8 bytes, the high one first.
#[tactic(auto, unfolding(crate::specs::Words::framed))]
fn framed_digest(bytes: &[u8]) -> [u8; 32]
    ensures { result ≡ sha256 (framed bytes.now) }
{
    let mut hasher = Sha256::new();
    hasher.update(&number_bytes(bytes.len()));
    hasher.update(bytes);
    hasher.finalize()
}

/// Observes the bytes of a statement of another kind, as of an AIR that is code, by a digest: the
/// 32 bytes, each as an element, of SHA-256 of how many bytes there are, as 8 bytes, the high one
/// first, and of the bytes. Their beginning is to tell the kind. It takes no memory.
pub fn bind_statement<F: PrimeField64, C: CanObserve<F>>(bytes: &[u8], challenger: &mut C)
    ensures { challenger.new
        ≡ observed_bytes C.after_observe F.of_number (sha256 (framed bytes.now)) challenger.old }
{
    observe_bytes(challenger, &framed_digest(bytes));
}

impl<F: PrimeField64> Statement<F> {
    /// Observes the SHA-256 digest of the bytes of `canonical_bytes`, each of its 32 bytes as an
    /// element, so that whatever is drawn afterwards depends on the whole statement: two statements
    /// with one digest would be a collision. Err only where memory was refused, and then nothing
    /// was observed.
    pub fn bind<C: CanObserve<F>>(
        &self,
        alloc: Global,
        challenger: &mut C,
    ) -> Result<(), AllocError>
        ensures bound { OnOk result (challenger.new ≡ after_statement C.after_observe F.of_number
            F.number_of (statement_view self.now) challenger.old) }
        ensures unchanged { OnErr result (challenger.new ≡ challenger.old) }
    {
        let body = self.labelled_words(alloc)?;
        // A block of SHA-256 for 64 bytes; observed one by one, each byte would take a block.
        observe_bytes(challenger, &framed_digest(&body));
        Ok(())
    }
}
