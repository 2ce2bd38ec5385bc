//! The canonical writing of a statement.
ghost use Rattle.std.specs.Prelude.{◌≡◌, IfOk};
ghost use Rattle.stark_support.specs.Seed.{number};
ghost use Rattle.stark_statement.specs.StatementBytes.{statement_bytes, TellsStatement};
ghost use Rattle.stark_statement.specs.Words.{AreWords, framed, labelled};
ghost use Rattle.stark_statement.specs.StatementView.{statement_view};

use crate::statement::Statement;
use crate::words::statement_words;
use stark_support::PrimeField64;
use std::alloc::{AllocError, Global};

/// A number as 8 bytes, the high one first.
#[tactic(auto, unfolding(stark_support::specs::Seed::number))]
pub(crate) fn number_bytes(count: usize) -> [u8; 8]
    ensures { result ≡ number count }
{
    count.to_be_bytes()
}

/// The label, and each word as 8 bytes.
#[tactic(auto, unfolding(crate::specs::Words::labelled, stark_support::specs::Seed::number))]
fn labelled(alloc: Global, words: &[u64]) -> Result<Vec<u8>, AllocError>
    ensures { IfOk result (λ bytes. bytes.items ≡ labelled words.now) }
{
    let mut bytes = Vec::with_capacity(alloc, words.len().saturating_mul(8).saturating_add(32))?;
    bytes.extend_from_slice("voskligan statement 3".as_bytes())?;
    for word in words {
        bytes.extend_from_slice(&word.to_be_bytes())?;
    }
    Ok(bytes)
}

/// How many bytes there are, as 8 bytes, and the bytes.
#[tactic(auto, unfolding(crate::specs::Words::framed))]
fn framed(alloc: Global, bytes: &[u8]) -> Result<Vec<u8>, AllocError>
    ensures { IfOk result (λ bytes_behind_length. bytes_behind_length.items ≡ framed bytes.now) }
{
    let mut bytes_behind_length = Vec::with_capacity(alloc, bytes.len().saturating_add(8))?;
    bytes_behind_length.extend_from_slice(&number_bytes(bytes.len()))?;
    bytes_behind_length.extend_from_slice(bytes)?;
    Ok(bytes_behind_length)
}

// Each word is a number of 64 bits.
fn known_words(words: &[u64])
    ensures { AreWords words.now }
{}

impl<F: PrimeField64> Statement<F> {
    /// The bytes that tell this statement from every other over the field: how many bytes follow,
    /// as 8 bytes, the high one first; the label `voskligan statement 3`; and words of 8 bytes
    /// each, the high one first. The words are the field (0 for BabyBear, 1 for KoalaBear, 2 for
    /// 12289), the scheme (0 in the clear, or 1 and FRI's five numbers in the order of
    /// `FriParameters::new`), the width, the number of public values, the periodic
    /// columns, the preprocessed trace (0, or 1, its width and its values), the hints of the degree
    /// and of the number of constraints (each 0, or 1 and the number), the constants, the nodes
    /// (each a tag and its operands), the constraints (each a tag and a place), the public values,
    /// and the bits of work before alpha and before the out-of-domain point. Each list has the
    /// number of its members first, and a field element is its number. Err only where memory was
    /// refused.
    pub fn canonical_bytes(&self, alloc: Global) -> Result<Vec<u8>, AllocError>
        ensures bytes { IfOk result (λ bytes. bytes.items
            ≡ statement_bytes F.number_of (statement_view self.now)) }
        ensures of_this_statement { IfOk result (λ bytes.
            TellsStatement F.number_of (statement_view self.now) bytes.items) }
    {
        let body = self.labelled_words(alloc)?;
        let bytes = framed(alloc, &body)?;
        Ok(bytes)
    }

    /// The canonical bytes but for their number: the label and the words.
    pub(crate) fn labelled_words(&self, alloc: Global) -> Result<Vec<u8>, AllocError>
        ensures bytes { IfOk result (λ body. framed body.items
            ≡ statement_bytes F.number_of (statement_view self.now)) }
        ensures of_this_statement { IfOk result (λ body.
            TellsStatement F.number_of (statement_view self.now) (framed body.items)) }
    {
        let words = statement_words(alloc, self)?;
        known_words(&words);
        let body = labelled(alloc, &words)?;
        Ok(body)
    }
}
