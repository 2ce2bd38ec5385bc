//! The digest by which a key says whose it is.
ghost use Rattle.std.specs.Prelude.{◌≡◌, IfOk};
ghost use Rattle.sha2.specs.Sha256.{sha256};
ghost use Rattle.stark_statement.specs.StatementBytes.{statement_digest};
ghost use Rattle.stark_statement.specs.StatementView.{statement_view};

use sha2::{Digest, Sha256};
use stark_statement::Statement;
use stark_support::PrimeField64;
use std::alloc::{AllocError, Global};

/// The SHA-256 digest of bytes.
fn digest_of(bytes: &[u8]) -> [u8; 32]
    ensures { result ≡ sha256 bytes.now }
{
    let mut hasher = Sha256::new();
    hasher.update(bytes);
    hasher.finalize()
}

/// The SHA-256 digest of a statement's canonical bytes, by which a challenger observes it. Err only
/// where memory was refused.
pub(crate) fn statement_digest<F: PrimeField64>(
    alloc: Global,
    statement: &Statement<F>,
) -> Result<[u8; 32], AllocError>
    ensures { IfOk result (λ digest. digest
        ≡ statement_digest F.number_of (statement_view statement.now)) }
{
    let bytes = statement.canonical_bytes(alloc)?;
    Ok(digest_of(&bytes))
}
