//! What is said of bytes that are no key of a statement.
ghost use Rattle.std.specs.Prelude.{◌≡◌};
ghost use Rattle.stark_answers.specs.declared.verdict.Verdict.{Verdict};
ghost use Rattle.stark_proof_bytes.specs.Bytes.{named};
ghost use Rattle.stark_service.specs.Statements.{verdict_without};

use stark_answers::{Report, Verdict};
use stark_proof_bytes::BytesFault;
use std::alloc::Global;

/// What is said of a key that wasn't read of its bytes, whose first fault this is.
pub(crate) fn unread_key(alloc: Global, fault: &BytesFault) -> Report<Verdict>
    ensures { result.answer ≡ verdict_without (named fault.now) }
{
    match fault {
        BytesFault::OutOfMemory => Report::out_of_memory(),
        BytesFault::Magic => {
            Report::bad_input(alloc, "the key", &"the bytes do not begin as a key's")
        }
        BytesFault::TrailingBytes => {
            Report::bad_input(alloc, "the key", &"there are bytes after the key")
        }
        _ => Report::bad_input(alloc, "the key", fault),
    }
}

/// What is said of a key whose digest isn't the statement's.
pub(crate) fn key_of_another(alloc: Global) -> Report<Verdict>
    ensures { result.answer ≡ Verdict.BadInput }
{
    Report::bad_input(alloc, "the key", &"it was made for another statement")
}
