//! What a program takes from the system beside its streams, and how its process ends.

ghost use Rattle.std.specs.Prelude.{◌≡◌, ◌⊎◌, IfErr, IfOk, drop};
ghost use Rattle.std.specs.Process.{exit_status};
ghost use Rattle.std.specs.Vec.Iter.{into_iter_items};
ghost use Rattle.stark_answers.specs.Verdict.{status_of};

use stark_answers::{Refusal, RunEnd, Verdict};
use std::alloc::{AllocError, Global};
use std::env::Args;
use std::process::ExitCode;
use std::{env, io};

/// The words after the first, each put after the others: an allocation that fails is answered, also
/// one that could be tried again.
fn words_behind(alloc: Global, mut all: Args) -> Result<Vec<String>, AllocError>
    ensures { IfOk result (λ words. words.items ≡ drop 1 (into_iter_items all)) }
{
    let mut words = Vec::new(alloc);
    let _name = all.next();
    for word in all {
        words.push(word)?;
    }
    Ok(words)
}

/// The words after the program's name, or what is said where there are none.
pub fn words_of(rt: &HostRuntime) -> Result<Vec<String>, Verdict>
    ensures { IfErr result (λ v. (v ≡ Verdict.BadInput)
        ⊎ (v ≡ Verdict.Refused Refusal.OutOfMemory)) }
{
    match env::args(rt) {
        Ok(all) => match words_behind(rt.alloc(), all) {
            Ok(words) => Ok(words),
            Err(AllocError) => Err(Verdict::Refused(Refusal::OutOfMemory)),
        },
        Err(e) => {
            if e.kind() == io::ErrorKind::OutOfMemory {
                Err(Verdict::Refused(Refusal::OutOfMemory))
            } else {
                Err(Verdict::BadInput)
            }
        }
    }
}

/// The status of a process whose run ended so. A failed read or write is reported on the
/// standard error, and it doesn't matter whether that fails too.
pub fn exit_code(rt: &HostRuntime, end: RunEnd) -> ExitCode
    ensures { exit_status result ≡ status_of end }
{
    match end {
        RunEnd::InputFailed => {
            let _ = eprintln!(rt; "input failed");
        }
        RunEnd::OutputFailed => {
            let _ = eprintln!(rt; "output failed");
        }
        RunEnd::Accepted | RunEnd::Refused | RunEnd::NotJudged | RunEnd::BelowFloor => {}
    }
    ExitCode::from(end.status())
}
