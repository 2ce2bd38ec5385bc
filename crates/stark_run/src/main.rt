//! Checks the numbers of a proof at one point, verifies a proof, or proves a trace, from bytes to
//! bytes.
#![tactic(auto)]

use stark_answers::Finding;
use stark_cli::samples::run;
use stark_cli::{WatchedReader, WatchedWriter, exit_code, tell, words_of};
use std::process::ExitCode;

fn main(rt: HostRuntime) -> ExitCode {
    let mut writer = WatchedWriter::new(rt.stdout());
    let end = match words_of(&rt) {
        Ok(words) => {
            let mut reader = WatchedReader::new(rt.stdin());
            run(rt.alloc(), &words, &mut reader, &mut writer)
        }
        Err(verdict) => tell(&Finding::Verdict(verdict), &mut writer),
    };
    exit_code(&rt, end)
}
