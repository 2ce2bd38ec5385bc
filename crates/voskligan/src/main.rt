//! Verifies a proof for a statement, proves a trace, makes a statement's key, or shows its AIR.
#![tactic(auto)]

use stark_answers::{RunEnd, Verdict};
use stark_cli::statements::{Delivered, Ended, Verb, run, run_to};
use stark_cli::{
    InputFile, InputWord, PartialFile, Request, StageLines, Task, USAGE, WatchedReader,
    WatchedWriter, exit_code, misuse_of, request_of, words_of,
};
use stark_key_runs::{KeyRequest, key_request_of, run_key, run_with_key};
use stark_service::NamedFields;
use std::fmt::Display;
use std::io;
use std::io::{IsTerminal, Stderr};
use std::process::ExitCode;

/// The program's name and version.
const VERSION: &str = "voskligan 0.1.0\n";

/// The lines that name the stages of a task, where there is a terminal for them and they are
/// wanted. To show takes no option that silences them, and has no stages.
fn stages_of(rt: &HostRuntime, task: Task<'_>) -> Option<StageLines<Stderr>> {
    let errors = rt.stderr();
    if task.quiet || task.verb == Verb::Show || !errors.is_terminal() {
        None
    } else {
        Some(StageLines::new(errors))
    }
}

/// Writes something on standard error. It doesn't matter whether that fails.
fn tell_error<E: Display>(rt: &HostRuntime, what: &E) {
    let _ = eprintln!(rt; "{what}");
}

/// The status of a process whose run ended so, after the reason is written.
fn ended_code(rt: &HostRuntime, ended: &Ended) -> ExitCode {
    if let Some(reason) = &ended.reason {
        tell_error(rt, reason);
    }
    exit_code(rt, ended.end)
}

/// Tells which input failed, where one did.
fn tell_failed_read(rt: &HostRuntime, word: InputWord<'_>, input: &WatchedReader<InputFile>) {
    if input.failed {
        match word {
            InputWord::File(path) => tell_error(rt, &format_args!("{path}: a read failed")),
            _ => tell_error(rt, &"standard input: a read failed"),
        }
    }
}

/// Runs a task on its two inputs, and writes what is found to standard output.
fn perform(rt: &HostRuntime, task: Task<'_>, statement: InputFile, second: InputFile) -> ExitCode {
    let mut statement = WatchedReader::new(statement);
    let mut second = WatchedReader::new(second);
    let ended = run::<NamedFields, _, _, _, _>(
        rt.alloc(),
        task.verb,
        &mut statement,
        &mut second,
        &mut WatchedWriter::new(rt.stdout()),
        &mut stages_of(rt, task),
    );
    tell_failed_read(rt, task.statement, &statement);
    tell_failed_read(rt, task.second, &second);
    ended_code(rt, &ended)
}

/// Gives the file of a proof its path, where the run wrote it whole, and else removes it; how the
/// run ends.
fn settled(rt: &HostRuntime, file: PartialFile<'_>, delivered: &Delivered) -> RunEnd {
    let end = delivered.ended.end;
    if !(delivered.is_proof && end == RunEnd::Accepted) {
        file.discard(rt);
        return end;
    }
    match file.keep(rt) {
        Ok(()) => end,
        Err(fault) => {
            tell_error(rt, &fault);
            RunEnd::OutputFailed
        }
    }
}

/// Performs a task whose proof goes to a file. Whether that can be made is seen before anything is
/// read.
fn perform_to(
    rt: &HostRuntime,
    task: Task<'_>,
    path: &str,
    statement: InputFile,
    second: InputFile,
) -> ExitCode {
    let file = match PartialFile::create(rt, path) {
        Ok(file) => file,
        Err(fault) => {
            tell_error(rt, &fault);
            return exit_code(rt, RunEnd::OutputFailed);
        }
    };
    let mut statement = WatchedReader::new(statement);
    let mut second = WatchedReader::new(second);
    let mut output = WatchedWriter::new(file);
    let mut delivered = run_to::<NamedFields, _, _, _, _, _>(
        rt.alloc(),
        task.verb,
        &mut statement,
        &mut second,
        &mut output,
        &mut WatchedWriter::new(rt.stdout()),
        &mut stages_of(rt, task),
    );
    tell_failed_read(rt, task.statement, &statement);
    tell_failed_read(rt, task.second, &second);
    delivered.ended.end = settled(rt, output.into_inner(), &delivered);
    ended_code(rt, &delivered.ended)
}

/// Opens what a word names. Where that can't be opened, standard error says which and why.
fn open(rt: &HostRuntime, word: InputWord<'_>) -> Option<InputFile> {
    match InputFile::open(rt, word) {
        Ok(file) => Some(file),
        Err(fault) => {
            tell_error(rt, &fault);
            None
        }
    }
}

/// Runs a task on the files that it names. A file that can't be opened is a failed input.
fn open_and_perform(rt: &HostRuntime, task: Task<'_>) -> ExitCode {
    let Some(statement) = open(rt, task.statement) else {
        return exit_code(rt, RunEnd::InputFailed);
    };
    let Some(second) = open(rt, task.second) else {
        return exit_code(rt, RunEnd::InputFailed);
    };
    match task.output {
        None => perform(rt, task, statement, second),
        Some(path) => perform_to(rt, task, path, statement, second),
    }
}

/// Makes the key of the statement that a word names, and writes its file to standard output.
fn make_key(rt: &HostRuntime, word: InputWord<'_>) -> ExitCode {
    let Some(statement) = open(rt, word) else {
        return exit_code(rt, RunEnd::InputFailed);
    };
    let mut statement = WatchedReader::new(statement);
    let ended = run_key::<NamedFields, _, _>(
        rt.alloc(),
        &mut statement,
        &mut WatchedWriter::new(rt.stdout()),
    );
    tell_failed_read(rt, word, &statement);
    ended_code(rt, &ended)
}

/// Verifies with the key in the file of a path. The three files are opened before any is read.
fn judge_with_key(
    rt: &HostRuntime,
    path: &str,
    statement_word: InputWord<'_>,
    proof_word: InputWord<'_>,
) -> ExitCode {
    let key_word = InputWord::File(path);
    let Some(key) = open(rt, key_word) else {
        return exit_code(rt, RunEnd::InputFailed);
    };
    let Some(statement) = open(rt, statement_word) else {
        return exit_code(rt, RunEnd::InputFailed);
    };
    let Some(proof) = open(rt, proof_word) else {
        return exit_code(rt, RunEnd::InputFailed);
    };
    let mut key = WatchedReader::new(key);
    let mut statement = WatchedReader::new(statement);
    let mut proof = WatchedReader::new(proof);
    let ended = run_with_key::<NamedFields, _, _, _, _>(
        rt.alloc(),
        &mut key,
        &mut statement,
        &mut proof,
        &mut WatchedWriter::new(rt.stdout()),
    );
    tell_failed_read(rt, key_word, &key);
    tell_failed_read(rt, statement_word, &statement);
    tell_failed_read(rt, proof_word, &proof);
    ended_code(rt, &ended)
}

/// Prints a text that was asked for.
fn print(rt: &HostRuntime, text: &str) -> ExitCode {
    match print!(rt; "{text}") {
        Ok(()) => exit_code(rt, RunEnd::Accepted),
        Err(_) => exit_code(rt, RunEnd::OutputFailed),
    }
}

/// Tells what is wrong with the words, and how the program is used.
fn refuse_words<E: Display>(rt: &HostRuntime, misuse: &E) -> ExitCode {
    let _ = eprint!(rt; "{misuse}\n{USAGE}");
    exit_code(rt, RunEnd::NotJudged)
}

/// Does what words ask for that are about no key.
fn answer_words(rt: &HostRuntime, words: &[String]) -> ExitCode {
    match request_of(words) {
        Request::Run(task) => open_and_perform(rt, task),
        Request::Help => print(rt, USAGE),
        Request::Version => print(rt, VERSION),
        Request::Unknown => refuse_words(rt, &misuse_of(words)),
    }
}

fn main(rt: HostRuntime) -> ExitCode {
    let words = match words_of(&rt) {
        Ok(words) => words,
        Err(Verdict::BadInput) => return refuse_words(&rt, &"a word is no UTF-8"),
        Err(_) => return refuse_words(&rt, &"out of memory"),
    };
    match key_request_of(&words) {
        Some(KeyRequest::Make(statement)) => make_key(&rt, statement),
        Some(
            KeyRequest::Judge {
                key,
                statement,
                proof,
            },
        ) => judge_with_key(&rt, key, statement, proof),
        Some(KeyRequest::Misused(misuse)) => refuse_words(&rt, &misuse),
        None => answer_words(&rt, &words),
    }
}
