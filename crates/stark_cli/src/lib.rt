//! Runs of both programs, from words and bytes to bytes, and what they mean: of `stark_run` in
//! `samples`, of `voskligan` in `statements`.
#![tactic(auto)]

mod arguments;
mod files;
mod floors;
mod host;
mod misuse;
mod outcome;
mod output;
mod progress;
pub mod samples;
mod sources;
pub mod statements;
mod streams;
mod words;

pub use arguments::{InputWord, Request, Task, USAGE, input_of, path_of, request_of};
pub use files::{InputFile, OpenFault};
pub use host::{exit_code, words_of};
pub use misuse::{Misuse, misuse_of};
pub use outcome::tell;
pub use output::{OutputFault, PartialFile};
pub use progress::StageLines;
pub use sources::{WatchedReader, WatchedWriter};
pub use streams::{
    InputFault, ReadFailed, RunWith, RunWithBoth, Sink, Source, WriteFailed, read_to_end, write_all,
};
pub use words::{Command, named_command};
