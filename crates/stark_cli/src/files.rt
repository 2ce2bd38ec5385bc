//! What a program reads from: a file, standard input, or nothing.

use crate::arguments::InputWord;
use std::fmt::{self, Display, Formatter};
use std::fs::File;
use std::io::{self, Read, Stdin};

/// What a program reads from.
#[derive(Drop)]
pub enum InputFile {
    /// A file that is open.
    File(File),
    /// Standard input.
    Standard(Stdin),
    /// Nothing: it is at its end.
    Nothing,
}

/// A file of this path can't be opened, for what the system says.
#[derive(Debug, Drop)]
pub struct OpenFault<'w> {
    pub path: &'w str,
    pub error: io::Error,
}

impl Display for OpenFault<'_> {
    fn fmt<W: fmt::Write>(&self, f: &mut Formatter<W>) -> fmt::Result {
        write!(f, "{}: {}", self.path, self.error)
    }
}

impl InputFile {
    /// What a word names, opened for reading. Err where the file can't be opened.
    pub fn open<'w>(rt: &HostRuntime, word: InputWord<'w>) -> Result<InputFile, OpenFault<'w>> {
        match word {
            InputWord::Nothing => Ok(InputFile::Nothing),
            InputWord::Standard => Ok(InputFile::Standard(rt.stdin())),
            InputWord::File(path) => match File::open(rt, path) {
                Ok(file) => Ok(InputFile::File(file)),
                Err(error) => Err(OpenFault { path, error }),
            },
        }
    }
}

impl Read for InputFile {
    fn read(&mut self, buf: &mut [u8]) -> io::Result<usize> {
        match self {
            InputFile::File(file) => file.read(buf),
            InputFile::Standard(input) => input.read(buf),
            InputFile::Nothing => Ok(0),
        }
    }
}
