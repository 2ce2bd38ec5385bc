//! A file that is written whole or not at all.
//!
//! Its bytes go to a new file beside it, which takes its path once they are all there. So under
//! that path is what was there before, or all of what is written.

use std::fmt::{Display, Formatter};
use std::fs::File;
use std::io::Write;
use std::{fmt, fs, io};

/// Why a file isn't written.
#[derive(Debug, Drop)]
pub enum OutputFault<'p> {
    /// What has the path is no regular file.
    NotRegular { path: &'p str },
    /// An allocation failed.
    OutOfMemory,
    /// The file beside it can't be made. One of that name may be there already.
    NotMade { path: &'p str, error: io::Error },
    /// The system doesn't say that all bytes of the file beside it are stored.
    NotStored { path: &'p str, error: io::Error },
    /// The file beside it can't take the path.
    NotRenamed { path: &'p str, error: io::Error },
    /// The file beside it can't be removed.
    NotRemoved { path: &'p str, error: io::Error },
}

impl Display for OutputFault<'_> {
    fn fmt<W: fmt::Write>(&self, f: &mut Formatter<W>) -> fmt::Result {
        match self {
            OutputFault::NotRegular { path } => write!(f, "{path} is no regular file"),
            OutputFault::OutOfMemory => write!(f, "out of memory"),
            OutputFault::NotMade { path, error } => {
                write!(f, "{path}.partial can't be made: {error}")
            }
            OutputFault::NotStored { path, error } => {
                write!(f, "{path}.partial can't be stored: {error}")
            }
            OutputFault::NotRenamed { path, error } => {
                write!(f, "{path}.partial can't be renamed to {path}: {error}")
            }
            OutputFault::NotRemoved { path, error } => {
                write!(f, "{path}.partial can't be removed: {error}")
            }
        }
    }
}

/// A file that isn't complete yet: it stands beside the path that it is for, under that path with
/// `.partial` after it.
#[derive(Drop)]
pub struct PartialFile<'p> {
    path: &'p str,
    partial: String,
    file: File,
}

/// Whether a file may be written under a path: nothing is seen there, or a regular file.
fn may_be_written(rt: &HostRuntime, path: &str) -> bool {
    match fs::symlink_metadata(rt, path) {
        Ok(metadata) => metadata.is_file(),
        Err(_) => !path.is_empty(),
    }
}

impl<'p> PartialFile<'p> {
    /// A new file, with nothing in it, beside a path under which is no file or a regular one. Err
    /// where something else is there, as a folder, a device or a link; where memory is wanting; and
    /// where no such file can be made, as where one of its name is there.
    pub fn create(rt: &HostRuntime, path: &'p str) -> Result<PartialFile<'p>, OutputFault<'p>> {
        if !may_be_written(rt, path) {
            return Err(OutputFault::NotRegular { path });
        }
        let Ok(partial) = format!(in rt.alloc(); "{path}.partial") else {
            return Err(OutputFault::OutOfMemory);
        };
        match File::create_new(rt, partial.as_str()) {
            Ok(file) => Ok(PartialFile {
                path,
                partial,
                file,
            }),
            Err(error) => Err(OutputFault::NotMade { path, error }),
        }
    }

    /// Stores what was written, and gives the file its path.
    fn take_path(&self, rt: &HostRuntime) -> Result<(), OutputFault<'p>> {
        let path = self.path;
        if let Err(error) = self.file.sync_all() {
            return Err(OutputFault::NotStored { path, error });
        }
        match fs::rename(rt, self.partial.as_str(), path) {
            Ok(()) => Ok(()),
            Err(error) => Err(OutputFault::NotRenamed { path, error }),
        }
    }

    /// Gives the file, which is complete, its path, in place of what was there. Err where the
    /// system refuses that: then the path is as it was, and the file is removed.
    pub fn keep(self, rt: &HostRuntime) -> Result<(), OutputFault<'p>> {
        let kept = self.take_path(rt);
        if kept.is_err() {
            self.discard(rt);
        }
        kept
    }

    /// Removes the file, and leaves the path as it is. Standard error says where it can't be
    /// removed.
    pub fn discard(self, rt: &HostRuntime) {
        if let Err(error) = fs::remove_file(rt, self.partial.as_str()) {
            let fault = OutputFault::NotRemoved {
                path: self.path,
                error,
            };
            // It doesn't matter whether this fails too.
            let _ = eprintln!(rt; "{fault}");
        }
    }
}

impl Write for PartialFile<'_> {
    fn write(&mut self, bytes: &[u8]) -> io::Result<usize> {
        self.file.write(bytes)
    }

    fn flush(&mut self) -> io::Result<()> {
        self.file.flush()
    }
}
