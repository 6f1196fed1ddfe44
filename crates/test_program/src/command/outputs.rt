//! Files that can only be read, and what commands print.

use flounder_commands::{FileKind, FileStore};
use std::alloc::Global;
use std::io;
use std::io::Write;

/// One file, of this name; or none can be read. None can be written.
#[derive(Clone, Copy)]
pub enum Shelf {
    Holds(&'static str, &'static [u8]),
    Fails(io::ErrorKind),
}

impl FileStore for Shelf {
    fn read(&mut self, alloc: Global, path: &str, kind: FileKind) -> io::Result<Vec<u8>> {
        match self {
            Shelf::Holds(name, content) if path == *name => {
                let most = content.len().min(kind.most());
                Ok(Vec::from_slice(alloc, &content[..most])?)
            }
            Shelf::Holds(_, _) => Err(io::Error::from(io::ErrorKind::NotFound)),
            Shelf::Fails(kind) => Err(io::Error::from(*kind)),
        }
    }

    fn write(&mut self, _path: &str, _bytes: &[u8]) -> io::Result<()> {
        Err(io::Error::from(io::ErrorKind::Other))
    }
}

/// Takes so many bytes, and then fails so.
#[derive(Drop)]
pub struct Narrow(pub usize, pub io::ErrorKind);

impl Write for Narrow {
    fn write(&mut self, buf: &[u8]) -> io::Result<usize> {
        let n = buf.len().min(self.0);
        if n == 0 && !buf.is_empty() {
            return Err(io::Error::from(self.1));
        }
        self.0 -= n;
        Ok(n)
    }

    fn flush(&mut self) -> io::Result<()> {
        Ok(())
    }
}

/// What came of a command: its status, and what reached standard output and standard error.
#[derive(Drop)]
pub struct CommandOutput {
    pub status: u8,
    pub out: Vec<u8>,
    pub err: Vec<u8>,
}

impl CommandOutput {
    /// Whether it ended so: with this status, and with these bytes on standard output and on standard error.
    pub fn is(&self, status: u8, out: &[u8], err: &[u8]) -> bool {
        self.status == status && self.out.as_slice() == out && self.err.as_slice() == err
    }

    /// Whether it ended with this status and nothing on standard output, and told of a fault.
    pub fn has_told(&self, status: u8) -> bool {
        self.status == status && self.out.is_empty() && !self.err.is_empty()
    }
}
