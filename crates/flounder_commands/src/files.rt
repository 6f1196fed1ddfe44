//! The files that commands name.

ghost use Rattle.std.specs.Prelude.{◌≡◌, ◌≤◌, Option, List, None, IfOk, length};
ghost use Rattle.flounder_commands.specs.FileEffects.{FileEffect, Adds, reading, writing, most_read};

use std::alloc::Global;
use std::io::{Read, Write};
use std::rt::Files;
use std::{fs, io};

// One byte more than any interface's text, image, cores file and script has.
const MOST_TEXT: usize = 65_537;

const MOST_IMAGE: usize = 1_073_741_825;

const MOST_CORES: usize = 1_048_577;

const MOST_SCRIPT: usize = 1_048_577;

const MAGIC: &[u8] = b"FLND";

/// What a file is to hold. Of one that has more bytes than any of its kind only so many are read as show
/// that.
#[derive(Clone, Copy, PartialEq, Eq)]
pub enum FileKind {
    /// An interface's text.
    Text,
    /// An image, if it begins so, else a text.
    TextOrImage,
    /// A cores file.
    Cores,
    /// A script.
    Script,
}

/// Reads and writes files by their paths.
pub trait FileStore {
    // What was done with files so far, in order, where the store tells it. A store may never tell, or stop
    // telling.
    ghost effects: { Self → Option (List FileEffect) } = { λ _. None };

    /// The bytes of a file, all or as many as are read of its kind.
    ///
    /// # Errors
    /// As of the system; of the kind `OutOfMemory` when out of memory.
    fn read(&mut self, alloc: Global, path: &str, kind: FileKind) -> io::Result<Vec<u8>>
        ensures few { IfOk result (λ v. length v.items ≤ most_read kind) }
        ensures done { Adds (effects self.old) (effects self.new) (reading (λ v. v.items) path.now result) };

    /// Makes a file of these bytes, in the place of one of that path.
    ///
    /// # Errors As of the system; of the kind `OutOfMemory` when out of memory. The file may then hold a
    /// prefix of the bytes.
    fn write(&mut self, path: &str, bytes: &[u8]) -> io::Result<()>
        ensures done { Adds (effects self.old) (effects self.new) (writing path.now bytes.now result) };
}

/// The files of the system.
#[derive(Clone, Copy)]
pub struct Disk<'r, R>(pub &'r R);

impl FileKind {
    /// So many bytes of a file of the kind are read at most.
    pub fn most(self) -> usize
        ensures most { result ≡ most_read self }
    {
        match self {
            FileKind::Text => MOST_TEXT,
            FileKind::TextOrImage => MOST_IMAGE,
            FileKind::Cores => MOST_CORES,
            FileKind::Script => MOST_SCRIPT,
        }
    }

    // So many bytes are read before it is known whether it is an image.
    fn first(self) -> usize {
        match self {
            FileKind::Text | FileKind::TextOrImage => MOST_TEXT,
            FileKind::Cores => MOST_CORES,
            FileKind::Script => MOST_SCRIPT,
        }
    }
}

// The bytes of a reader, all or as many as are read of a file of this kind.
fn read_first<R: Read + Drop>(alloc: Global, reader: R, kind: FileKind) -> io::Result<Vec<u8>>
    ensures few { IfOk result (λ v. length v.items ≤ most_read kind) }
{
    let mut bytes = Vec::new(alloc);
    let mut rest = reader.take(kind.first() as u64);
    rest.read_to_end(&mut bytes)?;
    if kind == FileKind::TextOrImage && bytes.starts_with(MAGIC) {
        rest.set_limit(kind.most().saturating_sub(bytes.len()) as u64);
        rest.read_to_end(&mut bytes)?;
    }
    bytes.truncate(kind.most());
    Ok(bytes)
}

impl<R: Files> FileStore for Disk<'_, R> {
    fn read(&mut self, alloc: Global, path: &str, kind: FileKind) -> io::Result<Vec<u8>> {
        let file = fs::open(self.0, path)?;
        read_first(alloc, file, kind)
    }

    fn write(&mut self, path: &str, bytes: &[u8]) -> io::Result<()> {
        let mut file = fs::create(self.0, path)?;
        file.write_all(bytes)
    }
}
