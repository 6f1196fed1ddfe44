//! A store of two files, which tells what is done with them.

ghost use Rattle.std.specs.Prelude.{◌≡◌, ◌++◌, ◌∷◌, [], map, option_map, IfOk, IfSome};
ghost use Rattle.flounder_commands.specs.FileEffects.{Adds, effect_of};

use flounder_commands::{FileKind, FileStore};
use std::alloc::{AllocError, Global};
use std::io;

// What was done with a file, as the store writes it down.
#[derive(Drop)]
struct FileEffect {
    is_read: bool,
    path: Vec<u8>,
    bytes: Vec<u8>,
    failed: Option<io::ErrorKind>,
}

fn new_effect(
    alloc: Global,
    is_read: bool,
    path: &[u8],
    bytes: &[u8],
    failed: Option<io::ErrorKind>,
) -> Result<FileEffect, AllocError>
    ensures effect { IfOk result (λ e. effect_of e.is_read e.path.items e.bytes.items e.failed ≡ effect_of is_read path.now bytes.now failed) }
{
    let path = Vec::from_slice(alloc, path)?;
    let bytes = Vec::from_slice(alloc, bytes)?;
    Ok(FileEffect {
        is_read,
        path,
        bytes,
        failed,
    })
}

// The effects with one more, as far as there is memory for them.
fn with_effect(effects: Vec<FileEffect>, effect: FileEffect) -> Option<Vec<FileEffect>>
    ensures told { IfSome result (λ all. map (λ e. effect_of e.is_read e.path.items e.bytes.items e.failed) all.items
        ≡ map (λ e. effect_of e.is_read e.path.items e.bytes.items e.failed) effects.items
        ++ effect_of effect.is_read effect.path.items effect.bytes.items effect.failed ∷ []) }
{
    let mut effects = effects;
    match effects.push(effect) {
        Ok(()) => Some(effects),
        Err(_) => None,
    }
}

/// The file `in.if`, which may not be read; and `out`, which may not be written. It tells its effects while it has memory to write
/// them down.
#[derive(Drop)]
pub struct TellingStore {
    content: &'static [u8],
    unread: Option<io::ErrorKind>,
    unwritten: Option<io::ErrorKind>,
    image: [u8; 64],
    len: usize,
    pub writes: usize,
    alloc: Global,
    effects: Option<Vec<FileEffect>>,
}

impl TellingStore {
    /// A file of this content, and errors of these kinds.
    pub fn new(
        alloc: Global,
        content: &'static [u8],
        unread: Option<io::ErrorKind>,
        unwritten: Option<io::ErrorKind>,
    ) -> TellingStore {
        TellingStore {
            content,
            unread,
            unwritten,
            image: [0; 64],
            len: 0,
            writes: 0,
            alloc,
            effects: Some(Vec::new(alloc)),
        }
    }

    fn put(&mut self, path: &str, bytes: &[u8]) -> io::Result<()>
        ensures effects { self.new.effects ≡ self.old.effects }
    {
        self.writes = self.writes.saturating_add(1);
        if path != "out" {
            return Err(io::Error::from(io::ErrorKind::NotFound));
        }
        let n = bytes.len().min(64);
        self.image[..n].copy_from_slice(&bytes[..n]);
        self.len = n;
        match self.unwritten {
            Some(kind) => Err(io::Error::from(kind)),
            None => Ok(()),
        }
    }

    /// The bytes of `out`.
    pub fn written(&self) -> &[u8] {
        &self.image[..self.len.min(64)]
    }
}

// What was done so far, and one effect more.
fn note(
    alloc: Global,
    effects: Option<Vec<FileEffect>>,
    is_read: bool,
    path: &[u8],
    bytes: &[u8],
    failed: Option<io::ErrorKind>,
) -> Option<Vec<FileEffect>>
    ensures told { Adds
        (option_map (λ all. map (λ e. effect_of e.is_read e.path.items e.bytes.items e.failed) all.items) effects)
        (option_map (λ all. map (λ e. effect_of e.is_read e.path.items e.bytes.items e.failed) all.items) result)
        (effect_of is_read path.now bytes.now failed) }
{
    let effects = effects?;
    match new_effect(alloc, is_read, path, bytes, failed) {
        Ok(effect) => with_effect(effects, effect),
        Err(_) => None,
    }
}

impl FileStore for TellingStore {
    ghost effects = { λ store. option_map (λ all. map (λ e. effect_of e.is_read e.path.items e.bytes.items e.failed) all.items) store.effects };

    fn read(&mut self, alloc: Global, path: &str, kind: FileKind) -> io::Result<Vec<u8>> {
        let most = self.content.len().min(kind.most());
        let found = match self.unread {
            Some(kind) => Err(io::Error::from(kind)),
            None if path == "in.if" => Vec::from_slice(alloc, &self.content[..most]).map_err(
                io::Error::from,
            ),
            None => Err(io::Error::from(io::ErrorKind::NotFound)),
        };
        let effects = self.effects.take();
        self.effects = match &found {
            Ok(bytes) => note(self.alloc, effects, true, path.as_bytes(), bytes, None),
            Err(error) => note(
                self.alloc,
                effects,
                true,
                path.as_bytes(),
                &[],
                Some(error.kind()),
            ),
        };
        found
    }

    fn write(&mut self, path: &str, bytes: &[u8]) -> io::Result<()> {
        let done = self.put(path, bytes);
        let effects = self.effects.take();
        self.effects = match &done {
            Ok(()) => note(self.alloc, effects, false, path.as_bytes(), bytes, None),
            Err(error) => note(
                self.alloc,
                effects,
                false,
                path.as_bytes(),
                bytes,
                Some(error.kind()),
            ),
        };
        done
    }
}
