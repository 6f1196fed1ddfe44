//! Readers and writers that remember why they failed, and what passed through them.

ghost use Rattle.std.specs.Prelude.{◌≡◌, false, [], None, IfSome};
ghost use Rattle.flounder_commands.specs.Refusals.{has_refusal};
ghost use Rattle.flounder_commands.specs.Scan.{at_start, told_by};
ghost use Rattle.flounder_commands.specs.ScanView.{scanned};

use crate::refusals::Scan;
use std::alloc::Global;
use std::cell::Cell;
use std::io;
use std::io::{Read, Write};

/// What is remembered of a reader or a writer.
pub trait Watch {
    /// Whether a person types what is read.
    fn is_typed(&self) -> bool;

    /// Why it failed last, if it did.
    fn failure(&self) -> Option<io::Error>;

    /// From here on what passes is kept.
    fn keep(&self);

    /// What passed since then, if memory held all of it.
    fn kept(&self) -> Option<&[u8]>;
}

/// A writer that knows whether a line of the transcript that it holds tells of a refused line.
pub trait FindsRefusals: Write {
    /// Whether one does.
    fn has_refusal(&self) -> bool
        ensures is { IfSome (Self.contents self.now) (λ all. result ≡ has_refusal all) };
}

/// A reader or a writer of which that is remembered.
#[derive(Drop)]
pub struct Watched<T> {
    inner: T,
    is_typed: bool,
    failure: Option<io::Error>,
    keeps: Cell<bool>,
    kept: Vec<u8>,
    is_whole: bool,
    scan: Scan,
}

impl<T> Watched<T> {
    /// The same reader or writer, of which nothing is remembered yet. A writer that was given nothing tells what it holds from here on.
    pub fn new(alloc: Global, inner: T) -> Watched<T>
        ensures same { result.inner ≡ inner }
        ensures unread { scanned result.scan ≡ at_start }
        ensures typed { result.is_typed ≡ false }
        ensures none { result.failure ≡ None }
        ensures empty { result.kept.items ≡ [] }
    {
        Watched {
            inner,
            is_typed: false,
            failure: None,
            keeps: Cell::new(false),
            kept: Vec::new(alloc),
            is_whole: true,
            scan: Scan::new(),
        }
    }

    /// The same, of which it is known whether a person types what is read.
    pub fn typed(mut self, is_typed: bool) -> Watched<T>
        ensures same { result.inner ≡ self.inner }
        ensures unread { result.scan ≡ self.scan }
        ensures typed { result.is_typed ≡ is_typed }
    {
        self.is_typed = is_typed;
        self
    }
}

// What was kept, with these bytes behind it, and whether memory held all of it.
fn keep(kept: &mut Vec<u8>, bytes: &[u8]) -> bool {
    kept.extend_from_slice(bytes).is_ok()
}

impl<T> Watch for Watched<T> {
    fn is_typed(&self) -> bool {
        self.is_typed
    }

    fn failure(&self) -> Option<io::Error> {
        self.failure
    }

    fn keep(&self) {
        self.keeps.set(true);
    }

    fn kept(&self) -> Option<&[u8]> {
        if self.is_whole {
            Some(&self.kept)
        } else {
            None
        }
    }
}

impl<R: Read> Read for Watched<R> {
    ghost remaining = { λ w. R.remaining w.inner };

    fn read(&mut self, buf: &mut [u8]) -> io::Result<usize> {
        match self.inner.read(buf) {
            Ok(n) => {
                if self.keeps.get() {
                    self.is_whole = keep(&mut self.kept, &buf[..n]) && self.is_whole;
                }
                Ok(n)
            }
            Err(error) => {
                self.failure = Some(error);
                Err(error)
            }
        }
    }
}

/// What it holds it tells where it was watched from its first byte on.
impl<W: Write> Write for Watched<W> {
    ghost contents = { λ w. told_by (scanned w.scan) (W.contents w.inner) };

    fn write(&mut self, buf: &[u8]) -> io::Result<usize> {
        match self.inner.write(buf) {
            Ok(n) => {
                self.scan = self.scan.after(&buf[..n]);
                if self.keeps.get() {
                    self.is_whole = keep(&mut self.kept, &buf[..n]) && self.is_whole;
                }
                Ok(n)
            }
            Err(error) => {
                self.failure = Some(error);
                Err(error)
            }
        }
    }

    fn flush(&mut self) -> io::Result<()> {
        let flushed = self.inner.flush();
        if let Err(error) = flushed {
            self.failure = Some(error);
        }
        flushed
    }
}

impl<W: Write> FindsRefusals for Watched<W> {
    fn has_refusal(&self) -> bool {
        self.scan.found
    }
}
