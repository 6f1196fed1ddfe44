//! Where a script is read from.

ghost use Rattle.std.specs.Prelude.{ℕ, List, Option, None};
ghost use Rattle.std.specs.Io.{ReadsAtMost};
ghost use Rattle.std.specs.Io.KnownBytes.{ReadConsumes};
ghost use Rattle.fl_script_exec.specs.Counting.{CountsOne};

use std::io;
use std::io::Read;

/// A reader whose reads may be counted: each [`Read`], which counts none, and each type that does.
pub trait ScriptReader {
    // The bytes that reads will give from here on, where they are known.
    ghost remaining: { Self → Option (List ℕ) } = { λ _. None };

    // How often it was read, where it counts that.
    ghost reads: { Self → Option ℕ } = { λ _. None };

    /// One read, as [`Read::read`].
    ///
    /// # Errors
    /// As of the reader.
    fn read(&mut self, buf: &mut [u8]) -> io::Result<usize>
        ensures bound { ReadsAtMost result buf.new }
        ensures bytes { ReadConsumes (remaining self.old) (remaining self.new) result buf.new }
        ensures counted { CountsOne (reads self.old) (reads self.new) };
}

impl<R: Read> ScriptReader for R {
    ghost remaining = { λ r. R.remaining r };

    fn read(&mut self, buf: &mut [u8]) -> io::Result<usize> {
        Read::read(self, buf)
    }
}
