//! Lines of a transcript that tell of refused lines, found while it is written.

ghost use Rattle.std.specs.Prelude.{◌≡◌, ◌≤◌, ◌==◌, length, IfSome};
ghost use Rattle.std.specs.List.{list_any};
ghost use Rattle.flounder_commands.specs.Scan.{Ahead, before, behind, after, ends_line, after_byte, after_all, at_start};
ghost use Rattle.flounder_commands.specs.Scan.{awaits, EndsBeforeE};
ghost use Rattle.flounder_commands.specs.ScanView.{ahead, scanned};

use memchr::{memchr, memrchr};

const REFUSED: &[u8] = b"refused E";

const AT: &[u8] = b"at ";

/// What is to come of a line where it tells of a refused line.
#[derive(Clone, Copy)]
enum LineState {
    /// These bytes before its number, or digits if there are none.
    Before(&'static [u8]),
    /// These bytes behind its number.
    Behind(&'static [u8]),
    /// It tells of none.
    Other,
}

// One more byte of a line of which these are to come before its number.
fn after_before(rest: &'static [u8], byte: u8) -> LineState
    ensures is { ahead result ≡ after (before rest.now) byte }
{
    match rest.split_first() {
        Some((first, more)) if *first == byte => LineState::Before(more),
        Some(_) => LineState::Other,
        None if byte.is_ascii_digit() => LineState::Before(rest),
        None if byte == b' ' => LineState::Behind(AT),
        None => LineState::Other,
    }
}

// One more byte of a line of which these are to come behind its number.
fn after_behind(rest: &'static [u8], byte: u8) -> LineState
    ensures is { ahead result ≡ after (behind rest.now) byte }
{
    match rest.split_first() {
        Some((first, more)) if *first == byte => LineState::Behind(more),
        Some(_) => LineState::Other,
        None => LineState::Behind(rest),
    }
}

// Whether an `E` is among these.
fn has_e(bytes: &[u8]) -> bool
    ensures any { result ≡ list_any (λ c. c == 69) bytes.now }
{
    bytes.iter().any(|byte| *byte == b'E')
}

impl LineState {
    // One more byte of the line.
    fn after(self, byte: u8) -> LineState
        ensures is { ahead result ≡ after (ahead self) byte }
    {
        match self {
            LineState::Before(rest) => after_before(rest, byte),
            LineState::Behind(rest) => after_behind(rest, byte),
            LineState::Other => LineState::Other,
        }
    }

    // Whether it tells of none before an `E` comes.
    fn awaits(self) -> bool
        ensures same { result ≡ awaits (ahead self) }
    {
        match self {
            LineState::Before(rest) => has_e(rest),
            LineState::Behind(_) => false,
            LineState::Other => true,
        }
    }

    // Whether the line tells of a refused one where it ends here.
    fn is_refusal(self) -> bool
        ensures is { result ≡ ends_line (ahead self) }
    {
        match self {
            LineState::Before(rest) | LineState::Behind(rest) => rest.is_empty(),
            LineState::Other => false,
        }
    }
}

// The place of the last line feed before the first `E`.
fn last_feed(bytes: &[u8]) -> Option<usize>
    ensures last { IfSome result (EndsBeforeE bytes.now) }
{
    match memchr(b'E', bytes) {
        Some(at) => memrchr(b'\n', &bytes[..at]),
        None => memrchr(b'\n', bytes),
    }
}

/// How far a transcript was read: whether a line told of a refused one, and what is to come of the last line.
#[derive(Clone, Copy)]
pub(crate) struct Scan {
    pub found: bool,
    line: LineState,
}

impl Scan {
    /// Nothing was read.
    pub(crate) fn new() -> Scan
        ensures is { scanned result ≡ at_start }
    {
        Scan {
            found: false,
            line: LineState::Before(REFUSED),
        }
    }

    fn after_byte(self, byte: u8) -> Scan
        ensures is { scanned result ≡ after_byte (scanned self) byte }
    {
        if byte == b'\n' {
            Scan {
                found: self.found || self.line.is_refusal(),
                line: LineState::Before(REFUSED),
            }
        } else {
            Scan {
                found: self.found,
                line: self.line.after(byte),
            }
        }
    }

    // What of these bytes is to be read: of a line that tells of none, only its end.
    fn unread(self, bytes: &[u8]) -> &[u8]
        ensures same { after_all (scanned self) result.now ≡ after_all (scanned self) bytes.now }
        ensures within { length result.now ≤ length bytes.now }
    {
        match self.line {
            LineState::Before(_) | LineState::Behind(_) => bytes,
            LineState::Other => match memchr(b'\n', bytes) {
                Some(end) => &bytes[end..],
                None => &[],
            },
        }
    }

    // Past the lines that end before an `E`, which tell of none: most transcripts have no `E`. And what is left.
    fn past_lines(self, bytes: &[u8]) -> (Scan, &[u8])
        ensures same { after_all (scanned result.0) result.1.now ≡ after_all (scanned self) bytes.now }
    {
        if !self.line.awaits() {
            return (self, bytes);
        }
        let Some(at) = last_feed(bytes) else {
            return (self, bytes);
        };
        let next = Scan {
            found: self.found,
            line: LineState::Before(REFUSED),
        };
        (next, &bytes[at + 1..])
    }

    /// These bytes were read behind the others.
    pub(crate) fn after(self, bytes: &[u8]) -> Scan
        ensures is { scanned result ≡ after_all (scanned self) bytes.now }
    {
        let (start, left) = self.past_lines(bytes);
        let mut scan = start;
        let mut rest = left;
        while let Some((byte, more)) = rest.split_first() {
            scan = scan.after_byte(*byte);
            rest = scan.unread(more);
        }
        scan
    }
}
