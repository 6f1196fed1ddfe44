//! Text that grows, and where in C the value stands whose lines are put. Pieces are put without looking: a page
//! for which memory ran out tells so at its end.

use std::alloc::{AllocError, Global};

/// Which way numbers go.
#[derive(Clone, Copy)]
pub(crate) enum MoveWay {
    /// From a struct to a call's numbers.
    Put,
    /// From a call's numbers to a struct.
    Get,
}

/// Text that grows by pieces.
#[derive(Drop)]
pub(crate) struct Page {
    alloc: Global,
    text: Vec<u8>,
    // the value's path, as `m->a2.f0[i0]`
    path: Vec<u8>,
    // how many loops and structs are open
    depth: usize,
    failed: bool,
}

impl Page {
    pub(crate) fn new(alloc: Global) -> Page {
        Page {
            alloc,
            text: Vec::new(alloc),
            path: Vec::new(alloc),
            depth: 0,
            failed: false,
        }
    }

    /// The text.
    pub(crate) fn into_text(self) -> Result<Vec<u8>, AllocError> {
        let Page { text, failed, .. } = self;
        if failed {
            return Err(AllocError);
        }
        Ok(text)
    }

    /// Puts a piece.
    pub(crate) fn push(&mut self, piece: &[u8]) {
        let put = self.text.extend_from_slice(piece);
        self.failed |= put.is_err();
    }

    /// Puts a name that ends in a number.
    pub(crate) fn push_numbered(&mut self, name: &[u8], number: usize) {
        let put = extend_numbered(self.alloc, &mut self.text, name, number);
        self.failed |= put.is_err();
    }

    /// Puts the value's path.
    pub(crate) fn push_path(&mut self) {
        let put = self.text.extend_from_slice(&self.path);
        self.failed |= put.is_err();
    }

    /// Begins a line.
    pub(crate) fn indent(&mut self) {
        for _ in 0..self.depth {
            self.push(b"    ");
        }
        self.push(b"    ");
    }

    /// Goes to the argument of this number.
    pub(crate) fn argument(&mut self, number: usize) {
        self.path.clear();
        self.enter(b"m->a", number);
    }

    /// Goes on by a name that ends in a number, and tells how to come back.
    pub(crate) fn enter(&mut self, name: &[u8], number: usize) -> usize {
        let mark = self.path.len();
        let put = extend_numbered(self.alloc, &mut self.path, name, number);
        self.failed |= put.is_err();
        mark
    }

    /// Comes back.
    pub(crate) fn leave(&mut self, mark: usize) {
        self.path.truncate(mark);
    }

    /// Opens a struct.
    pub(crate) fn open(&mut self) {
        self.depth = self.depth.saturating_add(1);
    }

    /// Closes a struct or loop.
    pub(crate) fn close(&mut self) {
        self.depth = self.depth.saturating_sub(1);
    }

    /// Begins a loop over so many elements of a part of the value, or as many as it counts, and goes to the
    /// element.
    pub(crate) fn begin_loop(&mut self, count: Option<u32>, part: &[u8]) -> usize {
        let index = self.depth;
        self.indent();
        self.push_numbered(b"for (size_t i", index);
        self.push_numbered(b" = 0; i", index);
        match count {
            Some(count) => self.push_numbered(b" < ", count as usize),
            None => {
                self.push(b" < ");
                self.push_path();
                self.push(b".count");
            }
        }
        self.push_numbered(b"; i", index);
        self.push(b"++) {\n");
        self.open();
        let mark = self.enter_part(part);
        self.enter(b"[i", index);
        self.end_path(b"]");
        mark
    }

    // Goes on by a name, and tells how to come back.
    fn enter_part(&mut self, part: &[u8]) -> usize {
        let mark = self.path.len();
        self.end_path(part);
        mark
    }

    fn end_path(&mut self, part: &[u8]) {
        let put = self.path.extend_from_slice(part);
        self.failed |= put.is_err();
    }

    /// Ends a loop, and comes back.
    pub(crate) fn end_loop(&mut self, mark: usize) {
        self.leave(mark);
        self.close();
        self.indent();
        self.push(b"}\n");
    }
}

// Appends a name, and a number in decimal.
fn extend_numbered(
    alloc: Global,
    text: &mut Vec<u8>,
    name: &[u8],
    number: usize,
) -> Result<(), AllocError> {
    let digits = format!(in alloc; "{number}")?;
    text.extend_from_slice(name)?;
    text.extend_from_slice(digits.as_bytes())
}
