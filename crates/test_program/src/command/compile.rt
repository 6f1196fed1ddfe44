//! `compile`.

use crate::command::store::TellingStore;
use crate::rows::{ProgramCase, all_hold};
use flounder_commands::compile_file;
use std::alloc::Global;
use std::io;
use std::test::Fail;

const PING: &[u8] = b"interface i { message ping(uint32 v); }";

const IMAGE: &[u8] = &[
    0x46, 0x4c, 0x4e, 0x44, 0x02, 0x00, 0x01, 0x69, 0x01, 0x00, 0x04, 0x70, 0x69, 0x6e, 0x67, 0x01,
    0x07, 0x02, 0x00, 0x00, 0x00, 0x01, 0x04, 0x00, 0x08, 0x00, 0x00, 0x02, 0x00, 0x00, 0x00, 0x11,
    0x04, 0x00, 0x18, 0x00, 0x00,
];

const REFUSED: &[u8] = b"interface i { message m(cap c); }";

// What `compile` makes of a file: its content, errors of reading and of writing; and the status, how often it is written, and what is
// told: none for whatever it may be.
struct CompileRow {
    content: &'static [u8],
    unread: Option<io::ErrorKind>,
    unwritten: Option<io::ErrorKind>,
    ends: (u8, usize),
    told: Option<&'static [u8]>,
}

const WRITTEN: CompileRow = CompileRow {
    content: PING,
    unread: None,
    unwritten: None,
    ends: (0, 1),
    told: Some(b""),
};

const REFUSED_TEXT: CompileRow = CompileRow {
    content: REFUSED,
    unread: None,
    unwritten: None,
    ends: (2, 0),
    told: Some(
        b"\
E14 at 24
in.if:1:25: messages carry no capabilities
    interface i { message m(cap c); }
                            ^
help: leave the argument out
",
    ),
};

// An image begins like a word, and its version's byte begins no token.
const REFUSED_IMAGE: CompileRow = CompileRow {
    content: b"FLND\x02\x00",
    unread: None,
    unwritten: None,
    ends: (2, 0),
    told: Some(
        b"\
E1 at 4
in.if:1:5: no token begins with this byte
    FLND\\x02\\x00
        ^
help: the file is an image: give the interface's text, or use show
",
    ),
};

const FILES: &[CompileRow] = &[WRITTEN, REFUSED_TEXT, REFUSED_IMAGE];

const OTHER: Option<io::ErrorKind> = Some(io::ErrorKind::Other);

const FULL: Option<io::ErrorKind> = Some(io::ErrorKind::OutOfMemory);

// Reading the file, its content, writing. A text is compiled, and nothing else.
const FIRST_FAULTS: &[CompileRow] = &[
    CompileRow {
        content: REFUSED,
        unread: OTHER,
        unwritten: OTHER,
        ends: (4, 0),
        told: None,
    },
    CompileRow {
        content: REFUSED,
        unread: FULL,
        unwritten: OTHER,
        ends: (3, 0),
        told: None,
    },
    CompileRow {
        content: REFUSED,
        unread: None,
        unwritten: OTHER,
        ends: (2, 0),
        told: None,
    },
    CompileRow {
        content: IMAGE,
        unread: None,
        unwritten: OTHER,
        ends: (2, 0),
        told: None,
    },
    CompileRow {
        content: PING,
        unread: None,
        unwritten: OTHER,
        ends: (4, 1),
        told: None,
    },
    CompileRow {
        content: PING,
        unread: None,
        unwritten: FULL,
        ends: (3, 1),
        told: None,
    },
];

fn is_told(errors: &[u8], told: Option<&[u8]>) -> bool {
    match told {
        Some(told) => errors == told,
        None => !errors.is_empty(),
    }
}

fn ends_so(alloc: Global, store: &mut TellingStore, row: &CompileRow) -> bool {
    let mut errors = Vec::new(alloc);
    let status = compile_file(alloc, "in.if", "out", store, &mut errors);
    status == row.ends.0 && store.writes == row.ends.1 && is_told(&errors, row.told)
}

impl ProgramCase for CompileRow {
    fn holds(&self, alloc: Global) -> Result<bool, Fail> {
        let mut store = TellingStore::new(alloc, self.content, self.unread, self.unwritten);
        Ok(ends_so(alloc, &mut store, self))
    }
}

// Whether the image is written; or, out of memory, nothing.
fn is_written(alloc: Global, store: &mut TellingStore) -> bool {
    let mut errors = Vec::new(alloc);
    match compile_file(alloc, "in.if", "out", store, &mut errors) {
        0 => store.written() == IMAGE,
        status => status == 3 && store.writes == 0,
    }
}

#[test]
fn texts_are_compiled(rt: HostRuntime) -> Result<(), Fail> {
    all_hold(rt.alloc(), "files", FILES)?;
    all_hold(rt.alloc(), "first faults", FIRST_FAULTS)
}

// The image, or out of memory and nothing written.
#[test]
fn compiled_without_memory(rt: HostRuntime) {
    let mut store = TellingStore::new(rt.alloc(), PING, None, None);
    assert!(rt; is_written(rt.alloc(), &mut store));
}
