//! `show`.

use crate::command::outputs::{CommandOutput, Narrow, Shelf};
use crate::rows::{ProgramCase, all_hold};
use flounder_commands::{Fault, finish, show_file};
use std::alloc::Global;
use std::io;
use std::io::{BufWriter, Write};
use std::test::Fail;

// What is left in the buffer of standard output is lost.
fn show_into<W: Write + Drop>(
    alloc: Global,
    file: &str,
    names: bool,
    shelf: Shelf,
    output: W,
    errors: &mut Vec<u8>,
) -> u8 {
    let mut files = shelf;
    let Ok(mut output) = BufWriter::new(alloc, output) else {
        return finish(Err(Fault::Memory), errors);
    };
    let status = show_file(alloc, file, names, &mut files, &mut output, errors);
    let _left = output.into_parts();
    status
}

fn show(alloc: Global, file: &str, names: bool, shelf: Shelf) -> CommandOutput {
    let mut out = Vec::new(alloc);
    let mut err = Vec::new(alloc);
    let status = show_into(alloc, file, names, shelf, &mut out, &mut err);
    CommandOutput { status, out, err }
}

const MIXED: Shelf = Shelf::Holds(
    "mixed.if",
    b"interface i { message m(uint8 a, string s, uint16 b); }",
);

const REFUSED: Shelf = Shelf::Holds("cap.if", b"interface i { message m(cap c); }");

// A file that is asked for and the one that is there, the status, and what is printed and told.
struct ShowRow(&'static str, Shelf, u8, &'static [u8], &'static [u8]);

const TABLE: &[ShowRow] = &[ShowRow(
    "mixed.if",
    MIXED,
    0,
    b"\
interface i plan 2
message 0 m least 16 greatest 2063 fragments 37
arg 0 at 2 fixed 1
arg 1 at 8 string max 2047
arg 2 at 0 fixed 2
",
    b"",
)];

// The first line is the fault alone.
const TOLD: &[ShowRow] = &[ShowRow(
    "cap.if",
    REFUSED,
    2,
    b"",
    b"\
E14 at 24
cap.if:1:25: messages carry no capabilities
    interface i { message m(cap c); }
                            ^
help: leave the argument out
",
)];

// Where another byte stands in an image's magic it is read as a text: its version's first byte begins no token.
const NO_TEXTS: &[ShowRow] = &[
    ShowRow(
        "x",
        Shelf::Holds("x", b""),
        2,
        b"",
        b"\
E7 at 0
x:1:1: the text ends here, where `interface` is expected
help: compare with the grammar in docs/INTERFACES.md
",
    ),
    ShowRow(
        "x",
        Shelf::Holds("x", b"FLNE\x02\x00"),
        2,
        b"",
        b"\
E1 at 4
x:1:5: no token begins with this byte
    FLNE\\x02\\x00
        ^
help: a text has words, decimal numbers, { } ( ) [ ] , ; and comments alone
",
    ),
    ShowRow(
        "x",
        Shelf::Holds("x", b"interface\ni {\n"),
        2,
        b"",
        b"\
E7 at 14
x:3:1: the text ends here, where `}`, `alias`, `typedef`, `message`, `call`, `response` or `rpc` is expected
help: compare with the grammar in docs/INTERFACES.md
",
    ),
    ShowRow(
        "x",
        Shelf::Holds("x", b"\xef\xbb\xbfinterface i { }"),
        2,
        b"",
        b"\
E1 at 0
x:1:1: no token begins with this byte
    \\xef\\xbb\\xbfinterface i { }
    ^
help: the file begins with a byte order mark: save it without one
",
    ),
    ShowRow(
        "x",
        Shelf::Holds(
            "x",
            b"interface i { message m(later x); typedef uint8 later; }",
        ),
        2,
        b"",
        b"\
E11 at 24
x:1:25: no type of this name is declared before
    interface i { message m(later x); typedef uint8 later; }
                            ^
help: declare the type above what uses it, or mend its name
",
    ),
    ShowRow(
        "x",
        Shelf::Holds("x", b"FLND\x02\x00"),
        2,
        b"",
        b"E82\nx: the image ends early: it was cut, or not written whole\n",
    ),
];

// What could stand there, where the first stands, and how much is too much.
const CAUSES: &[ShowRow] = &[
    ShowRow(
        "x",
        Shelf::Holds("x", b"interface i { message m(uint32 v) }"),
        2,
        b"",
        b"\
E7 at 34
x:1:35: `;` is expected here
    interface i { message m(uint32 v) }
                                      ^
help: compare with the grammar in docs/INTERFACES.md
",
    ),
    ShowRow(
        "x",
        Shelf::Holds("x", b"interface i { message m(uint32 v[4]); }"),
        2,
        b"",
        b"\
E7 at 33
x:1:34: a name is expected here
    interface i { message m(uint32 v[4]); }
                                     ^
help: compare with the grammar in docs/INTERFACES.md
",
    ),
    ShowRow(
        "x",
        Shelf::Holds("x", b"interface i { message m(string s 4); }"),
        2,
        b"",
        b"\
E7 at 33
x:1:34: `)`, `[` or `,` is expected here
    interface i { message m(string s 4); }
                                     ^
help: compare with the grammar in docs/INTERFACES.md
",
    ),
    ShowRow(
        "x",
        Shelf::Holds("x", b"interface i { rpc f(uint8 x); }"),
        2,
        b"",
        b"\
E7 at 20
x:1:21: `)`, `in` or `out` is expected here
    interface i { rpc f(uint8 x); }
                        ^
help: compare with the grammar in docs/INTERFACES.md
",
    ),
    ShowRow(
        "x",
        Shelf::Holds(
            "x",
            b"interface i {\n  typedef uint8 t;\n  typedef uint8 t;\n}",
        ),
        2,
        b"",
        b"\
E10 at 49
x:3:17: this type's name is taken: the first is at 2:17
      typedef uint8 t;
                    ^
help: choose another name
",
    ),
    ShowRow(
        "x",
        Shelf::Holds("x", b"interface i { typedef uint8 bool; }"),
        2,
        b"",
        b"\
E10 at 28
x:1:29: this type's name is taken: a type of this name is built in
    interface i { typedef uint8 bool; }
                                ^
help: choose another name
",
    ),
    ShowRow(
        "x",
        Shelf::Holds("x", b"interface i { rpc f(in uint8 x); message f_call(); }"),
        2,
        b"",
        b"\
E12 at 41
x:1:42: this message's name is taken: the first is at 1:19
    interface i { rpc f(in uint8 x); message f_call(); }
                                             ^
help: choose another name
",
    ),
    ShowRow(
        "x",
        Shelf::Holds(
            "x",
            b"interface i { message m(uint8 a, uint8 b, uint8 a); }",
        ),
        2,
        b"",
        b"\
E13 at 48
x:1:49: this name stands twice in one list: the first is at 1:31
    interface i { message m(uint8 a, uint8 b, uint8 a); }
                                                    ^
help: choose another name
",
    ),
    ShowRow(
        "x",
        Shelf::Holds("x", b"interface i { typedef uint64 t[1024]; }"),
        2,
        b"",
        b"\
E17 at 29
x:1:30: this type has 8192 bytes, where 4096 are the most
    interface i { typedef uint64 t[1024]; }
                                 ^
help: use smaller bounds, or several messages
",
    ),
    ShowRow(
        "x",
        Shelf::Holds(
            "x",
            b"interface i { typedef struct { uint8 a; uint64 b[600]; uint8 c; } s; }",
        ),
        2,
        b"",
        b"\
E17 at 66
x:1:67: this type has 4816 bytes, where 4096 are the most
    terface i { typedef struct { uint8 a; uint64 b[600]; uint8 c; } s; }
                                                                    ^
help: use smaller bounds, or several messages
",
    ),
    ShowRow(
        "x",
        Shelf::Holds(
            "x",
            b"interface i { typedef uint8 a[1]; typedef a b[1]; typedef b c[1]; typedef c d[1]; \
              typedef d e[1]; typedef e f[1]; typedef f g[1]; typedef g h[1]; }",
        ),
        2,
        b"",
        b"\
E17 at 140
x:1:141: fixed arrays nest 8 deep in this type, where 7 is the most
    d[1]; typedef d e[1]; typedef e f[1]; typedef f g[1]; typedef g h[1]; }
                                                                    ^
help: use smaller bounds, or several messages
",
    ),
    ShowRow(
        "x",
        Shelf::Holds(
            "x",
            b"interface i { rpc ffffffffffffffffffffffffffffffffffffffffffffffffffffffff(); }",
        ),
        2,
        b"",
        b"\
E19 at 18
x:1:19: this rpc's name has 56 bytes, where 55 are the most
    interface i { rpc ffffffffffffffffffffffffffffffffffffffff
                      ^
help: split the interface; the name of an rpc has at most 55 bytes
",
    ),
    ShowRow(
        "x",
        Shelf::Holds(
            "x",
            b"interface i { message m(uint8 a0, uint8 a1, uint8 a2, uint8 a3, uint8 a4, uint8 a5, uint8 a6, \
              uint8 a7, uint8 a8, uint8 a9, uint8 a10, uint8 a11, uint8 a12, uint8 a13, uint8 a14, \
              uint8 a15, uint8 a16, uint8 a17, uint8 a18, uint8 a19, uint8 a20, uint8 a21, uint8 a22, \
              uint8 a23, uint8 a24, uint8 a25, uint8 a26, uint8 a27, uint8 a28, uint8 a29, uint8 a30, \
              uint8 a31, uint8 a32); }",
        ),
        2,
        b"",
        b"\
E19 at 372
x:1:373: this is one too many: there may be 32 fields or arguments at most
    6, uint8 a27, uint8 a28, uint8 a29, uint8 a30, uint8 a31, uint8 a32); }
                                                                    ^
help: split the interface; the name of an rpc has at most 55 bytes
",
    ),
    ShowRow(
        "x",
        Shelf::Holds(
            "x",
            b"interface i { typedef uint8 t[1024]; rpc f(in uint8 a, out uint8 b, in t x[n, 4096]); }",
        ),
        2,
        b"",
        b"\
E21 at 41
x:1:42: this message's payload may have 4194320 bytes, where 32768 are the most
    interface i { typedef uint8 t[1024]; rpc f(in uint8 a, out uint8 b, in t x[n, 409
                                             ^
help: use smaller bounds, or several messages
",
    ),
    ShowRow(
        "x",
        Shelf::Holds("x", b"interface i { typedef uint8 t[0]; }"),
        2,
        b"",
        b"\
E16 at 30
x:1:31: a count is 1 to 1,024
    interface i { typedef uint8 t[0]; }
                                  ^
help: write a count from 1 to 1024, or use a sized array
",
    ),
    ShowRow(
        "x",
        Shelf::Holds("x", b"interface i { message m(string s[5000]); }"),
        2,
        b"",
        b"\
E20 at 33
x:1:34: a bound is 1 to 4,096
    interface i { message m(string s[5000]); }
                                     ^
help: write a bound from 1 to 4096
",
    ),
];

impl ProgramCase for ShowRow {
    fn holds(&self, alloc: Global) -> Result<bool, Fail> {
        Ok(show(alloc, self.0, false, self.1).is(self.2, self.3, self.4))
    }
}

const NAMED: &[u8] = b"\
interface i plan 2
message 0 f_call least 16 greatest 2063 fragments 37
arg 0 at 0 fixed 1 on
arg 1 at 8 string max 2047 text
message 1 f_response least 4 greatest 4 fragments 1
arg 0 at 0 fixed 4 err
message 2 none least 0 greatest 0 fragments 1
";

// The call has the arguments of its direction, and the response the others.
#[test]
fn names_of_arguments(rt: HostRuntime) {
    let shelf = Shelf::Holds(
        "x",
        b"interface i { rpc f(in bool on, out uint32 err, in string text); message none(); }",
    );
    assert!(rt; show(rt.alloc(), "x", true, shelf).is(0, NAMED, b""));
}

// A name has no line end where it is printed, and moves no cursor.
#[test]
fn names_of_files(rt: HostRuntime) {
    let file = "a\n\u{1b}b.if";
    let unread = show(
        rt.alloc(),
        file,
        false,
        Shelf::Fails(io::ErrorKind::NotFound),
    );
    assert!(rt; unread.status == 4);
    assert!(rt; unread.err.starts_with(b"a\\n\\u{1b}b.if could not be read"));
}

const UNREAD: Shelf = Shelf::Fails(io::ErrorKind::Other);

// Reading the file, its content, writing: the file that is named, that which is there, how many bytes standard output takes,
// and the status.
struct First(&'static str, Shelf, usize, u8);

const FIRST_FAULTS: &[First] = &[
    First("cap.if", UNREAD, 0, 4),
    First("cap.if", MIXED, 0, 4),
    First("cap.if", Shelf::Fails(io::ErrorKind::OutOfMemory), 0, 3),
    First("cap.if", REFUSED, 0, 2),
    First("mixed.if", MIXED, 0, 4),
    First("mixed.if", MIXED, 1, 4),
    First("mixed.if", MIXED, 131, 4),
    First("mixed.if", MIXED, 132, 0),
];

impl ProgramCase for First {
    fn holds(&self, alloc: Global) -> Result<bool, Fail> {
        let mut errors = Vec::new(alloc);
        let status = show_into(
            alloc,
            self.0,
            false,
            self.1,
            Narrow(self.2, io::ErrorKind::Other),
            &mut errors,
        );
        Ok(status == self.3 && errors.is_empty() == (self.3 == 0))
    }
}

#[test]
fn texts_are_shown(rt: HostRuntime) -> Result<(), Fail> {
    all_hold(rt.alloc(), "tables", TABLE)?;
    all_hold(rt.alloc(), "refused texts", TOLD)?;
    all_hold(rt.alloc(), "causes", CAUSES)?;
    all_hold(rt.alloc(), "texts of no language", NO_TEXTS)?;
    all_hold(rt.alloc(), "first faults", FIRST_FAULTS)
}
