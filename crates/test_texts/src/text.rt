//! What each text is refused for and where, or that it is accepted; tokens, and printed texts.

use crate::interfaces::interface;
use crate::rows::{TextCase, all_hold};
use fl_interface::Interface;
use fl_lex::{MAX_TEXT, Mark, TokenKind, Tokens, lex};
use fl_parse::{parse, print};
use std::alloc::Global;
use std::test::Fail;

// The number and offset of a text's fault; none where the text is accepted.
fn fault(alloc: Global, text: &[u8]) -> Option<(u8, Option<usize>)> {
    match interface(alloc, text) {
        Ok(_) => None,
        Err(fault) => Some((fault.number(), fault.offset())),
    }
}

// A text, and the number and the offset of its fault.
struct FaultyText(&'static [u8], u8, usize);

impl TextCase for FaultyText {
    fn holds(&self, alloc: Global) -> Result<bool, Fail> {
        Ok(fault(alloc, self.0) == Some((self.1, Some(self.2))))
    }
}

// Faults of bytes.
const NO_TOKENS: &[FaultyText] = &[
    FaultyText(b"a / b", 1, 2),
    FaultyText(b"a /", 1, 2),
    FaultyText(b"a\x80", 1, 1),
    FaultyText(b"a\x00", 1, 1),
    FaultyText(b"a//b\x80\n\x80", 1, 6),
    FaultyText(b"interface i { /* }", 2, 14),
    FaultyText(b"/*/", 2, 0),
    FaultyText(b"// /* \n /*", 2, 8),
    FaultyText(b"/**", 2, 0),
    FaultyText(b"/*/ */ /*", 2, 7),
    FaultyText(b"/* * /", 2, 0),
    FaultyText(b"x \"abc", 3, 2),
    FaultyText(b"\"a\nb\"", 3, 0),
    FaultyText(b"\"a\"\"", 3, 3),
    FaultyText(b"\"a\\\" b\"", 3, 6),
    FaultyText(b"4x 1000001y", 5, 3),
    FaultyText(b"00001000001", 5, 0),
    FaultyText(b"99999999999999999999999999", 5, 0),
    // the first fault of two
    FaultyText(b"1000001 - \"", 5, 0),
    FaultyText(b"\"open\n 1000001", 3, 0),
    FaultyText(b"- /*", 1, 0),
    FaultyText(b"\"/*\" /*", 2, 5),
];

// Faults of tokens.
const NO_TREES: &[FaultyText] = &[
    FaultyText(b"interface i { } ; x", 8, 18),
    FaultyText(b"interface i {", 7, 13),
    FaultyText(b"interface i { } x", 8, 16),
    FaultyText(b"interface i { } ; ;", 8, 18),
    FaultyText(b"interfaces i { }", 7, 0),
    FaultyText(b"interface 7 { }", 7, 10),
    FaultyText(b"interface i \"d\" \"e\" { }", 7, 16),
    FaultyText(b"interface i { ;", 7, 14),
    FaultyText(b"interface i { Alias u v ; }", 7, 14),
    FaultyText(b"interface i { alias u ; }", 7, 22),
    FaultyText(b"interface i { typedef enum t ; }", 7, 27),
    FaultyText(b"interface i { typedef enum { , } c ; }", 7, 29),
    FaultyText(b"interface i { typedef enum { a , , } c ; }", 7, 33),
    FaultyText(b"interface i { typedef struct { u a , } t ; }", 7, 35),
    FaultyText(b"interface i { typedef u t [ n ] ; }", 7, 28),
    FaultyText(b"interface i { message m ( u x , ) ; }", 7, 32),
    FaultyText(b"interface i { message m ( u x [ 4 ] ) ; }", 7, 32),
    FaultyText(b"interface i { message m ( string s [ 4 , 5 ] ) ; }", 7, 39),
    FaultyText(b"interface i { message m ( u x [ n , m ] ) ; }", 7, 36),
    FaultyText(b"interface i { rpc f ( u x ) ; }", 7, 22),
    FaultyText(b"interface i { call q (", 7, 22),
    // a number ends before a letter
    FaultyText(b"interface i { typedef u t[4x]; }", 7, 27),
    // the places of tokens behind comments, and the text's end
    FaultyText(b"// interface\ninterface i {} /* ; */ ;; ", 8, 37),
    FaultyText(b"interface i{ // }", 7, 17),
    FaultyText(b"", 7, 0),
    FaultyText(b" \t\n", 7, 3),
    // the bytes come before the tokens, and the first token at fault before later ones
    FaultyText(b"interface i { ; - }", 1, 16),
    FaultyText(b"interface i { } x \"open", 3, 18),
    FaultyText(b"interface i { alias u; call (); }", 7, 21),
    FaultyText(b"interface i { message m(u x[4]); } x", 7, 28),
    FaultyText(b"interface i { } ; ; -", 1, 20),
];

// Faults of declarations.
const REFUSED: &[FaultyText] = &[
    // E10: a built-in name, whatever else is wrong there
    FaultyText(b"interface i { alias uint8 uint16; }", 10, 20),
    FaultyText(b"interface i { alias give_away_cap nope; }", 10, 20),
    FaultyText(
        b"interface i { alias u uint8; typedef enum { } u; }",
        10,
        46,
    ),
    // E11
    FaultyText(b"interface i { alias u v; }", 11, 22),
    FaultyText(b"interface i { message m(t x); alias t uint8; }", 11, 24),
    FaultyText(b"interface i { typedef struct { t a; } t; }", 11, 31),
    FaultyText(b"interface i { message m(u x, cap c, nope y); }", 11, 24),
    FaultyText(b"interface i { typedef nope uint8[0]; }", 11, 22),
    // E12: one of an rpc's two names, too
    FaultyText(b"interface i { call m(); message m(cap c); }", 12, 32),
    FaultyText(b"interface i { message f_response(); rpc f(); }", 12, 40),
    FaultyText(b"interface i { rpc f(); response f_call(); }", 12, 32),
    // E13: a length's name, too
    FaultyText(
        b"interface i { typedef struct { uint8 a; uint8 a; } t; }",
        13,
        46,
    ),
    FaultyText(b"interface i { typedef enum { a, b, a } e; }", 13, 35),
    FaultyText(b"interface i { message m(uint8 n[n]); }", 13, 32),
    FaultyText(b"interface i { rpc f(in uint8 x, out uint8 x); }", 13, 42),
    // E14
    FaultyText(b"interface i { message m(cap c); }", 14, 24),
    FaultyText(b"interface i { rpc f(in cap c); }", 14, 23),
    FaultyText(b"interface i { typedef give_away_cap c; }", 14, 22),
    // E15
    FaultyText(b"interface i { typedef enum { } c; }", 15, 31),
    FaultyText(b"interface i { typedef struct { } c; }", 15, 33),
    // E16, before the whole type's E17
    FaultyText(b"interface i { typedef uint8 t[0]; }", 16, 30),
    FaultyText(b"interface i { typedef uint64 t[1025]; }", 16, 31),
    FaultyText(
        b"interface i { typedef struct { uint8 a[1025]; } t; }",
        16,
        39,
    ),
    // E17: 4,097 bytes, and 4,104
    FaultyText(
        b"interface i { typedef uint8 k[1024]; typedef struct { k a[4]; uint8 b; } t; }",
        17,
        73,
    ),
    FaultyText(b"interface i { typedef uint64 t[513]; }", 17, 29),
    // E18
    FaultyText(b"interface i { message m(string s[n, 4]); }", 18, 24),
    FaultyText(b"interface i { alias s string; }", 18, 22),
    // E19: an rpc's name of 56 bytes
    FaultyText(
        b"interface i { rpc a123456789b123456789c123456789d123456789e123456789f12345(); }",
        19,
        18,
    ),
    // E20
    FaultyText(b"interface i { message m(string s[4097]); }", 20, 33),
    FaultyText(b"interface i { message m(string s[0]); }", 20, 33),
    FaultyText(b"interface i { message m(uint8 s[n, 4097]); }", 20, 35),
    // E21, after the parts; for an rpc in either half
    FaultyText(b"interface i { message m(uint64 x[n, 4096]); }", 21, 22),
    FaultyText(
        b"interface i { rpc f(in uint8 a, out uint64 x[n, 4096]); }",
        21,
        18,
    ),
    FaultyText(
        b"interface i { message m(uint64 x[n, 4096], cap c); }",
        14,
        43,
    ),
];

const ACCEPTED: &[&[u8]] = &[
    b"interface i { typedef uint8 k[1024]; typedef struct { k a[4]; } t; }",
    b"interface i { rpc a123456789b123456789c123456789d123456789e123456789f1234(); message a123456789b123456789c123456789d123456789e123456789f1234(); }",
    b"interface i { message m(string s[4096], uint8 n[l, 4096], uint8 k[j, 1]); }",
    b"interface i { message m(uint64 x[n, 4095]); }",
    b"interface i { alias size_ size; alias i size_; message i(i i); }",
];

const LONG: &[u8] =
    b"interface i \"a \\ b\" { typedef enum { x, y, } c; alias u uint32; typedef struct { u a; c b[2]; } t; call q(t x); rpc f(in u x, out string s[9]); };";

const NAMES_OF_LONG: &[&[u8]] = &[b"q", b"f_call", b"f_response"];

// Whether an interface has messages of these names, and is the same as its copy, and another isn't.
fn is_long(alloc: Global, interface: &Interface, other: &Interface) -> Result<bool, Fail> {
    for (message, name) in interface.messages.iter().zip(NAMES_OF_LONG) {
        if message.name.bytes.as_slice() != *name {
            return Ok(false);
        }
    }
    let copy = interface.duplicate(alloc)?;
    Ok(interface.messages.len() == 3 && interface.same(&copy) && !interface.same(other))
}

// A byte so many times, and the fault's number and place.
struct Filled(u8, usize, u8, usize);

const FILLED: &[Filled] = &[
    // a word ends at 64 bytes, and a text at 65,536, before any other fault
    Filled(b'w', 65, 4, 0),
    Filled(b'-', MAX_TEXT + 1, 6, 65_536),
];

impl TextCase for Filled {
    fn holds(&self, alloc: Global) -> Result<bool, Fail> {
        let text = vec![in alloc; self.0; self.1]?;
        Ok(fault(alloc, &text) == Some((self.2, Some(self.3))))
    }
}

// What each token is, its place and its length.
const TOKENS: &[(TokenKind, usize, usize)] = &[
    (TokenKind::Word, 0, 5),
    (TokenKind::Description, 6, 7),
    (TokenKind::Mark(Mark::OpenBrace), 13, 1),
    (TokenKind::Mark(Mark::CloseBrace), 14, 1),
    (TokenKind::Mark(Mark::OpenParen), 15, 1),
    (TokenKind::Mark(Mark::CloseParen), 16, 1),
    (TokenKind::Mark(Mark::OpenBracket), 17, 1),
    (TokenKind::Mark(Mark::CloseBracket), 18, 1),
    (TokenKind::Mark(Mark::Comma), 19, 1),
    (TokenKind::Mark(Mark::Semicolon), 20, 1),
    (TokenKind::Number(4), 21, 1),
    (TokenKind::Word, 22, 1),
    (TokenKind::Number(7), 24, 3),
    (TokenKind::Number(1_000_000), 28, 7),
    (TokenKind::Word, 44, 1),
    (TokenKind::Word, 56, 1),
    (TokenKind::Description, 59, 4),
];

const TEXT: &[u8] =
    b"in_t9 \"a \\ b\"{}()[],;4x 007 1000000//\r[\n/**/y/* */ /***/_\t\x0b\"\xc3\xbc\"";

fn are_tokens(found: &Tokens<'_>, wanted: &[(TokenKind, usize, usize)]) -> bool {
    for (token, one) in found.items.iter().zip(wanted) {
        if (token.kind, token.at, token.text.len()) != *one {
            return false;
        }
    }
    found.items.len() == wanted.len() && found.end == TEXT.len()
}

// Whether the text's tree is printed so.
fn is_printed(alloc: Global, text: &[u8], wanted: &[u8]) -> Result<bool, Fail> {
    let tokens = lex(alloc, text)?;
    let tree = parse(alloc, &tokens)?;
    let printed = print(alloc, &tree)?;
    Ok(printed.as_slice() == wanted)
}

// A text, and its tree as it is printed, which is printed as it is.
struct PrintedText(&'static str, &'static str);

const PRINTED: &[PrintedText] = &[
    PrintedText("interface i { alias u v; }", "interface i{alias u v;}"),
    PrintedText(
        "interface i \"a \\ b\" { typedef enum { x, y, } c; alias u uint32; typedef struct { u a; c b[2]; } t; call q(t x); rpc f(in u x, out string s[9]); };",
        "interface i\"a \\ b\"{typedef enum{x,y}c;alias u uint32;typedef struct{u a;c b[2];}t;call q(t x);rpc f(in u x,out string s[9]);}",
    ),
    PrintedText(
        "interface i { typedef u t ; typedef t s [ 007 ] ; }",
        "interface i{typedef u t;typedef t s[7];}",
    ),
    PrintedText(
        "interface i { typedef enum { } c ; typedef struct { } s ; }",
        "interface i{typedef enum{}c;typedef struct{}s;}",
    ),
    PrintedText(
        "interface i { message m ( ) ; response r ( t x , string w [ n ] ) ; }",
        "interface i{message m();response r(t x,string w[n]);}",
    ),
    PrintedText(
        "interface i { rpc g ( ) ; rpc f ( in u x [ n , 1000000 ] , out string s ) ; }",
        "interface i{rpc g();rpc f(in u x[n,1000000],out string s);}",
    ),
    // no word is reserved
    PrintedText(
        "interface interface { alias alias enum ; message message ( in out ) ; rpc rpc ( in in in ) ; }",
        "interface interface{alias alias enum;message message(in out);rpc rpc(in in in);}",
    ),
    // shorter is none: nothing is taken away
    PrintedText(
        "interface i{response r(u x[n,7],string s);}",
        "interface i{response r(u x[n,7],string s);}",
    ),
];

impl TextCase for PrintedText {
    fn holds(&self, alloc: Global) -> Result<bool, Fail> {
        let wanted = self.1.as_bytes();
        Ok(is_printed(alloc, self.0.as_bytes(), wanted)? && is_printed(alloc, wanted, wanted)?)
    }
}

#[test]
fn refused_and_accepted(rt: HostRuntime) -> Result<(), Fail> {
    all_hold(rt.alloc(), "faults of bytes", NO_TOKENS)?;
    all_hold(rt.alloc(), "faults of tokens", NO_TREES)?;
    all_hold(rt.alloc(), "refused texts", REFUSED)?;
    all_hold(rt.alloc(), "one byte many times", FILLED)?;
    for text in ACCEPTED {
        assert!(rt; fault(rt.alloc(), text).is_none());
    }
    let long = interface(rt.alloc(), LONG)?;
    let other = interface(rt.alloc(), b"interface i { message q(uint8 x); }")?;
    assert!(rt; is_long(rt.alloc(), &long, &other)?);
    Ok(())
}

#[test]
fn tokens_and_printed_texts(rt: HostRuntime) -> Result<(), Fail> {
    let found = lex(rt.alloc(), TEXT)?;
    assert!(rt; are_tokens(&found, TOKENS));
    all_hold(rt.alloc(), "printed texts", PRINTED)
}
