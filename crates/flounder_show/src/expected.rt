//! What could stand at the first token that begins no interface: each kind of token is tried there.

use fl_lex::{Mark, Token, TokenKind, Tokens, lex};
use fl_parse::{ParseFault, parse};
use std::alloc::Global;
use std::fmt;

/// A token that could stand somewhere, and its words.
struct Candidate {
    kind: TokenKind,
    text: &'static [u8],
    words: &'static str,
}

const CANDIDATES: &[Candidate] = &[
    Candidate {
        kind: TokenKind::Word,
        text: b"x",
        words: "a name",
    },
    Candidate {
        kind: TokenKind::Number(1),
        text: b"1",
        words: "a number",
    },
    Candidate {
        kind: TokenKind::Description,
        text: b"\"\"",
        words: "a description",
    },
    Candidate {
        kind: TokenKind::Mark(Mark::OpenBrace),
        text: b"{",
        words: "`{`",
    },
    Candidate {
        kind: TokenKind::Mark(Mark::CloseBrace),
        text: b"}",
        words: "`}`",
    },
    Candidate {
        kind: TokenKind::Mark(Mark::OpenParen),
        text: b"(",
        words: "`(`",
    },
    Candidate {
        kind: TokenKind::Mark(Mark::CloseParen),
        text: b")",
        words: "`)`",
    },
    Candidate {
        kind: TokenKind::Mark(Mark::OpenBracket),
        text: b"[",
        words: "`[`",
    },
    Candidate {
        kind: TokenKind::Mark(Mark::CloseBracket),
        text: b"]",
        words: "`]`",
    },
    Candidate {
        kind: TokenKind::Mark(Mark::Comma),
        text: b",",
        words: "`,`",
    },
    Candidate {
        kind: TokenKind::Mark(Mark::Semicolon),
        text: b";",
        words: "`;`",
    },
    Candidate {
        kind: TokenKind::Word,
        text: b"interface",
        words: "`interface`",
    },
    Candidate {
        kind: TokenKind::Word,
        text: b"alias",
        words: "`alias`",
    },
    Candidate {
        kind: TokenKind::Word,
        text: b"typedef",
        words: "`typedef`",
    },
    Candidate {
        kind: TokenKind::Word,
        text: b"message",
        words: "`message`",
    },
    Candidate {
        kind: TokenKind::Word,
        text: b"call",
        words: "`call`",
    },
    Candidate {
        kind: TokenKind::Word,
        text: b"response",
        words: "`response`",
    },
    Candidate {
        kind: TokenKind::Word,
        text: b"rpc",
        words: "`rpc`",
    },
    Candidate {
        kind: TokenKind::Word,
        text: b"in",
        words: "`in`",
    },
    Candidate {
        kind: TokenKind::Word,
        text: b"out",
        words: "`out`",
    },
];

/// What could stand at a place: at least one kind of token. It is printed as "`;`, `[` or a name".
#[derive(Clone, Copy)]
pub struct Expected {
    // A bit for each candidate that could, the first the lowest.
    fits: u32,
}

// What stands before a thing behind so many others, of so many.
fn between(told: u32, all: u32) -> &'static str {
    if told == 0 {
        ""
    } else if told.saturating_add(1) == all {
        " or "
    } else {
        ", "
    }
}

// Tells of each candidate whose bit is set.
fn tell_each<W: fmt::Write>(fits: u32, f: &mut fmt::Formatter<W>) -> fmt::Result {
    let all = fits.count_ones();
    let mut told = 0u32;
    let mut bit = 1u32;
    for candidate in CANDIDATES.iter() {
        if fits & bit != 0 {
            write!(f, "{}{}", between(told, all), candidate.words)?;
            told = told.saturating_add(1);
        }
        bit = bit.rotate_left(1);
    }
    Ok(())
}

impl fmt::Display for Expected {
    fn fmt<W: fmt::Write>(&self, f: &mut fmt::Formatter<W>) -> fmt::Result {
        tell_each(self.fits, f)
    }
}

// Whether an interface goes on behind these tokens, or ends there, if memory isn't refused. The last of them
// stands at `usize::MAX`.
fn goes_on(alloc: Global, tokens: &Tokens<'_>) -> Option<bool> {
    match parse(alloc, tokens) {
        Ok(_) => Some(true),
        Err(ParseFault::NotExpected(at)) => Some(at == tokens.end),
        Err(ParseFault::AfterInterface(_)) => Some(false),
        Err(ParseFault::Memory) => None,
    }
}

// Whether a token could stand behind these, if memory isn't refused.
fn fits(alloc: Global, tokens: &mut Tokens<'_>, candidate: &Candidate) -> Option<bool> {
    let token = Token::new(candidate.kind, candidate.text, usize::MAX - 1)?;
    if tokens.items.push(token).is_err() {
        return None;
    }
    let found = goes_on(alloc, tokens);
    let _candidate = tokens.items.pop();
    found
}

// What could stand behind these tokens, if memory isn't refused.
fn expected_behind(alloc: Global, tokens: &mut Tokens<'_>) -> Option<Expected> {
    let mut found = 0u32;
    let mut bit = 1u32;
    for candidate in CANDIDATES.iter() {
        // Where a name, the first candidate, could stand, each word could.
        let is_told = candidate.kind == TokenKind::Word && found & 1 != 0;
        if !is_told && fits(alloc, tokens, candidate)? {
            found |= bit;
        }
        bit = bit.rotate_left(1);
    }
    Some(Expected { fits: found })
}

// So many tokens stand before a place.
fn count_before(tokens: &[Token<'_>], offset: usize) -> usize {
    let mut count: usize = 0;
    for token in tokens {
        if token.at < offset {
            count = count.saturating_add(1);
        }
    }
    count
}

/// What could stand at this place of a text, of which the tokens before begin an interface, if memory isn't
/// refused.
pub(crate) fn expected_at(alloc: Global, text: &[u8], offset: usize) -> Option<Expected> {
    let Ok(mut tokens) = lex(alloc, text) else {
        return None;
    };
    let before = count_before(&tokens.items, offset);
    tokens.items.truncate(before);
    tokens.end = usize::MAX;
    expected_behind(alloc, &mut tokens)
}
