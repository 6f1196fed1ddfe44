//! Reading single tokens, the first of those that are left.

ghost use Rattle.std.specs.Prelude.{◌≡◌, map, codes, IfErr};
ghost use Rattle.fl_lex.specs.Token.{token_of};
ghost use Rattle.fl_parse.specs.Tree.{name_of, number_of};
ghost use Rattle.fl_parse.specs.Grammar.{is_word, is_mark, name_in, number_in};
ghost use Rattle.fl_parse.specs.Reading.{Gives, IsUnexpected, begins, mark_at, one_at};

use crate::stop::ParseStop;
use crate::tree::{Name, Number};
use fl_lex::{Mark, Token, TokenKind};

/// Whether the token is this mark.
pub fn is(token: &Token, mark: Mark) -> bool
    ensures exact { result ≡ is_mark (token_of token.now) mark }
{
    token.kind == TokenKind::Mark(mark)
}

/// Whether the token is this word.
pub fn spells(token: &Token, word: &[u8]) -> bool
    ensures exact { result ≡ is_word (token_of token.now) word.now }
{
    token.kind == TokenKind::Word && token.text == word
}

/// Whether the first token is this mark.
pub fn begins_with(tokens: &[Token], mark: Mark) -> bool
    ensures exact { result ≡ begins (λ token. is_mark token mark) (map token_of tokens.now) }
{
    match tokens {
        [first, ..] => is(first, mark),
        [] => false,
    }
}

/// Takes this mark.
pub fn mark<'t, 'a>(
    tokens: &'t [Token<'a>],
    mark: Mark,
) -> Result<&'t [Token<'a>], ParseStop<'t, 'a>>
    ensures reads { Gives (λ x. (tt, map token_of x.now)) result (mark_at mark (map token_of tokens.now)) }
    ensures refusal { IfErr result IsUnexpected }
{
    match tokens {
        [first, rest @ ..] if is(first, mark) => Ok(rest),
        _ => Err(ParseStop::Unexpected(tokens)),
    }
}

/// Takes a word as a name.
pub fn name<'t, 'a>(
    tokens: &'t [Token<'a>],
) -> Result<(Name<'a>, &'t [Token<'a>]), ParseStop<'t, 'a>>
    ensures reads { Gives (λ x. (name_of x.0, map token_of x.1.now)) result (one_at name_in (map token_of tokens.now)) }
    ensures refusal { IfErr result IsUnexpected }
{
    let [first, rest @ ..] = tokens else {
        return Err(ParseStop::Unexpected(tokens));
    };
    match first.kind {
        TokenKind::Word => Ok((
            Name {
                text: first.text,
                at: first.at,
            },
            rest,
        )),
        _ => Err(ParseStop::Unexpected(tokens)),
    }
}

/// Takes a number.
pub fn number<'t, 'a>(
    tokens: &'t [Token<'a>],
) -> Result<(Number, &'t [Token<'a>]), ParseStop<'t, 'a>>
    ensures reads { Gives (λ x. (number_of x.0, map token_of x.1.now)) result (one_at number_in (map token_of tokens.now)) }
{
    let [first, rest @ ..] = tokens else {
        return Err(ParseStop::Unexpected(tokens));
    };
    match first.kind {
        TokenKind::Number(value) => Ok((
            Number {
                value,
                at: first.at,
            },
            rest,
        )),
        _ => Err(ParseStop::Unexpected(tokens)),
    }
}
