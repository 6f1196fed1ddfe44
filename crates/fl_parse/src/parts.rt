//! Reading fields, arguments and lists: what declarations are made of.

ghost use Rattle.std.specs.Prelude.{◌≡◌, IfOk, IfErr, map, option_map};
ghost use Rattle.fl_lex.specs.Token.{token_of};
ghost use Rattle.fl_parse.specs.Tree.{name_of, number_of, field_of, shape_of, argument_of, directed_of};
ghost use Rattle.fl_parse.specs.Grammar.{is_mark, direction_in, inside_in};
ghost use Rattle.fl_parse.specs.Parts.{inside_of};
ghost use Rattle.fl_parse.specs.Reading.{Gives, one_at, optional_at, count_at, field_at, fields_at, all_members_at, bound_at, shape_at, argument_at};
ghost use Rattle.fl_parse.specs.Reading.{Fails, directed_at, arguments_at, all_directed_at};
ghost use Rattle.fl_parse.specs.Taken.{Took};

use crate::reading::{begins_with, mark, name, number, spells};
use crate::stop::ParseStop;
use crate::tree::{Argument, DirectedArgument, Direction, Field, Name, Number, Shape};
use fl_lex::{Mark, Token, TokenKind};
use std::alloc::Global;

/// Takes `[NUMBER]`, which may be missing.
#[tactic(auto, unfolding(crate::specs::Reading::count_at))]
pub fn count<'t, 'a>(
    tokens: &'t [Token<'a>],
) -> Result<(Option<Number>, &'t [Token<'a>]), ParseStop<'t, 'a>>
    ensures reads { Gives (λ x. (option_map number_of x.0, map token_of x.1.now)) result
        (optional_at (λ token. is_mark token Mark.OpenBracket) count_at (map token_of tokens.now)) }
{
    if !begins_with(tokens, Mark::OpenBracket) {
        return Ok((None, tokens));
    }
    let rest = mark(tokens, Mark::OpenBracket)?;
    let (value, rest) = number(rest)?;
    let rest = mark(rest, Mark::CloseBracket)?;
    Ok((Some(value), rest))
}

/// Takes `OLD NAME;` or `OLD NAME[COUNT];`.
#[tactic(auto, unfolding(crate::specs::Reading::field_at))]
fn field<'t, 'a>(tokens: &'t [Token<'a>]) -> Result<(Field<'a>, &'t [Token<'a>]), ParseStop<'t, 'a>>
    ensures reads { Gives (λ x. (field_of x.0, map token_of x.1.now)) result (field_at (map token_of tokens.now)) }
{
    let (type_name, rest) = name(tokens)?;
    let (field_name, rest) = name(rest)?;
    let (size, rest) = count(rest)?;
    let rest = mark(rest, Mark::Semicolon)?;
    Ok((
        Field {
            type_name,
            name: field_name,
            count: size,
        },
        rest,
    ))
}

/// Takes `, NUMBER`, which may be missing.
#[tactic(auto, unfolding(crate::specs::Reading::bound_at))]
fn bound<'t, 'a>(
    tokens: &'t [Token<'a>],
) -> Result<(Option<Number>, &'t [Token<'a>]), ParseStop<'t, 'a>>
    ensures reads { Gives (λ x. (option_map number_of x.0, map token_of x.1.now)) result
        (optional_at (λ token. is_mark token Mark.Comma) bound_at (map token_of tokens.now)) }
{
    if !begins_with(tokens, Mark::Comma) {
        return Ok((None, tokens));
    }
    let rest = mark(tokens, Mark::Comma)?;
    let (value, rest) = number(rest)?;
    Ok((Some(value), rest))
}

/// What stands first between an argument's brackets.
#[derive(Clone, Copy)]
pub enum BracketStart<'a> {
    Bound(Number),
    Length(Name<'a>),
}

/// Takes a number where the type is `string`, or the name of a length.
fn first_inside<'t, 'a>(
    type_name: Name<'a>,
    tokens: &'t [Token<'a>],
) -> Result<(BracketStart<'a>, &'t [Token<'a>]), ParseStop<'t, 'a>>
    ensures reads { Gives (λ x. (inside_of x.0, map token_of x.1.now)) result
        (one_at (inside_in (name_of type_name.entry)) (map token_of tokens.now)) }
{
    let [first, rest @ ..] = tokens else {
        return Err(ParseStop::Unexpected(tokens));
    };
    match first.kind {
        TokenKind::Number(value) if type_name.text == b"string".as_slice() => {
            Ok((
                BracketStart::Bound(Number {
                    value,
                    at: first.at,
                }),
                rest,
            ))
        }
        TokenKind::Word => Ok((
            BracketStart::Length(Name {
                text: first.text,
                at: first.at,
            }),
            rest,
        )),
        _ => Err(ParseStop::Unexpected(tokens)),
    }
}

/// Takes what stands behind an argument's name: nothing, `[NUMBER]` of a string, `[LENGTH]` or
/// `[LENGTH, BOUND]`.
#[tactic(auto, unfolding(crate::specs::Reading::shape_at, crate::specs::Reading::bracket_at, crate::specs::Reading::in_brackets_at))]
fn shape<'t, 'a>(
    type_name: Name<'a>,
    tokens: &'t [Token<'a>],
) -> Result<(Shape<'a>, &'t [Token<'a>]), ParseStop<'t, 'a>>
    ensures reads { Gives (λ x. (shape_of x.0, map token_of x.1.now)) result
        (shape_at (name_of type_name.entry) (map token_of tokens.now)) }
{
    if !begins_with(tokens, Mark::OpenBracket) {
        return Ok((Shape::Plain, tokens));
    }
    let rest = mark(tokens, Mark::OpenBracket)?;
    match first_inside(type_name, rest)? {
        (BracketStart::Bound(value), rest) => {
            let rest = mark(rest, Mark::CloseBracket)?;
            Ok((Shape::Bounded(value), rest))
        }
        (BracketStart::Length(length), rest) => {
            let (most, rest) = bound(rest)?;
            let rest = mark(rest, Mark::CloseBracket)?;
            Ok((
                Shape::Sized {
                    length,
                    bound: most,
                },
                rest,
            ))
        }
    }
}

/// Takes a message's argument.
#[tactic(auto, unfolding(crate::specs::Reading::argument_at))]
fn argument<'t, 'a>(
    tokens: &'t [Token<'a>],
) -> Result<(Argument<'a>, &'t [Token<'a>]), ParseStop<'t, 'a>>
    ensures reads { Gives (λ x. (argument_of x.0, map token_of x.1.now)) result (argument_at (map token_of tokens.now)) }
{
    let (type_name, rest) = name(tokens)?;
    let (argument_name, rest) = name(rest)?;
    let (found, rest) = shape(type_name, rest)?;
    Ok((
        Argument {
            type_name,
            name: argument_name,
            shape: found,
        },
        rest,
    ))
}

/// Takes `in` or `out`.
fn direction<'t, 'a>(
    tokens: &'t [Token<'a>],
) -> Result<(Direction, &'t [Token<'a>]), ParseStop<'t, 'a>>
    ensures reads { Gives (λ x. (x.0, map token_of x.1.now)) result (one_at direction_in (map token_of tokens.now)) }
{
    match tokens {
        [first, rest @ ..] if spells(first, b"in") => Ok((Direction::In, rest)),
        [first, rest @ ..] if spells(first, b"out") => Ok((Direction::Out, rest)),
        _ => Err(ParseStop::Unexpected(tokens)),
    }
}

/// Takes an rpc's argument.
#[tactic(auto, unfolding(crate::specs::Reading::directed_at))]
fn directed_argument<'t, 'a>(
    tokens: &'t [Token<'a>],
) -> Result<(DirectedArgument<'a>, &'t [Token<'a>]), ParseStop<'t, 'a>>
    ensures reads { Gives (λ x. (directed_of x.0, map token_of x.1.now)) result (directed_at (map token_of tokens.now)) }
{
    let (way, rest) = direction(tokens)?;
    let (found, rest) = argument(rest)?;
    Ok((
        DirectedArgument {
            direction: way,
            argument: found,
        },
        rest,
    ))
}

/// Takes the names of an enum, up to the closing brace.
pub fn members<'t, 'a>(
    alloc: Global,
    tokens: &'t [Token<'a>],
) -> Result<(Vec<Name<'a>>, &'t [Token<'a>]), ParseStop<'t, 'a>>
    ensures reads { Gives (λ x. (map name_of x.0.items, map token_of x.1.now)) result
        (all_members_at (map token_of tokens.now)) }
{
    let mut members = Vec::new(alloc);
    let (_, mut rest) = tokens.split_at(0);
    while !begins_with(rest, Mark::CloseBrace) {
        let (member, after) = name(rest)?;
        members.push(member)?;
        if !begins_with(after, Mark::Comma) {
            return Ok((members, after));
        }
        rest = mark(after, Mark::Comma)?;
    }
    Ok((members, rest))
}

/// Takes the fields of a struct, up to the closing brace.
pub fn fields<'t, 'a>(
    alloc: Global,
    tokens: &'t [Token<'a>],
) -> Result<(Vec<Field<'a>>, &'t [Token<'a>]), ParseStop<'t, 'a>>
    ensures reads { Gives (λ x. (map field_of x.0.items, map token_of x.1.now)) result
        (fields_at (map token_of tokens.now)) }
{
    let mut fields = Vec::new(alloc);
    let (_, mut rest) = tokens.split_at(0);
    while !begins_with(rest, Mark::CloseBrace) {
        let (next, after) = field(rest)?;
        fields.push(next)?;
        rest = after;
    }
    Ok((fields, rest))
}

/// Takes one more argument of a message.
fn next_argument<'t, 'a>(
    arguments: &mut Vec<Argument<'a>>,
    tokens: &'t [Token<'a>],
) -> Result<&'t [Token<'a>], ParseStop<'t, 'a>>
    ensures takes { IfOk result (λ rest. Took (argument_at (map token_of tokens.now)) (map argument_of arguments.old.items)
        (map argument_of arguments.new.items) (map token_of rest.now)) }
    ensures refusal { IfErr result (λ stop. Fails stop (argument_at (map token_of tokens.now))) }
{
    let (next, rest) = argument(tokens)?;
    arguments.push(next)?;
    Ok(rest)
}

/// Takes a message's arguments, up to the closing parenthesis.
pub fn arguments<'t, 'a>(
    alloc: Global,
    tokens: &'t [Token<'a>],
) -> Result<(Vec<Argument<'a>>, &'t [Token<'a>]), ParseStop<'t, 'a>>
    ensures reads { Gives (λ x. (map argument_of x.0.items, map token_of x.1.now)) result
        (arguments_at (map token_of tokens.now)) }
{
    let mut arguments = Vec::new(alloc);
    if begins_with(tokens, Mark::CloseParen) {
        return Ok((arguments, tokens));
    }
    let mut rest = next_argument(&mut arguments, tokens)?;
    while !begins_with(rest, Mark::CloseParen) {
        let after_comma = mark(rest, Mark::Comma)?;
        rest = next_argument(&mut arguments, after_comma)?;
    }
    Ok((arguments, rest))
}

/// Takes one more argument of an rpc.
fn next_directed<'t, 'a>(
    arguments: &mut Vec<DirectedArgument<'a>>,
    tokens: &'t [Token<'a>],
) -> Result<&'t [Token<'a>], ParseStop<'t, 'a>>
    ensures takes { IfOk result (λ rest. Took (directed_at (map token_of tokens.now)) (map directed_of arguments.old.items)
        (map directed_of arguments.new.items) (map token_of rest.now)) }
    ensures refusal { IfErr result (λ stop. Fails stop (directed_at (map token_of tokens.now))) }
{
    let (next, rest) = directed_argument(tokens)?;
    arguments.push(next)?;
    Ok(rest)
}

/// Takes an rpc's arguments, up to the closing parenthesis.
pub fn directed_arguments<'t, 'a>(
    alloc: Global,
    tokens: &'t [Token<'a>],
) -> Result<(Vec<DirectedArgument<'a>>, &'t [Token<'a>]), ParseStop<'t, 'a>>
    ensures reads { Gives (λ x. (map directed_of x.0.items, map token_of x.1.now)) result
        (all_directed_at (map token_of tokens.now)) }
{
    let mut arguments = Vec::new(alloc);
    if begins_with(tokens, Mark::CloseParen) {
        return Ok((arguments, tokens));
    }
    let mut rest = next_directed(&mut arguments, tokens)?;
    while !begins_with(rest, Mark::CloseParen) {
        let after_comma = mark(rest, Mark::Comma)?;
        rest = next_directed(&mut arguments, after_comma)?;
    }
    Ok((arguments, rest))
}
