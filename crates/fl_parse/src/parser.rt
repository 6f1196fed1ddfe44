//! The parser: it looks one token ahead and never goes back.

ghost use Rattle.std.specs.Prelude.{◌≡◌, map, option_map, codes, IfSome, IfErr};
ghost use Rattle.fl_lex.specs.Token.{token_of, tokens_of};
ghost use Rattle.fl_parse.specs.Tree.{name_of, declaration_of, tree_of};
ghost use Rattle.fl_parse.specs.Grammar.{opening_in, defined_in, HasHead, Parses};
ghost use Rattle.fl_parse.specs.Outcome.{outcome_of};
ghost use Rattle.fl_parse.specs.declared.stop.ParseStop.TheVariants.{Memory};
ghost use Rattle.fl_parse.specs.declared.fault.ParseFault.TheVariants.{Memory as NoMemory};
ghost use Rattle.fl_parse.specs.Parts.{opening_of, defined_of, stop_fault};
ghost use Rattle.fl_parse.specs.Reading.{Gives, IsUnexpected, one_at, word_at, alias_at, enumeration_at, structure_at, renaming_at, definition_at, typedef_at};
ghost use Rattle.fl_parse.specs.Reading.{message_at, rpc_at, production_at, declaration_at, declarations_at, description_at, body_at};
ghost use Rattle.fl_parse.specs.Reading.{behind_semicolon};

use crate::fault::ParseFault;
use crate::parts::{arguments, count, directed_arguments, fields, members};
use crate::reading::{begins_with, is, mark, name, spells};
use crate::stop::ParseStop;
use crate::tree::{Declaration, MessageKind, Name, Tree};
use fl_lex::{Mark, Token, TokenKind, Tokens};
use std::alloc::Global;

/// The word that begins a declaration.
#[derive(Clone, Copy)]
pub enum DeclarationWord {
    Alias,
    Typedef,
    Message(MessageKind),
    Rpc,
}

/// What stands behind `typedef`.
#[derive(Clone, Copy)]
pub enum TypedefWord<'a> {
    Enumeration,
    Structure,
    Type(Name<'a>),
}

/// Takes the word that begins a declaration.
fn take_opening<'t, 'a>(
    tokens: &'t [Token<'a>],
) -> Result<(DeclarationWord, &'t [Token<'a>]), ParseStop<'t, 'a>>
    ensures reads { Gives (λ x. (opening_of x.0, map token_of x.1.now)) result (one_at opening_in (map token_of tokens.now)) }
{
    let [first, rest @ ..] = tokens else {
        return Err(ParseStop::Unexpected(tokens));
    };
    if spells(first, b"alias") {
        Ok((DeclarationWord::Alias, rest))
    } else if spells(first, b"typedef") {
        Ok((DeclarationWord::Typedef, rest))
    } else if spells(first, b"message") {
        Ok((DeclarationWord::Message(MessageKind::Message), rest))
    } else if spells(first, b"call") {
        Ok((DeclarationWord::Message(MessageKind::Call), rest))
    } else if spells(first, b"response") {
        Ok((DeclarationWord::Message(MessageKind::Response), rest))
    } else if spells(first, b"rpc") {
        Ok((DeclarationWord::Rpc, rest))
    } else {
        Err(ParseStop::Unexpected(tokens))
    }
}

/// Takes the word behind `typedef`, where `enum` and `struct` are no type's name.
fn take_defined<'t, 'a>(
    tokens: &'t [Token<'a>],
) -> Result<(TypedefWord<'a>, &'t [Token<'a>]), ParseStop<'t, 'a>>
    ensures reads { Gives (λ x. (defined_of x.0, map token_of x.1.now)) result (one_at defined_in (map token_of tokens.now)) }
{
    let [first, rest @ ..] = tokens else {
        return Err(ParseStop::Unexpected(tokens));
    };
    if spells(first, b"enum") {
        return Ok((TypedefWord::Enumeration, rest));
    }
    if spells(first, b"struct") {
        return Ok((TypedefWord::Structure, rest));
    }
    match first.kind {
        TokenKind::Word => Ok((
            TypedefWord::Type(Name {
                text: first.text,
                at: first.at,
            }),
            rest,
        )),
        _ => Err(ParseStop::Unexpected(tokens)),
    }
}

/// `NEW OLD;`
#[tactic(auto, unfolding(crate::specs::Reading::alias_at))]
fn alias<'t, 'a>(
    tokens: &'t [Token<'a>],
) -> Result<(Declaration<'a>, &'t [Token<'a>]), ParseStop<'t, 'a>>
    ensures reads { Gives (λ x. (declaration_of x.0, map token_of x.1.now)) result (alias_at (map token_of tokens.now)) }
{
    let (new, rest) = name(tokens)?;
    let (old, rest) = name(rest)?;
    let rest = mark(rest, Mark::Semicolon)?;
    Ok((Declaration::Alias { new, old }, rest))
}

/// `{ MEMBERS } NEW;`
#[tactic(auto, unfolding(crate::specs::Reading::enumeration_at))]
fn enumeration<'t, 'a>(
    alloc: Global,
    tokens: &'t [Token<'a>],
) -> Result<(Declaration<'a>, &'t [Token<'a>]), ParseStop<'t, 'a>>
    ensures reads { Gives (λ x. (declaration_of x.0, map token_of x.1.now)) result (enumeration_at (map token_of tokens.now)) }
{
    let rest = mark(tokens, Mark::OpenBrace)?;
    let (found, rest) = members(alloc, rest)?;
    let rest = mark(rest, Mark::CloseBrace)?;
    let (new, rest) = name(rest)?;
    let rest = mark(rest, Mark::Semicolon)?;
    Ok((
        Declaration::Enumeration {
            members: found,
            name: new,
        },
        rest,
    ))
}

/// `{ FIELDS } NEW;`
#[tactic(auto, unfolding(crate::specs::Reading::structure_at))]
fn structure<'t, 'a>(
    alloc: Global,
    tokens: &'t [Token<'a>],
) -> Result<(Declaration<'a>, &'t [Token<'a>]), ParseStop<'t, 'a>>
    ensures reads { Gives (λ x. (declaration_of x.0, map token_of x.1.now)) result (structure_at (map token_of tokens.now)) }
{
    let rest = mark(tokens, Mark::OpenBrace)?;
    let (found, rest) = fields(alloc, rest)?;
    let rest = mark(rest, Mark::CloseBrace)?;
    let (new, rest) = name(rest)?;
    let rest = mark(rest, Mark::Semicolon)?;
    Ok((
        Declaration::Structure {
            fields: found,
            name: new,
        },
        rest,
    ))
}

/// `NEW;` or `NEW[COUNT];`
#[tactic(auto, unfolding(crate::specs::Reading::renaming_at))]
fn renaming<'t, 'a>(
    old: Name<'a>,
    tokens: &'t [Token<'a>],
) -> Result<(Declaration<'a>, &'t [Token<'a>]), ParseStop<'t, 'a>>
    ensures reads { Gives (λ x. (declaration_of x.0, map token_of x.1.now)) result
        (renaming_at (name_of old.entry) (map token_of tokens.now)) }
{
    let (new, rest) = name(tokens)?;
    let (size, rest) = count(rest)?;
    let rest = mark(rest, Mark::Semicolon)?;
    Ok((
        Declaration::Typedef {
            old,
            new,
            count: size,
        },
        rest,
    ))
}

/// What stands behind `typedef`.
#[tactic(auto, unfolding(crate::specs::Reading::typedef_at, crate::specs::Reading::definition_at))]
fn typedef<'t, 'a>(
    alloc: Global,
    tokens: &'t [Token<'a>],
) -> Result<(Declaration<'a>, &'t [Token<'a>]), ParseStop<'t, 'a>>
    ensures reads { Gives (λ x. (declaration_of x.0, map token_of x.1.now)) result (typedef_at (map token_of tokens.now)) }
{
    match take_defined(tokens)? {
        (TypedefWord::Enumeration, rest) => enumeration(alloc, rest),
        (TypedefWord::Structure, rest) => structure(alloc, rest),
        (TypedefWord::Type(old), rest) => renaming(old, rest),
    }
}

/// `NAME(ARGUMENTS);`
#[tactic(auto, unfolding(crate::specs::Reading::message_at))]
fn message<'t, 'a>(
    alloc: Global,
    kind: MessageKind,
    tokens: &'t [Token<'a>],
) -> Result<(Declaration<'a>, &'t [Token<'a>]), ParseStop<'t, 'a>>
    ensures reads { Gives (λ x. (declaration_of x.0, map token_of x.1.now)) result
        (message_at kind (map token_of tokens.now)) }
{
    let (message_name, rest) = name(tokens)?;
    let rest = mark(rest, Mark::OpenParen)?;
    let (args, rest) = arguments(alloc, rest)?;
    let rest = mark(rest, Mark::CloseParen)?;
    let rest = mark(rest, Mark::Semicolon)?;
    Ok((
        Declaration::Message {
            kind,
            name: message_name,
            args,
        },
        rest,
    ))
}

/// `NAME(ARGUMENTS);`, each argument with its direction
#[tactic(auto, unfolding(crate::specs::Reading::rpc_at))]
fn rpc<'t, 'a>(
    alloc: Global,
    tokens: &'t [Token<'a>],
) -> Result<(Declaration<'a>, &'t [Token<'a>]), ParseStop<'t, 'a>>
    ensures reads { Gives (λ x. (declaration_of x.0, map token_of x.1.now)) result (rpc_at (map token_of tokens.now)) }
{
    let (rpc_name, rest) = name(tokens)?;
    let rest = mark(rest, Mark::OpenParen)?;
    let (args, rest) = directed_arguments(alloc, rest)?;
    let rest = mark(rest, Mark::CloseParen)?;
    let rest = mark(rest, Mark::Semicolon)?;
    Ok((
        Declaration::Rpc {
            name: rpc_name,
            args,
        },
        rest,
    ))
}

/// Takes one declaration.
#[tactic(auto, unfolding(crate::specs::Reading::declaration_at, crate::specs::Reading::production_at))]
fn declaration<'t, 'a>(
    alloc: Global,
    tokens: &'t [Token<'a>],
) -> Result<(Declaration<'a>, &'t [Token<'a>]), ParseStop<'t, 'a>>
    ensures reads { Gives (λ x. (declaration_of x.0, map token_of x.1.now)) result (declaration_at (map token_of tokens.now)) }
{
    match take_opening(tokens)? {
        (DeclarationWord::Alias, rest) => alias(rest),
        (DeclarationWord::Typedef, rest) => typedef(alloc, rest),
        (DeclarationWord::Message(kind), rest) => message(alloc, kind, rest),
        (DeclarationWord::Rpc, rest) => rpc(alloc, rest),
    }
}

/// Takes the declarations up to the closing brace.
fn declarations<'t, 'a>(
    alloc: Global,
    tokens: &'t [Token<'a>],
) -> Result<(Vec<Declaration<'a>>, &'t [Token<'a>]), ParseStop<'t, 'a>>
    ensures reads { Gives (λ x. (map declaration_of x.0.items, map token_of x.1.now)) result
        (declarations_at (map token_of tokens.now)) }
{
    let mut declarations = Vec::new(alloc);
    let (_, mut rest) = tokens.split_at(0);
    while !begins_with(rest, Mark::CloseBrace) {
        let (next, after) = declaration(alloc, rest)?;
        declarations.push(next)?;
        rest = after;
    }
    Ok((declarations, rest))
}

/// Takes this word.
fn word<'t, 'a>(
    tokens: &'t [Token<'a>],
    wanted: &[u8],
) -> Result<&'t [Token<'a>], ParseStop<'t, 'a>>
    ensures reads { Gives (λ x. (tt, map token_of x.now)) result (word_at wanted.now (map token_of tokens.now)) }
    ensures refusal { IfErr result IsUnexpected }
{
    match tokens {
        [first, rest @ ..] if spells(first, wanted) => Ok(rest),
        _ => Err(ParseStop::Unexpected(tokens)),
    }
}

/// Takes the interface's description, which may be missing.
#[tactic(auto, unfolding(crate::specs::Reading::description_at))]
fn description<'t, 'a>(tokens: &'t [Token<'a>]) -> (Option<&'a [u8]>, &'t [Token<'a>])
    ensures reads { description_at (map token_of tokens.now) ≡ Ok (option_map (λ d. d.now) result.0, map token_of result.1.now) }
{
    let [first, rest @ ..] = tokens else {
        return (None, tokens);
    };
    match first.kind {
        TokenKind::Description => (Some(first.text), rest),
        _ => (None, tokens),
    }
}

/// Takes an interface up to its closing brace.
#[tactic(auto, unfolding(crate::specs::Reading::body_at))]
fn body<'t, 'a>(
    alloc: Global,
    tokens: &'t [Token<'a>],
) -> Result<(Tree<'a>, &'t [Token<'a>]), ParseStop<'t, 'a>>
    ensures reads { Gives (λ x. (tree_of x.0, map token_of x.1.now)) result (body_at (map token_of tokens.now)) }
    ensures memory { IfErr result (λ stop. stop ≡ Memory → HasHead (map token_of tokens.now)) }
{
    let rest = word(tokens, b"interface")?;
    let (interface_name, rest) = name(rest)?;
    let (found, rest) = description(rest);
    let rest = mark(rest, Mark::OpenBrace)?;
    let (all, rest) = declarations(alloc, rest)?;
    let rest = mark(rest, Mark::CloseBrace)?;
    Ok((
        Tree {
            name: interface_name,
            description: found,
            declarations: all,
        },
        rest,
    ))
}

/// Takes the interface's semicolon, which may be missing.
fn skip_semicolon<'t, 'a>(tokens: &'t [Token<'a>]) -> &'t [Token<'a>]
    ensures rest { map token_of result.now ≡ behind_semicolon (map token_of tokens.now) }
{
    match tokens {
        [first, rest @ ..] if is(first, Mark::Semicolon) => rest,
        _ => tokens,
    }
}

/// The fault of a part that was not read, in a text that ends at `end`.
fn fault_of(stop: ParseStop, end: usize) -> ParseFault
    ensures fault { result ≡ stop_fault stop.entry end }
{
    match stop {
        ParseStop::Memory => ParseFault::Memory,
        ParseStop::Unexpected([first, ..]) => ParseFault::NotExpected(first.at),
        ParseStop::Unexpected([]) => ParseFault::NotExpected(end),
    }
}

/// The tree of the tokens. One pass: the time goes with the number of tokens.
///
/// # Errors
///
/// E7 at the first token with which the tokens so far begin no interface, or at the text's end where
/// they only begin one; E8 at a token after a whole interface; E99 where memory is refused, which is met only behind the
/// interface's opening brace.
pub fn parse<'a>(alloc: Global, tokens: &Tokens<'a>) -> Result<Tree<'a>, ParseFault>
    ensures outcome { IfSome (outcome_of result) (λ found. Parses (tokens_of tokens.now) found) }
    ensures memory { IfErr result (λ fault. fault ≡ NoMemory → HasHead (tokens_of tokens.now).tokens) }
{
    let (tree, rest) = match body(alloc, tokens.items.as_slice()) {
        Ok(found) => found,
        Err(stop) => return Err(fault_of(stop, tokens.end)),
    };
    match skip_semicolon(rest) {
        [] => Ok(tree),
        [first, ..] => Err(ParseFault::AfterInterface(first.at)),
    }
}
