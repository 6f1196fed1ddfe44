//! What more is known of a text's first fault than its rule: what could stand there, where the first of a
//! name stands, and how much is too much.

use crate::expected::{Expected, expected_at};
use crate::measure::{KnownTypes, Measure};
use crate::reading::tree_of;
use fl_check::{CheckFault, Rule, TextFault};
use fl_parse::{Argument, Declaration, Direction, Name, Shape, Tree};
use std::alloc::Global;

const MAX_SIZE: u64 = 4_096;

const MAX_DEPTH: u32 = 16;

/// Bytes of the longest name of an rpc.
const MAX_RPC_NAME: usize = 55;

/// What more is known of a fault. No promise rests on it.
#[derive(Clone, Copy)]
pub enum Cause {
    /// E7: what could stand there.
    Expected(Expected),
    /// E10, E12 and E13: where the first of the name stands, in bytes from the text's start.
    First { at: usize },
    /// E10: the name is built in.
    BuiltIn,
    /// E17: the type's bytes.
    Size { bytes: u64 },
    /// E17: how deep structs and fixed arrays nest.
    Depth { levels: u32 },
    /// E17: how deep fixed arrays nest.
    ArrayDepth { levels: u32 },
    /// E19: of what there is one too many, and how many there may be.
    Count { things: &'static str, most: usize },
    /// E19: the bytes of an rpc's name, and how many there may be.
    NameLength { bytes: usize, most: usize },
    /// E21: the greatest payload's bytes.
    Payload { bytes: u64 },
}

/// What more is known of a text's first fault, if something is and memory isn't refused.
pub fn cause_of(alloc: Global, text: &[u8], fault: TextFault) -> Option<Cause> {
    match fault {
        TextFault::Parse(fault) if fault.number() == 7 => {
            let expected = expected_at(alloc, text, fault.offset()?)?;
            Some(Cause::Expected(expected))
        }
        TextFault::Check(CheckFault::Broken { rule, at }) => {
            let tree = tree_of(alloc, text)?;
            cause_in(alloc, &tree, rule, at)
        }
        _ => None,
    }
}

// What more is known of a rule that a tree breaks.
fn cause_in(alloc: Global, tree: &Tree<'_>, rule: Rule, at: usize) -> Option<Cause> {
    match rule {
        Rule::TypeNameTaken | Rule::MessageNameTaken => first_declared(tree, at),
        Rule::NameTwice => first_in_list(alloc, tree, at),
        Rule::TooBig => size_of(alloc, tree, at),
        Rule::TooMany => Some(too_many(tree, at)),
        Rule::TooLong => payload_of(alloc, tree, at),
        Rule::UnknownType
        | Rule::Capability
        | Rule::NothingInIt
        | Rule::BadCount
        | Rule::NotFixed
        | Rule::BadBound => None,
    }
}

/// What a declaration makes.
#[derive(Clone, Copy)]
enum NameKind {
    Type,
    Message,
    Rpc,
}

/// What a declaration makes, and its name.
#[derive(Clone, Copy)]
struct DeclaredName<'a> {
    kind: NameKind,
    name: Name<'a>,
}

fn declared_by<'a>(declaration: &Declaration<'a>) -> DeclaredName<'a> {
    let (kind, name) = match declaration {
        Declaration::Alias { new, old: _ } => (NameKind::Type, new),
        Declaration::Typedef {
            old: _,
            new,
            count: _,
        } => (NameKind::Type, new),
        Declaration::Enumeration { members: _, name } => (NameKind::Type, name),
        Declaration::Structure { fields: _, name } => (NameKind::Type, name),
        Declaration::Message {
            kind: _,
            name,
            args: _,
        } => (NameKind::Message, name),
        Declaration::Rpc { name, args: _ } => (NameKind::Rpc, name),
    };
    DeclaredName { kind, name: *name }
}

// What is declared at a place.
fn declared_at<'a>(tree: &Tree<'a>, at: usize) -> Option<DeclaredName<'a>> {
    for declaration in &tree.declarations {
        let found = declared_by(declaration);
        if found.name.at == at {
            return Some(found);
        }
    }
    None
}

// Whether a message's name is one of the two that an rpc takes.
fn is_half(name: &[u8], rpc: &[u8]) -> bool {
    let end = name.strip_prefix(rpc);
    end == Some(b"_call".as_slice()) || end == Some(b"_response".as_slice())
}

// Whether two declarations take the same name.
fn take_the_same(one: DeclaredName<'_>, other: DeclaredName<'_>) -> bool {
    match (one.kind, other.kind) {
        (NameKind::Type, NameKind::Type)
        | (NameKind::Message, NameKind::Message)
        | (NameKind::Rpc, NameKind::Rpc) => one.name.text == other.name.text,
        (NameKind::Message, NameKind::Rpc) => is_half(one.name.text, other.name.text),
        (NameKind::Rpc, NameKind::Message) => is_half(other.name.text, one.name.text),
        _ => false,
    }
}

// Where the first stands that takes the name of the type, message or rpc at this place. A type's name that none
// takes is built in.
fn first_declared(tree: &Tree<'_>, at: usize) -> Option<Cause> {
    let taken = declared_at(tree, at)?;
    for declaration in &tree.declarations {
        let found = declared_by(declaration);
        if found.name.at < at && take_the_same(found, taken) {
            return Some(Cause::First { at: found.name.at });
        }
    }
    match taken.kind {
        NameKind::Type => Some(Cause::BuiltIn),
        NameKind::Message | NameKind::Rpc => None,
    }
}

/// The names of a list, in order; some are missing where memory was refused.
#[derive(Drop)]
struct Listed<'a> {
    names: Vec<Name<'a>>,
    is_whole: bool,
}

impl<'a> Listed<'a> {
    fn add(&mut self, name: Name<'a>) {
        let is_kept = self.names.push(name).is_ok();
        self.is_whole = self.is_whole && is_kept;
    }

    fn add_argument(&mut self, argument: &Argument<'a>) {
        self.add(argument.name);
        if let Shape::Sized { length, bound: _ } = argument.shape {
            self.add(length);
        }
    }

    // Adds the names of a declaration's list.
    fn add_list(&mut self, declaration: &Declaration<'a>) {
        match declaration {
            Declaration::Enumeration { members, name: _ } => {
                for member in members {
                    self.add(*member);
                }
            }
            Declaration::Structure { fields, name: _ } => {
                for field in fields {
                    self.add(field.name);
                }
            }
            Declaration::Message {
                kind: _,
                name: _,
                args,
            } => {
                for argument in args {
                    self.add_argument(argument);
                }
            }
            Declaration::Rpc { name: _, args } => {
                for directed in args {
                    self.add_argument(&directed.argument);
                }
            }
            Declaration::Alias { .. } | Declaration::Typedef { .. } => {}
        }
    }
}

// The first of the names that has this text.
fn first_of(names: &[Name<'_>], text: &[u8]) -> Option<Cause> {
    for name in names {
        if name.text == text {
            return Some(Cause::First { at: name.at });
        }
    }
    None
}

// The first of the names that is the same as the one at this place, if that is among them.
fn first_same(names: &[Name<'_>], at: usize) -> Option<Cause> {
    for name in names {
        if name.at == at {
            return first_of(names, name.text);
        }
    }
    None
}

// Where the first name of a list stands that is the same as the one at this place.
fn first_in_list(alloc: Global, tree: &Tree<'_>, at: usize) -> Option<Cause> {
    let mut found = None;
    for declaration in &tree.declarations {
        let mut list = Listed {
            names: Vec::new(alloc),
            is_whole: true,
        };
        list.add_list(declaration);
        if list.is_whole {
            found = found.or(first_same(&list.names, at));
        }
    }
    found
}

// Of what there is one too many at a place.
fn too_many(tree: &Tree<'_>, at: usize) -> Cause {
    let (things, most) = match declared_at(tree, at) {
        Some(
            DeclaredName {
                kind: NameKind::Rpc,
                name,
            },
        ) if name.text.len() > MAX_RPC_NAME => {
            return Cause::NameLength {
                bytes: name.text.len(),
                most: MAX_RPC_NAME,
            };
        }
        Some(
            DeclaredName {
                kind: NameKind::Type,
                name: _,
            },
        ) => ("types", fl_interface::MAX_TYPES),
        Some(_) => ("messages", fl_interface::MAX_MESSAGES),
        None => ("fields or arguments", fl_interface::MAX_LISTED),
    };
    Cause::Count { things, most }
}

// What is too big in a type.
fn excess(measure: Measure) -> Cause {
    if measure.size > MAX_SIZE {
        return Cause::Size {
            bytes: measure.size,
        };
    }
    if measure.depth > MAX_DEPTH {
        return Cause::Depth {
            levels: measure.depth,
        };
    }
    Cause::ArrayDepth {
        levels: measure.arrays,
    }
}

// What is too big in the type at a place.
fn size_of(alloc: Global, tree: &Tree<'_>, at: usize) -> Option<Cause> {
    let mut known = KnownTypes::new(alloc);
    let mut found = None;
    for declaration in &tree.declarations {
        let measure = known.declare(declaration);
        if declared_by(declaration).name.at == at && known.is_whole {
            found = measure;
        }
    }
    Some(excess(found?))
}

// The greatest payload of a message or rpc, in bytes.
fn greatest_payload(known: &KnownTypes<'_>, declaration: &Declaration<'_>) -> Option<u64> {
    match declaration {
        Declaration::Message {
            kind: _,
            name: _,
            args,
        } => Some(known.payload(args)),
        Declaration::Rpc { name: _, args } => {
            let ins = known.half_payload(args, Direction::In);
            Some(ins.max(known.half_payload(args, Direction::Out)))
        }
        _ => None,
    }
}

// The greatest payload of the message or rpc at a place.
fn payload_of(alloc: Global, tree: &Tree<'_>, at: usize) -> Option<Cause> {
    let mut known = KnownTypes::new(alloc);
    let mut found = None;
    for declaration in &tree.declarations {
        let _measure = known.declare(declaration);
        if declared_by(declaration).name.at == at && known.is_whole {
            found = greatest_payload(&known, declaration);
        }
    }
    let bytes = found?;
    Some(Cause::Payload { bytes })
}
