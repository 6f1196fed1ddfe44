//! The plan table with its arguments' names.

ghost use Rattle.std.specs.Prelude.{◌≡◌, ◌++◌, List, ℕ, IfOk, OnOk};
ghost use Rattle.flounder_show.specs.Named.{StandsIn};

use crate::reading::tree_of;
use fl_parse::{Declaration, DirectedArgument, Direction, Tree};
use std::alloc::{AllocError, Global};

const MAGIC: &[u8] = b"FLND";

const ARGUMENT: &[u8] = b"arg ";

// The names of the arguments that one of an rpc's messages carries.
fn push_half<'a>(
    names: &mut Vec<&'a [u8]>,
    args: &[DirectedArgument<'a>],
    direction: Direction,
) -> Result<(), AllocError> {
    for directed in args {
        if directed.direction == direction {
            names.push(directed.argument.name.text)?;
        }
    }
    Ok(())
}

// The arguments' names, message by message, as the table has them.
fn argument_names<'a>(alloc: Global, tree: &Tree<'a>) -> Result<Vec<&'a [u8]>, AllocError> {
    let mut names = Vec::new(alloc);
    for declaration in &tree.declarations {
        match declaration {
            Declaration::Message {
                kind: _,
                name: _,
                args,
            } => {
                for argument in args {
                    names.push(argument.name.text)?;
                }
            }
            Declaration::Rpc { name: _, args } => {
                push_half(&mut names, args, Direction::In)?;
                push_half(&mut names, args, Direction::Out)?;
            }
            Declaration::Alias { .. }
            | Declaration::Typedef { .. }
            | Declaration::Enumeration { .. }
            | Declaration::Structure { .. } => {}
        }
    }
    Ok(names)
}

// Puts a blank and a name behind a text.
fn push_name(text: &mut Vec<u8>, name: &[u8]) -> Result<(), AllocError>
    ensures more { OnOk result ((more : List ℕ) × (text.new.items ≡ text.old.items ++ more)) }
{
    text.push(b' ')?;
    text.extend_from_slice(name)
}

// Puts the next name behind a text where it ends an argument's line.
fn end_line(text: &mut Vec<u8>, names: &[&[u8]], next: usize, ends: bool) -> Result<(), AllocError>
    ensures more { OnOk result ((more : List ℕ) × (text.new.items ≡ text.old.items ++ more)) }
{
    match names.get(next) {
        Some(name) if ends => push_name(text, name),
        _ => Ok(()),
    }
}

// Whether an argument's line goes on, or begins behind a line's end.
fn begins_argument(rest: &[u8], is_end: bool, was: bool) -> bool {
    if is_end {
        rest.starts_with(ARGUMENT)
    } else {
        was
    }
}

// The table with a name at the end of each of its arguments' lines.
fn with_names(alloc: Global, table: &[u8], names: &[&[u8]]) -> Result<Vec<u8>, AllocError>
    ensures within { IfOk result (λ text. StandsIn table.now text.items) }
{
    let mut named = Vec::new(alloc);
    let mut next = 0usize;
    let mut is_argument = table.starts_with(ARGUMENT);
    for (at, byte) in table.iter().enumerate() {
        let is_end = *byte == b'\n';
        let ends = is_end && is_argument;
        end_line(&mut named, names, next, ends)?;
        named.push(*byte)?;
        next = next.saturating_add(usize::from(ends));
        is_argument = begins_argument(&table[at + 1..], is_end, is_argument);
    }
    Ok(named)
}

/// The plan table of a file's content with a blank and its name at the end of each argument's line. An image
/// keeps no arguments' names: its table stays as it is.
///
/// # Errors
/// Out of memory.
pub fn name_arguments(alloc: Global, content: &[u8], table: &[u8]) -> Result<Vec<u8>, AllocError>
    ensures within { IfOk result (λ text. StandsIn table.now text.items) }
{
    if content.starts_with(MAGIC) {
        return with_names(alloc, table, &[]);
    }
    let Some(tree) = tree_of(alloc, content) else {
        return with_names(alloc, table, &[]);
    };
    let names = argument_names(alloc, &tree)?;
    with_names(alloc, table, &names)
}
