//! The header, message by message.

ghost use Rattle.std.specs.Prelude.{◌≡◌, ◌<◌, IfOk, length, flat_map};
ghost use Rattle.std.specs.Fmt.{decimal};
ghost use Rattle.fl_interface.specs.Interface.{interface_of, message_of};
ghost use Rattle.flounder_header.specs.Header.{IsHeader, IsSection, AreSections, plan_text, preface};
ghost use Rattle.flounder_header.specs.Header.{struct_text, put_text, get_text, section_text};

use crate::arguments::{declare_argument, move_argument};
use crate::page::{MoveWay, Page};
use fl_base::MsgNo;
use fl_interface::{ArgType, Interface, Message};
use fl_layout::Plans;
use fl_value_data::{PlanNo, RANKS};
use std::alloc::{AllocError, Global};

// These pieces, one behind another.
fn joined(alloc: Global, pieces: &[&[u8]]) -> Result<Vec<u8>, AllocError>
    ensures joined { IfOk result (λ text. text.items ≡ flat_map (λ piece. piece.now) pieces.now) }
{
    let mut text = Vec::new(alloc);
    for piece in pieces {
        text.extend_from_slice(piece)?;
    }
    Ok(text)
}

// The members of a message's struct.
fn members(alloc: Global, arguments: &[ArgType]) -> Result<Vec<u8>, AllocError> {
    let mut page = Page::new(alloc);
    if arguments.is_empty() {
        page.push(b"    uint8_t none;\n");
    }
    for (number, argument) in arguments.iter().enumerate() {
        declare_argument(&mut page, argument, number);
    }
    page.into_text()
}

// The lines that move the numbers of the arguments of a rank.
fn move_rank(page: &mut Page, arguments: &[ArgType], plan: PlanNo, rank: u8, way: MoveWay) {
    for (number, argument) in arguments.iter().enumerate() {
        if plan.rank_of(argument) == rank {
            move_argument(page, argument, number, way);
        }
    }
}

// The lines that move the numbers of all arguments, in the plan's order.
fn moves(
    alloc: Global,
    arguments: &[ArgType],
    plan: PlanNo,
    way: MoveWay,
) -> Result<Vec<u8>, AllocError> {
    let mut page = Page::new(alloc);
    for rank in 0..RANKS {
        move_rank(&mut page, arguments, plan, rank, way);
    }
    page.into_text()
}

/// The parts of a message's declarations.
#[derive(Clone, Copy)]
struct MessageParts<'a> {
    // the message's name in C
    name: &'a [u8],
    members: &'a [u8],
    puts: &'a [u8],
    gets: &'a [u8],
}

// A message's struct, its number, and how many numbers its tapes have at most.
fn declaration(
    alloc: Global,
    name: &[u8],
    members: &[u8],
    number: u16,
    most: usize,
) -> Result<Vec<u8>, AllocError>
    ensures declared { IfOk result (λ text. text.items ≡ struct_text name.now (decimal number) members.now (decimal most)) }
{
    let digits = format!(in alloc; "{number}")?;
    let digits_of_most = format!(in alloc; "{most}")?;
    let number = digits.as_bytes();
    let most = digits_of_most.as_bytes();
    joined(
        alloc,
        &[
            b"\nstruct ",
            name,
            b" {\n",
            members,
            b"};\nenum { ",
            name,
            b"_number = ",
            number,
            b", ",
            name,
            b"_most = 1 + ",
            most,
            b" };\n",
        ],
    )
}

// The function that puts a call's numbers, by these lines.
fn put_function(alloc: Global, name: &[u8], puts: &[u8]) -> Result<Vec<u8>, AllocError>
    ensures put { IfOk result (λ text. text.items ≡ put_text name.now puts.now) }
{
    joined(
        alloc,
        &[
            b"static inline size_t ",
            name,
            b"_put(const struct ",
            name,
            b" *m, uint64_t *call)\n{\n    size_t n = 0;\n    (void)m;\n    call[n++] = ",
            name,
            b"_number;\n",
            puts,
            b"    return n;\n}\n",
        ],
    )
}

// The function that gets a call of its numbers, by these lines.
fn get_function(alloc: Global, name: &[u8], gets: &[u8]) -> Result<Vec<u8>, AllocError>
    ensures got { IfOk result (λ text. text.items ≡ get_text name.now gets.now) }
{
    joined(
        alloc,
        &[
            b"static inline int ",
            name,
            b"_get(struct ",
            name,
            b" *m, const uint64_t *call, size_t count)\n{\n    struct fl_tape tape = { call, count, 0 };\n",
            b"    (void)m;\n    if (fl_next(&tape) != ",
            name,
            b"_number) return 0;\n",
            gets,
            b"    return !tape.wrong && !tape.left;\n}\n",
        ],
    )
}

// A message's declarations, of their parts, its number and how many numbers its tapes have at most.
fn spell(
    alloc: Global,
    parts: MessageParts<'_>,
    number: u16,
    most: usize,
) -> Result<Vec<u8>, AllocError>
    ensures spelled { IfOk result (λ text. text.items ≡ section_text parts.entry.name.now (decimal number) parts.entry.members.now (decimal most)
        parts.entry.puts.now parts.entry.gets.now) }
{
    let declaration = declaration(alloc, parts.name, parts.members, number, most)?;
    let put = put_function(alloc, parts.name, parts.puts)?;
    let get = get_function(alloc, parts.name, parts.gets)?;
    joined(alloc, &[&declaration, &put, &get])
}

// A message's declarations.
fn section(
    alloc: Global,
    plans: &Plans,
    msg: MsgNo,
    message: &Message,
) -> Result<Vec<u8>, AllocError>
    requires exists { msg.0 < length plans.now.interface.messages.items }
    ensures section { IfOk result (λ text. IsSection plans.now.plan (interface_of plans.now.interface) msg.0 (message_of message.now) text.items) }
{
    let most = plans.tape_capacity(msg);
    let name = joined(
        alloc,
        &[&plans.interface.name.bytes, b"_", &message.name.bytes],
    )?;
    let members = members(alloc, &message.args)?;
    let puts = moves(alloc, &message.args, plans.plan, MoveWay::Put)?;
    let gets = moves(alloc, &message.args, plans.plan, MoveWay::Get)?;
    let parts = MessageParts {
        name: &name,
        members: &members,
        puts: &puts,
        gets: &gets,
    };
    spell(alloc, parts, msg.0, most)
}

// The declarations of all messages.
fn sections(alloc: Global, plans: &Plans) -> Result<Vec<u8>, AllocError>
    ensures sections { IfOk result (λ text.
        AreSections plans.now.plan (interface_of plans.now.interface) 0 (interface_of plans.now.interface).messages text.items) }
{
    let mut text = Vec::new(alloc);
    for (number, message) in plans.interface.messages.iter().enumerate() {
        let section = section(alloc, plans, MsgNo(number as u16), message)?;
        text.extend_from_slice(&section)?;
    }
    Ok(text)
}

// A plan's number.
fn digit_of(plan: PlanNo) -> &'static [u8]
    ensures digit { result.now ≡ plan_text plan }
{
    match plan {
        PlanNo::One => b"1",
        PlanNo::Two => b"2",
    }
}

// What stands before all declarations, of the interface's name and the plan's number.
fn preface_of<'a>(alloc: Global, name: &'a [u8], plan: &'a [u8]) -> Result<Vec<u8>, AllocError>
    ensures preface { IfOk result (λ text. text.items ≡ preface name.now plan.now) }
{
    joined(
        alloc,
        &[
            b"/* Interface ",
            name,
            b", plan ",
            plan,
            b". */\n#ifndef FLOUNDER_",
            name,
            b"_H\n#define FLOUNDER_",
            name,
            b"_H\n#include <flounder.h>\n",
        ],
    )
}

/// A header in C for an interface whose calls a plan lays out. Of the message M of the interface I it has
///
/// - `struct I_M`, with a member for each argument: `a0`, `a1`, ..
/// - `I_M_number`, and `I_M_most`: how many numbers a call of it has at most
/// - `size_t I_M_put(const struct I_M *, uint64_t *call)`: the numbers of a call, and how many; 0 where a text or
///   an array is too long
/// - `int I_M_get(struct I_M *, const uint64_t *call, size_t count)`: whether these numbers are such a call
///
/// # Errors
/// Out of memory (E99).
pub fn header(alloc: Global, interface: &Interface, plan: PlanNo) -> Result<Vec<u8>, AllocError>
    ensures header { IfOk result (λ text. IsHeader plan (interface_of interface.now) text.items) }
{
    let plans = fl_layout::plan(alloc, interface, plan)?;
    header_by(alloc, &plans)
}

// The same, once calls are laid out.
fn header_by(alloc: Global, plans: &Plans) -> Result<Vec<u8>, AllocError>
    ensures header { IfOk result (λ text. IsHeader plans.now.plan (interface_of plans.now.interface) text.items) }
{
    let start = preface_of(alloc, &plans.interface.name.bytes, digit_of(plans.plan))?;
    let sections = sections(alloc, plans)?;
    joined(alloc, &[&start, &sections, b"\n#endif\n"])
}
