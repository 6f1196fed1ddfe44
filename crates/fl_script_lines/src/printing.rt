//! Commands as text, each in one form: its words with one space between any two.

ghost use Rattle.std.specs.Prelude.{◌≡◌, ◌++◌, ◌∷◌, [], OnOk, OnErr, map};
ghost use Rattle.std.specs.Fmt.{decimal};
ghost use Rattle.fl_script_lines.specs.Commands.{end_text, a_name, a_number, an_end, back_end_row};
ghost use Rattle.fl_script_lines.specs.Grammar.{printed_command, printed_more};
ghost use Rattle.fl_script_lines.specs.Views.{end_name_of, back_end_of, command_of};

use crate::command::{BackEndText, Command, EndName};
use fl_base::Side;
use std::alloc::{AllocError, Global};

// A space, and a word behind it.
fn put_word(out: &mut Vec<u8>, word: &[u8]) -> Result<(), AllocError>
    ensures put { OnOk result (out.new.items ≡ out.old.items ++ 32 ∷ word.now) }
{
    out.push(b' ')?;
    out.extend_from_slice(word)
}

// A space, and a number behind it.
fn put_number(alloc: Global, out: &mut Vec<u8>, number: u32) -> Result<(), AllocError>
    ensures put { OnOk result (out.new.items ≡ out.old.items ++ 32 ∷ decimal number) }
{
    let digits = number.to_string(alloc)?;
    put_word(out, digits.as_bytes())
}

// A space, and an end behind it.
fn put_end(out: &mut Vec<u8>, end: EndName<'_>) -> Result<(), AllocError>
    ensures put { OnOk result (out.new.items ≡ out.old.items ++ 32 ∷ end_text (end_name_of end.entry)) }
{
    put_word(out, end.binding)?;
    match end.side {
        Side::Client => out.extend_from_slice(b".c"),
        Side::Server => out.extend_from_slice(b".s"),
    }
}

// Names, with a space before each.
fn put_names(out: &mut Vec<u8>, names: &[&[u8]]) -> Result<(), AllocError>
    ensures put { OnOk result (out.new.items ≡ out.old.items ++ printed_more (map (λ n. a_name n.now) names.now)) }
{
    for name in names {
        put_word(out, name)?;
    }
    Ok(())
}

// Numbers, with a space before each.
fn put_numbers(alloc: Global, out: &mut Vec<u8>, numbers: &[u32]) -> Result<(), AllocError>
    ensures put { OnOk result (out.new.items ≡ out.old.items ++ printed_more (map (λ n. a_number n) numbers.now)) }
{
    for number in numbers {
        put_number(alloc, out, *number)?;
    }
    Ok(())
}

fn put_back_end(
    alloc: Global,
    out: &mut Vec<u8>,
    back_end: BackEndText<'_>,
) -> Result<(), AllocError>
    ensures put { OnOk result (out.new.items ≡ out.old.items ++ printed_more (back_end_row (back_end_of back_end.entry))) }
{
    match back_end {
        BackEndText::Local(slots) => {
            put_word(out, b"local")?;
            put_number(alloc, out, slots)
        }
        BackEndText::Ump(slots) => {
            put_word(out, b"ump")?;
            put_number(alloc, out, slots)
        }
        BackEndText::Hop(route) => {
            let cores = route.cores(alloc)?;
            put_word(out, b"hop")?;
            put_numbers(alloc, out, &cores)
        }
    }
}

// A command's word, and an end.
fn put_at_end(out: &mut Vec<u8>, word: &[u8], end: EndName<'_>) -> Result<(), AllocError>
    ensures put { OnOk result (out.new.items ≡ out.old.items ++ (word.now ++ printed_more (an_end (end_name_of end.entry) ∷ []))) }
{
    out.extend_from_slice(word)?;
    put_end(out, end)
}

// A command's word, and two cores.
fn put_cores(
    alloc: Global,
    out: &mut Vec<u8>,
    word: &[u8],
    core: u32,
    neighbour: u32,
) -> Result<(), AllocError>
    ensures put { OnOk result (out.new.items ≡ out.old.items ++ (word.now ++ printed_more (a_number core ∷ a_number neighbour ∷ []))) }
{
    out.extend_from_slice(word)?;
    put_number(alloc, out, core)?;
    put_number(alloc, out, neighbour)
}

// A command's word, and names.
fn put_named(out: &mut Vec<u8>, word: &[u8], names: &[&[u8]]) -> Result<(), AllocError>
    ensures put { OnOk result (out.new.items ≡ out.old.items ++ (word.now ++ printed_more (map (λ n. a_name n.now) names.now))) }
{
    out.extend_from_slice(word)?;
    put_names(out, names)
}

// A command, as a line without its end.
fn put_command(alloc: Global, out: &mut Vec<u8>, command: Command<'_>) -> Result<(), AllocError>
    ensures put { OnOk result (out.new.items ≡ out.old.items ++ printed_command (command_of command.entry)) }
{
    match command {
        Command::Cores(n) => {
            out.extend_from_slice(b"cores")?;
            put_number(alloc, out, n)
        }
        Command::Link { a, b, slots } => {
            put_cores(alloc, out, b"link", a, b)?;
            put_number(alloc, out, slots)
        }
        Command::Disp { name, core } => {
            put_named(out, b"disp", &[name])?;
            put_number(alloc, out, core)
        }
        Command::Export {
            name,
            dispatcher,
            interface,
        } => put_named(out, b"export", &[name, dispatcher, interface]),
        Command::Bind {
            name,
            client,
            interface,
            service,
            back_end,
        } => {
            put_named(out, b"bind", &[name, client, interface, service])?;
            put_back_end(alloc, out, back_end)
        }
        Command::Call(end, text) => {
            put_at_end(out, b"call", end)?;
            put_word(out, text)
        }
        Command::Show(end) => put_at_end(out, b"show", end),
        Command::Write(end) => put_at_end(out, b"write", end),
        Command::Turn(dispatcher) => put_named(out, b"turn", &[dispatcher]),
        Command::Ack(end) => put_at_end(out, b"ack", end),
        Command::Register(end) => put_at_end(out, b"register", end),
        Command::Deregister(end) => put_at_end(out, b"deregister", end),
        Command::Reply {
            end,
            message,
            answer,
        } => {
            put_at_end(out, b"reply", end)?;
            put_names(out, &[message, answer])
        }
        Command::MonitorWrite { core, neighbour } => {
            put_cores(alloc, out, b"mwrite", core, neighbour)
        }
        Command::Forward { core, neighbour } => put_cores(alloc, out, b"forward", core, neighbour),
        Command::MonitorAck { core, neighbour } => put_cores(alloc, out, b"mack", core, neighbour),
    }
}

/// Appends a command, as a line without its end: all of it or nothing.
///
/// # Errors
/// Out of memory; `out` is as it was then.
pub fn print_command(
    alloc: Global,
    out: &mut Vec<u8>,
    command: Command<'_>,
) -> Result<(), AllocError>
    ensures printed { OnOk result (out.new.items ≡ out.old.items ++ printed_command (command_of command.entry)) }
    ensures kept { OnErr result (out.new.items ≡ out.old.items) }
{
    let mut text = Vec::new(alloc);
    put_command(alloc, &mut text, command)?;
    out.extend_from_slice(&text)
}
