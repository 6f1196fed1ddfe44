//! Lines read: each function is a row of the table, behind the words before it.

ghost use Rattle.std.specs.Prelude.{◌≡◌, ◌++◌, ◌∷◌, option_map, if◌then◌else◌, codes, IfSome};
ghost use Rattle.std.specs.Str.{bytes_eq};
ghost use Rattle.fl_base.specs.declared.identity.Side.TheVariants.{Client, Server};
ghost use Rattle.std.specs.Prelude.{None, Some};
ghost use Rattle.fl_base.specs.Given.{given};
ghost use Rattle.fl_model.specs.Events.{asked_route};
ghost use Rattle.fl_model.specs.Views.{cores_of};
ghost use Rattle.fl_script_lines.specs.Commands.{local, ump, mwrite, forward, mack};
ghost use Rattle.fl_script_lines.specs.Grammar.{LineIs};
ghost use Rattle.fl_script_lines.specs.Words.{is_none, first_word, words_of, numbers_of};
ghost use Rattle.fl_script_lines.specs.Reading.{end_of, one_number, two_numbers, one_end, name_then, at_last};
ghost use Rattle.fl_script_lines.specs.Reading.{with_cores, link_row, disp_row, export_row, route_row, back_end_row};
ghost use Rattle.fl_script_lines.specs.Reading.{bind_row, call_row, turn_row, reply_row, making_verb_of, verb_of, command_by};
ghost use Rattle.fl_script_lines.specs.Reading.{heading_by, line_by, line_with, read_line};
ghost use Rattle.fl_script_lines.specs.Views.{end_name_of, back_end_of, command_of, line_of, opening_of};

use crate::command::{BackEndText, Command, EndName, Line, LineHead, RouteText, Verb};
use crate::word::{begins_comment, next_word, number};
use fl_base::Side;
use fl_lex::{is_digit, is_name};
use fl_model::Route;
use fl_value::skip_blanks;
use fl_value_data::PlanNo;

// The side that a dot and a letter tell.
#[inline(always)]
fn side_of(text: &[u8]) -> Option<Side>
    ensures same { result ≡ (if bytes_eq text.now (codes ".c") then Some Client else if bytes_eq text.now (codes ".s") then Some Server else None) }
{
    let [dot, letter] = text else {
        return None;
    };
    if *dot != b'.' {
        return None;
    }
    if *letter == b'c' {
        return Some(Side::Client);
    }
    if *letter == b's' {
        return Some(Side::Server);
    }
    None
}

#[inline(always)]
pub fn end_name(word: &[u8]) -> Option<EndName<'_>>
    ensures same { option_map end_name_of result ≡ end_of word.now }
{
    let at = word.len().saturating_sub(2);
    let (binding, text) = word.split_at(at);
    if !is_name(binding) {
        return None;
    }
    let Some(side) = side_of(text) else {
        return None;
    };
    Some(EndName { binding, side })
}

// Whether no word is left.
#[inline(always)]
pub fn is_last(line: &[u8]) -> bool
    ensures same { result ≡ is_none (first_word line.now) }
{
    let (word, _) = next_word(line);
    word.is_empty()
}

fn one_number(line: &[u8]) -> Option<u32>
    ensures same { result ≡ one_number line.now }
{
    let (word, rest) = next_word(line);
    let Some(n) = number(word) else {
        return None;
    };
    if !is_last(rest) {
        return None;
    }
    Some(n)
}

// Two numbers of one digit each, with one space between them and nothing else.
#[inline(always)]
fn two_digits(line: &[u8]) -> Option<(u32, u32)>
    ensures same { IfSome result (λ p. two_numbers line.now ≡ Some p) }
{
    let [a, b' ', b] = line else {
        return None;
    };
    if !is_digit(*a) || !is_digit(*b) {
        return None;
    }
    Some((u32::from(*a - b'0'), u32::from(*b - b'0')))
}

// Two numbers, word by word.
#[inline(never)]
fn two_words(line: &[u8]) -> Option<(u32, u32)>
    ensures same { result ≡ two_numbers line.now }
{
    let (word, rest) = next_word(line);
    let Some(a) = number(word) else {
        return None;
    };
    let Some(b) = one_number(rest) else {
        return None;
    };
    Some((a, b))
}

/// The two numbers of a line that has nothing else: most cores have a number of one digit.
#[inline(always)]
pub fn two_numbers(line: &[u8]) -> Option<(u32, u32)>
    ensures same { result ≡ two_numbers line.now }
{
    match two_digits(line) {
        Some(numbers) => Some(numbers),
        None => two_words(line),
    }
}

// The end of a line, found by the end of its word.
#[inline(never)]
fn end_word(line: &[u8]) -> Option<EndName<'_>>
    ensures same { option_map end_name_of result ≡ one_end line.now }
{
    let (word, rest) = next_word(line);
    let Some(end) = end_name(word) else {
        return None;
    };
    if !is_last(rest) {
        return None;
    }
    Some(end)
}

/// The end of a line that has nothing else. Where no blank stands around it, the whole line is its word.
#[inline(always)]
pub fn one_end(line: &[u8]) -> Option<EndName<'_>>
    ensures same { option_map end_name_of result ≡ one_end line.now }
{
    match end_name(line) {
        Some(end) => Some(end),
        None => end_word(line),
    }
}

// The name of a line, found by the end of its word.
#[inline(never)]
fn name_word(line: &[u8]) -> Option<&[u8]>
    ensures same { option_map (λ n. n.now) result ≡ name_then line.now (λ n rest. at_last rest n) }
{
    let (name, rest) = next_word(line);
    if !is_name(name) || !is_last(rest) {
        return None;
    }
    Some(name)
}

/// The name of a line that has nothing else. Where no blank stands around it, the whole line is its word.
#[inline(always)]
pub fn one_name(line: &[u8]) -> Option<&[u8]>
    ensures same { option_map (λ n. n.now) result ≡ name_then line.now (λ n rest. at_last rest n) }
{
    if is_name(line) {
        return Some(line);
    }
    name_word(line)
}

#[inline(never)]
fn link_row(line: &[u8]) -> Option<Command<'_>>
    ensures same { option_map command_of result ≡ link_row line.now }
{
    let (word, rest) = next_word(line);
    let Some(a) = number(word) else {
        return None;
    };
    let Some((b, slots)) = two_numbers(rest) else {
        return None;
    };
    Some(Command::Link { a, b, slots })
}

#[inline(never)]
fn disp_row(line: &[u8]) -> Option<Command<'_>>
    ensures same { option_map command_of result ≡ disp_row line.now }
{
    let (name, rest) = next_word(line);
    if !is_name(name) {
        return None;
    }
    let Some(core) = one_number(rest) else {
        return None;
    };
    Some(Command::Disp { name, core })
}

#[inline(never)]
fn export_row(line: &[u8]) -> Option<Command<'_>>
    ensures same { option_map command_of result ≡ export_row line.now }
{
    let (name, rest) = next_word(line);
    let (dispatcher, rest) = next_word(rest);
    let (interface, rest) = next_word(rest);
    if !is_name(name) || !is_name(dispatcher) || !is_name(interface) || !is_last(rest) {
        return None;
    }
    Some(Command::Export {
        name,
        dispatcher,
        interface,
    })
}

// The route of a first core and the others, whose numbers these words are, if each of them is a number.
fn route_in(first: u32, others: &[u8]) -> Option<Route>
    ensures same { option_map cores_of result
        ≡ option_map (λ ns. asked_route (first ∷ ns)) (numbers_of (words_of others.now)) }
{
    let mut route = Route::new(first);
    let mut rest = others;
    loop {
        let (word, behind) = next_word(rest);
        if word.is_empty() {
            return Some(route);
        }
        let Some(core) = number(word) else {
            return None;
        };
        route.push(core);
        rest = behind;
    }
}

fn route_row(line: &[u8]) -> Option<BackEndText<'_>>
    ensures same { option_map back_end_of result ≡ route_row line.now }
{
    let (word, others) = next_word(line);
    let Some(first) = number(word) else {
        return None;
    };
    let Some(asked) = route_in(first, others) else {
        return None;
    };
    Some(BackEndText::Hop(RouteText {
        asked,
        first,
        others,
    }))
}

fn local_row(line: &[u8]) -> Option<BackEndText<'_>>
    ensures same { option_map back_end_of result ≡ given (one_number line.now) None (λ n. Some (local n)) }
{
    Some(BackEndText::Local(one_number(line)?))
}

fn ump_row(line: &[u8]) -> Option<BackEndText<'_>>
    ensures same { option_map back_end_of result ≡ given (one_number line.now) None (λ n. Some (ump n)) }
{
    Some(BackEndText::Ump(one_number(line)?))
}

// Whether a word is this text.
#[inline(always)]
fn is_text(word: &[u8], text: &[u8]) -> bool
    ensures same { result ≡ bytes_eq word.now text.now }
{
    word == text
}

fn back_end_row(line: &[u8]) -> Option<BackEndText<'_>>
    ensures same { option_map back_end_of result ≡ back_end_row line.now }
{
    let (kind, rest) = next_word(line);
    if is_text(kind, b"local") {
        return local_row(rest);
    }
    if is_text(kind, b"ump") {
        return ump_row(rest);
    }
    if is_text(kind, b"hop") {
        return route_row(rest);
    }
    None
}

#[inline(never)]
fn bind_row(line: &[u8]) -> Option<Command<'_>>
    ensures same { option_map command_of result ≡ bind_row line.now }
{
    let (name, rest) = next_word(line);
    let (client, rest) = next_word(rest);
    let (interface, rest) = next_word(rest);
    let (service, rest) = next_word(rest);
    if !is_name(name) || !is_name(client) || !is_name(interface) || !is_name(service) {
        return None;
    }
    let Some(back_end) = back_end_row(rest) else {
        return None;
    };
    Some(Command::Bind {
        name,
        client,
        interface,
        service,
        back_end,
    })
}

fn call_row(line: &[u8]) -> Option<Command<'_>>
    ensures same { option_map command_of result ≡ call_row line.now }
{
    let (word, rest) = next_word(line);
    let Some(end) = end_name(word) else {
        return None;
    };
    Some(Command::Call(end, skip_blanks(rest)))
}

fn turn_row(line: &[u8]) -> Option<Command<'_>>
    ensures same { option_map command_of result ≡ turn_row line.now }
{
    let (dispatcher, rest) = next_word(line);
    if !is_name(dispatcher) || !is_last(rest) {
        return None;
    }
    Some(Command::Turn(dispatcher))
}

#[inline(never)]
fn reply_row(line: &[u8]) -> Option<Command<'_>>
    ensures same { option_map command_of result ≡ reply_row line.now }
{
    let (word, rest) = next_word(line);
    let Some(end) = end_name(word) else {
        return None;
    };
    let (message, rest) = next_word(rest);
    let (answer, rest) = next_word(rest);
    if !is_name(message) || !is_name(answer) || !is_last(rest) {
        return None;
    }
    Some(Command::Reply {
        end,
        message,
        answer,
    })
}

// The verb of a line that makes something, or registers an end.
fn making_verb(word: &[u8]) -> Verb
    ensures same { result ≡ making_verb_of word.now }
{
    if is_text(word, b"bind") {
        Verb::Bind
    } else if is_text(word, b"disp") {
        Verb::Disp
    } else if is_text(word, b"export") {
        Verb::Export
    } else if is_text(word, b"link") {
        Verb::Link
    } else if is_text(word, b"cores") {
        Verb::Cores
    } else if is_text(word, b"register") {
        Verb::Register
    } else if is_text(word, b"deregister") {
        Verb::Deregister
    } else if is_text(word, b"reply") {
        Verb::Reply
    } else if is_text(word, b"idl") {
        Verb::Idl
    } else {
        Verb::Unknown
    }
}

fn read_verb(word: &[u8]) -> Verb
    ensures same { result ≡ verb_of word.now }
{
    if is_text(word, b"call") {
        Verb::Call
    } else if is_text(word, b"write") {
        Verb::Write
    } else if is_text(word, b"turn") {
        Verb::Turn
    } else if is_text(word, b"ack") {
        Verb::Ack
    } else if is_text(word, b"forward") {
        Verb::Forward
    } else if is_text(word, b"mack") {
        Verb::Mack
    } else if is_text(word, b"mwrite") {
        Verb::Mwrite
    } else if is_text(word, b"show") {
        Verb::Show
    } else {
        making_verb(word)
    }
}

fn mwrite_row(line: &[u8]) -> Option<Command<'_>>
    ensures same { option_map command_of result ≡ with_cores mwrite line.now }
{
    let (core, neighbour) = two_numbers(line)?;
    Some(Command::MonitorWrite { core, neighbour })
}

fn forward_row(line: &[u8]) -> Option<Command<'_>>
    ensures same { option_map command_of result ≡ with_cores forward line.now }
{
    let (core, neighbour) = two_numbers(line)?;
    Some(Command::Forward { core, neighbour })
}

fn mack_row(line: &[u8]) -> Option<Command<'_>>
    ensures same { option_map command_of result ≡ with_cores mack line.now }
{
    let (core, neighbour) = two_numbers(line)?;
    Some(Command::MonitorAck { core, neighbour })
}

/// The command of a line that begins with this word, from what stands behind it. Takes no memory.
pub fn read_command(verb: Verb, rest: &[u8]) -> Option<Command<'_>>
    ensures same { option_map command_of result ≡ command_by verb rest.now }
{
    match verb {
        Verb::Cores => Some(Command::Cores(one_number(rest)?)),
        Verb::Link => link_row(rest),
        Verb::Disp => disp_row(rest),
        Verb::Export => export_row(rest),
        Verb::Bind => bind_row(rest),
        Verb::Call => call_row(rest),
        Verb::Show => Some(Command::Show(one_end(rest)?)),
        Verb::Write => Some(Command::Write(one_end(rest)?)),
        Verb::Turn => turn_row(rest),
        Verb::Ack => Some(Command::Ack(one_end(rest)?)),
        Verb::Register => Some(Command::Register(one_end(rest)?)),
        Verb::Deregister => Some(Command::Deregister(one_end(rest)?)),
        Verb::Reply => reply_row(rest),
        Verb::Mwrite => mwrite_row(rest),
        Verb::Forward => forward_row(rest),
        Verb::Mack => mack_row(rest),
        Verb::Idl | Verb::Unknown => None,
    }
}

// The line of an `idl`, from what stands behind it.
fn read_heading(rest: &[u8]) -> LineHead<'static>
    ensures same { opening_of result ≡ heading_by rest.now }
{
    let (plan, rest) = next_word(rest);
    if plan.is_empty() {
        return LineHead::Heading(PlanNo::Two);
    }
    if is_text(plan, b"1") && is_last(rest) {
        return LineHead::Heading(PlanNo::One);
    }
    LineHead::Unread
}

// What stands behind these bytes, where a line begins with them.
#[inline(always)]
fn behind<'a>(line: &'a [u8], bytes: &[u8]) -> Option<&'a [u8]>
    ensures told { IfSome result (λ rest. line.now ≡ bytes.now ++ rest.now) }
{
    line.strip_prefix(bytes)
}

// The verb of a line that is repeated, where a space stands behind it, and what stands behind that.
#[inline(always)]
pub(crate) fn read_repeated(line: &[u8]) -> Option<(Verb, &[u8])>
    ensures told { IfSome result (λ p. line_with (command_by p.0 p.1.now) ≡ read_line line.now) }
{
    if let Some(rest) = behind(line, b"call ") {
        return Some((Verb::Call, rest));
    }
    if let Some(rest) = behind(line, b"write ") {
        return Some((Verb::Write, rest));
    }
    if let Some(rest) = behind(line, b"turn ") {
        return Some((Verb::Turn, rest));
    }
    if let Some(rest) = behind(line, b"show ") {
        return Some((Verb::Show, rest));
    }
    if let Some(rest) = behind(line, b"ack ") {
        return Some((Verb::Ack, rest));
    }
    if let Some(rest) = behind(line, b"forward ") {
        return Some((Verb::Forward, rest));
    }
    None
}

// What a line is by its first word.
#[inline(never)]
fn read_any_opening(line: &[u8]) -> LineHead<'_>
    ensures same { opening_of result ≡ read_line line.now }
{
    let (word, rest) = next_word(line);
    if begins_comment(word) {
        return LineHead::Silent;
    }
    let verb = read_verb(word);
    if verb == Verb::Idl {
        return read_heading(rest);
    }
    LineHead::Command(verb, rest)
}

// The same, told at once of a line that is repeated.
#[inline(always)]
fn read_opening(line: &[u8]) -> LineHead<'_>
    ensures same { opening_of result ≡ read_line line.now }
{
    match read_repeated(line) {
        Some((verb, rest)) => LineHead::Command(verb, rest),
        None => read_any_opening(line),
    }
}

/// What a line, without its end, is by its first word. Takes no memory.
#[inline(always)]
pub fn open_line(line: &[u8]) -> LineHead<'_>
    ensures line { LineIs line.now (opening_of result) }
{
    read_opening(line)
}

// The line of a command that was read, or of none.
fn line_with(command: Option<Command<'_>>) -> Line<'_>
    ensures same { line_of result ≡ line_with (option_map command_of command.entry) }
{
    match command {
        None => Line::Unread,
        Some(command) => Line::Command(command),
    }
}

fn read_line(line: &[u8]) -> Line<'_>
    ensures same { line_of result ≡ read_line line.now }
{
    match read_opening(line) {
        LineHead::Silent => Line::Silent,
        LineHead::Heading(plan) => Line::Heading(plan),
        LineHead::Command(verb, rest) => line_with(read_command(verb, rest)),
        LineHead::Unread => Line::Unread,
    }
}

/// What a line, without its end, is. Takes no memory.
pub fn parse_line(line: &[u8]) -> Line<'_>
    ensures line { LineIs line.now (line_of result) }
{
    read_line(line)
}
