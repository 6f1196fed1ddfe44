//! What is printed of a cores file: the line that is refused, or the report of its run.

ghost use Rattle.std.specs.Prelude.{◌≡◌, ◌≤◌, ◌++◌, ◌∷◌, [], ◌==◌, OnOk, OnErr, IfOk, map, length, position};
ghost use Rattle.std.specs.List.{flat_map, range_with_len};
ghost use Rattle.std.specs.Fmt.{decimal};
ghost use Rattle.fl_base.specs.declared.identity.Side.TheVariants.{Client, Server};
ghost use Rattle.fl_value_data.specs.Value.{call_of};
ghost use Rattle.fl_compact_calls.specs.Held.{one_number};
ghost use Rattle.fl_model.specs.Events.{handle, opening_refused};
ghost use Rattle.fl_script_lines.specs.Answers.{answer_text, line};
ghost use Rattle.fl_script_lines.specs.Tables.{table_of};
ghost use Rattle.fl_script_lines.specs.Told.{names_of};
ghost use Rattle.fl_cores_file.specs.Files.{file_from};
ghost use Rattle.fl_cores_file.specs.Printed.{refusal_text, comes_before, rank_of, ranks_of, end_at, head_text, handled_text};
ghost use Rattle.fl_cores_file.specs.Printed.{binding_text, text_at_rank, ending_text, report_text};
ghost use Rattle.fl_cores_file.specs.Report.{at_end, refusal_of};
ghost use Rattle.fl_cores_file.specs.Reports.{both_of, ending_of, report_of};

use crate::file::{CoresFile, end_by, number_at};
use crate::report::{CallsByEnd, Ending, Report};
use fl_base::{EndId, MsgNo, Side};
use fl_compact_calls::{CompactCall, NumberCall};
use fl_model::Answer;
use fl_script_lines::{NameTable, ScriptNames, print_answer, put_end};
use fl_value::print_call;
use fl_value_data::Call;
use itoa::Buffer;
use std::alloc::{AllocError, Global};

/// Appends the line that tells of a refused line, and of the fault.
///
/// # Errors
/// Out of memory; `out` is as it was then.
pub fn print_refusal(
    alloc: Global,
    out: &mut Vec<u8>,
    line: usize,
    number: u8,
) -> Result<(), AllocError>
    ensures printed { OnOk result (out.new.items ≡ out.old.items ++ refusal_text line number) }
    ensures kept { OnErr result (out.new.items ≡ out.old.items) }
{
    let text = format!(in alloc; "line {line} refused E{number}\n")?;
    out.extend_from_slice(text.as_bytes())
}

// Whether a name stands before another, byte by byte.
fn comes_before(one: &[u8], other: &[u8]) -> bool
    ensures same { result ≡ comes_before one.now other.now }
{
    let [b, others @ ..] = other else {
        return false;
    };
    let [a, ones @ ..] = one else {
        return true;
    };
    if *a == *b {
        return comes_before(ones, others);
    }
    *a < *b
}

// The names of a table, in order.
fn list_names<'a>(alloc: Global, names: &'a NameTable) -> Result<Vec<&'a [u8]>, AllocError>
    ensures names { IfOk result (λ v. map (λ n. n.now) v.items ≡ table_of names.now) }
{
    let mut list = Vec::new(alloc);
    for name in names.set.iter() {
        list.push(name.as_slice())?;
    }
    Ok(list)
}

// How many of the names stand before this one.
fn rank_of(names: &[&[u8]], name: &[u8]) -> usize
    ensures rank { result ≡ rank_of (map (λ n. n.now) names.now) name.now }
    ensures few { result ≤ length names.now }
{
    let mut rank = 0;
    for other in names {
        if comes_before(other, name) {
            rank += 1;
        }
    }
    rank
}

// Of each name how many stand before it.
fn rank_all(alloc: Global, names: &[&[u8]]) -> Result<Vec<usize>, AllocError>
    ensures ranks { IfOk result (λ v. v.items ≡ map (rank_of (map (λ n. n.now) names.now)) (map (λ n. n.now) names.now)) }
{
    let mut ranks = Vec::new(alloc);
    for name in names {
        ranks.push(rank_of(names, name))?;
    }
    Ok(ranks)
}

// The calls that an end handled.
fn calls_at(handled: &[CallsByEnd], end: EndId) -> &[CompactCall]
    ensures calls { map call_of result.now ≡ at_end (map both_of handled.now) end }
{
    let Some(both) = handled.get(end.binding) else {
        return &[];
    };
    match end.side {
        Side::Client => &both.client,
        Side::Server => &both.server,
    }
}

// A call that was handled at an end.
fn put_call(
    alloc: Global,
    out: &mut Vec<u8>,
    names: &ScriptNames,
    end: EndId,
    call: &Call,
) -> Result<(), AllocError>
    ensures ok { OnOk result (out.new.items ≡ out.old.items ++ line (answer_text (names_of names.now) (handle end (call_of call.now)))) }
{
    out.extend_from_slice(b"handle ")?;
    put_end(out, names, end)?;
    out.extend_from_slice(b" ")?;
    print_call(alloc, out, names.message_name(end, call.msg), &call.args)?;
    out.extend_from_slice(b"\n")
}

// What stands before the arguments in each line of a call of a message that an end handled.
#[derive(Drop)]
struct LineHead {
    msg: MsgNo,
    text: Vec<u8>,
}

#[inline(never)]
fn head_of(
    alloc: Global,
    names: &ScriptNames,
    end: EndId,
    msg: MsgNo,
) -> Result<LineHead, AllocError>
    ensures msg { IfOk result (λ head. head.msg ≡ msg) }
    ensures text { IfOk result (λ head. head.text.items ≡ head_text (names_of names.now) end msg.0) }
{
    let mut text = Vec::new(alloc);
    text.extend_from_slice(b"handle ")?;
    put_end(&mut text, names, end)?;
    text.extend_from_slice(b" ")?;
    text.extend_from_slice(names.message_name(end, msg))?;
    text.extend_from_slice(b"(")?;
    Ok(LineHead { msg, text })
}

// What stands behind that in the line of a call of one number.
#[inline(always)]
fn put_number(out: &mut Vec<u8>, head: &[u8], number: u64) -> Result<(), AllocError>
    ensures ok { OnOk result (out.new.items ≡ out.old.items ++ (head.now ++ (decimal number ++ 41 ∷ 10 ∷ []))) }
{
    let mut buffer = Buffer::new();
    out.extend_from_slice(head)?;
    out.extend_from_slice(buffer.format(number).as_bytes())?;
    out.extend_from_slice(b")\n")
}

// The line of a call of one number, behind the head of its message.
#[inline(always)]
fn put_number_line(
    out: &mut Vec<u8>,
    names: &ScriptNames,
    end: EndId,
    head: &LineHead,
    call: &CompactCall,
    number: u64,
) -> Result<(), AllocError>
    requires head { head.now.text.items ≡ head_text (names_of names.now) end (call_of call.now).msg }
    requires number { (call_of call.now).args ≡ one_number number }
    ensures ok { OnOk result (out.new.items ≡ out.old.items ++ line (answer_text (names_of names.now) (handle end (call_of call.now)))) }
{
    put_number(out, &head.text, number)
}

// The head is that of the message.
#[inline(always)]
fn be_head_of(
    alloc: Global,
    names: &ScriptNames,
    end: EndId,
    head: &mut LineHead,
    msg: MsgNo,
) -> Result<(), AllocError>
    requires head { head.old.text.items ≡ head_text (names_of names.now) end head.old.msg.0 }
    ensures head { head.new.text.items ≡ head_text (names_of names.now) end head.new.msg.0 }
    ensures msg { OnOk result (head.new.text.items ≡ head_text (names_of names.now) end msg.0) }
{
    if head.msg.0 == msg.0 {
        return Ok(());
    }
    *head = head_of(alloc, names, end, msg)?;
    Ok(())
}

// The line of a call that an end handled, behind the head of its message where that can be.
#[inline(always)]
fn put_line(
    alloc: Global,
    out: &mut Vec<u8>,
    names: &ScriptNames,
    end: EndId,
    head: &mut LineHead,
    spare: &mut NumberCall,
    call: &CompactCall,
) -> Result<(), AllocError>
    requires head { head.old.text.items ≡ head_text (names_of names.now) end head.old.msg.0 }
    ensures head { head.new.text.items ≡ head_text (names_of names.now) end head.new.msg.0 }
    ensures ok { OnOk result (out.new.items ≡ out.old.items ++ line (answer_text (names_of names.now) (handle end (call_of call.now)))) }
{
    match call.number() {
        None => put_call(alloc, out, names, end, call.lend(spare)),
        Some(number) => {
            be_head_of(alloc, names, end, head, call.msg())?;
            put_number_line(out, names, end, head, call, number)
        }
    }
}

// The calls that an end handled, a line each.
fn put_calls(
    alloc: Global,
    out: &mut Vec<u8>,
    names: &ScriptNames,
    end: EndId,
    calls: &[CompactCall],
) -> Result<(), AllocError>
    ensures ok { OnOk result (out.new.items ≡ out.old.items ++ flat_map (λ c. line (answer_text (names_of names.now) (handle end c))) (map call_of calls.now)) }
{
    let mut spare = NumberCall::new(alloc)?;
    let mut head = head_of(alloc, names, end, MsgNo(0))?;
    for call in calls {
        put_line(alloc, out, names, end, &mut head, &mut spare, call)?;
    }
    Ok(())
}

fn put_handled(
    alloc: Global,
    out: &mut Vec<u8>,
    file: &CoresFile<'_>,
    report: &Report,
    end: EndId,
) -> Result<(), AllocError>
    ensures ok { OnOk result (out.new.items ≡ out.old.items ++ handled_text (file_from file.now) (report_of report.now) end) }
{
    let calls = calls_at(&report.handled, end_by(&file.numbers, end));
    put_calls(alloc, out, &file.names, end, calls)
}

// The fault for which a binding's opening was refused.
fn refusal_of(report: &Report, binding: usize) -> Option<u32>
    ensures same { result ≡ refusal_of (report_of report.now) binding }
{
    match report.refused.get(binding) {
        None => None,
        Some(fault) => *fault,
    }
}

fn put_refused(
    alloc: Global,
    out: &mut Vec<u8>,
    names: &ScriptNames,
    number: u32,
    place: usize,
) -> Result<(), AllocError>
    ensures ok { OnOk result (out.new.items ≡ out.old.items ++ line (answer_text (names_of names.now) (opening_refused number (end_at place Client)))) }
{
    let end = EndId {
        binding: place,
        side: Side::Client,
    };
    print_answer(alloc, out, names, &Answer::OpeningRefused { number, end })?;
    out.extend_from_slice(b"\n")
}

fn put_both(
    alloc: Global,
    out: &mut Vec<u8>,
    file: &CoresFile<'_>,
    report: &Report,
    place: usize,
) -> Result<(), AllocError>
    ensures ok { OnOk result (out.new.items ≡ out.old.items ++ (handled_text (file_from file.now) (report_of report.now) (end_at place Client)
        ++ handled_text (file_from file.now) (report_of report.now) (end_at place Server))) }
{
    let client = EndId {
        binding: place,
        side: Side::Client,
    };
    put_handled(alloc, out, file, report, client)?;
    put_handled(alloc, out, file, report, client.peer())
}

// A binding, by its place among the `bind` lines.
fn put_binding(
    alloc: Global,
    out: &mut Vec<u8>,
    file: &CoresFile<'_>,
    report: &Report,
    place: usize,
) -> Result<(), AllocError>
    ensures ok { OnOk result (out.new.items ≡ out.old.items ++ binding_text (file_from file.now) (report_of report.now) place) }
{
    match refusal_of(report, number_at(&file.numbers, place)) {
        None => put_both(alloc, out, file, report, place),
        Some(number) => put_refused(alloc, out, &file.names, number, place),
    }
}

// The place of a rank.
fn find(ranks: &[usize], rank: usize) -> Option<usize>
    ensures place { result ≡ position (λ one. one == rank) ranks.now }
{
    ranks.iter().position(|one| *one == rank)
}

// The binding before whose name so many come.
fn put_rank(
    alloc: Global,
    out: &mut Vec<u8>,
    file: &CoresFile<'_>,
    report: &Report,
    ranks: &[usize],
    rank: usize,
) -> Result<(), AllocError>
    requires ranks { ranks.now ≡ ranks_of (table_of file.now.names.bindings) }
    ensures ok { OnOk result (out.new.items ≡ out.old.items ++ text_at_rank (file_from file.now) (report_of report.now) rank) }
{
    match find(ranks, rank) {
        None => Ok(()),
        Some(place) => put_binding(alloc, out, file, report, place),
    }
}

fn put_bindings(
    alloc: Global,
    out: &mut Vec<u8>,
    file: &CoresFile<'_>,
    report: &Report,
    ranks: &[usize],
) -> Result<(), AllocError>
    requires ranks { ranks.now ≡ ranks_of (table_of file.now.names.bindings) }
    ensures ok { OnOk result (out.new.items ≡ out.old.items
        ++ flat_map (text_at_rank (file_from file.now) (report_of report.now)) (range_with_len 0 (length (table_of file.now.names.bindings)))) }
{
    for rank in 0..ranks.len() {
        put_rank(alloc, out, file, report, ranks, rank)?;
    }
    Ok(())
}

fn put_ending(out: &mut Vec<u8>, ending: Ending) -> Result<(), AllocError>
    ensures ok { OnOk result (out.new.items ≡ out.old.items ++ line (ending_text (ending_of ending))) }
{
    match ending {
        Ending::Complete => out.extend_from_slice(b"complete\n"),
        Ending::TurnsOut => out.extend_from_slice(b"turns out\n"),
    }
}

// Of each name of a table how many stand before it.
fn rank_names(alloc: Global, names: &NameTable) -> Result<Vec<usize>, AllocError>
    ensures ranks { IfOk result (λ v. v.items ≡ ranks_of (table_of names.now)) }
{
    let list = list_names(alloc, names)?;
    rank_all(alloc, &list)
}

fn put_report(
    alloc: Global,
    out: &mut Vec<u8>,
    file: &CoresFile<'_>,
    report: &Report,
) -> Result<(), AllocError>
    ensures ok { OnOk result (out.new.items ≡ out.old.items ++ report_text (file_from file.now) (report_of report.now)) }
{
    let ranks = rank_names(alloc, &file.names.bindings)?;
    put_bindings(alloc, out, file, report, &ranks)?;
    put_ending(out, report.ending)
}

/// Appends the text of a report, by the names of its cores file: all of it or nothing.
///
/// # Errors
/// Out of memory; `out` is as it was then.
pub fn print_report(
    alloc: Global,
    out: &mut Vec<u8>,
    file: &CoresFile<'_>,
    report: &Report,
) -> Result<(), AllocError>
    ensures printed { OnOk result (out.new.items ≡ out.old.items ++ report_text (file_from file.now) (report_of report.now)) }
    ensures kept { OnErr result (out.new.items ≡ out.old.items) }
{
    let mut text = Vec::new(alloc);
    put_report(alloc, &mut text, file, report)?;
    if out.is_empty() {
        *out = text;
        return Ok(());
    }
    out.extend_from_slice(&text)
}
