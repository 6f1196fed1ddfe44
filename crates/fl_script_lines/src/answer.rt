//! The texts of answers.

ghost use Rattle.std.specs.Prelude.{◌≡◌, ◌++◌, ◌<◌, OnOk, OnErr, codes, false, take};
ghost use Rattle.std.specs.Fmt.{decimal, digit_glyph};
ghost use Rattle.fl_base.specs.Prefix.{IsPrefix};
ghost use Rattle.fl_value_data.specs.Value.{call_of};
ghost use Rattle.fl_value.specs.Printed.{printed_call};
ghost use Rattle.fl_compact_calls.specs.Held.{one_number};
ghost use Rattle.fl_script_lines.specs.Answers.{hex, frag_text, end_named, call_at, answer_text, fault_text};
ghost use Rattle.fl_model.specs.Views.{answer_of, brief_of, turned_of};
ghost use Rattle.fl_script_lines.specs.Told.{names_of};

use crate::names::ScriptNames;
use fl_base::{EndId, Frag, Side};
use fl_compact_calls::{CompactCall, SeenCall};
use fl_model::{Answer, BriefAnswer, TurnedAnswer};
use fl_value::print_call;
use fl_value_data::Value;
use std::alloc::{AllocError, Global};

// A number, digit by digit.
#[tactic(auto, using(crate::proofs::Kept::pieces))]
fn put_number(out: &mut Vec<u8>, number: usize) -> Result<(), AllocError>
    ensures ok { OnOk result (out.new.items ≡ out.old.items ++ decimal number) }
    ensures grows { IsPrefix out.old.items out.new.items }
{
    if number < 10 {
        out.push(b'0' + number as u8)?;
        return Ok(());
    }
    put_number(out, number / 10)?;
    out.push(b'0' + (number % 10) as u8)?;
    Ok(())
}

fn digit(value: u8) -> u8
    requires { value < 16 }
    ensures { result ≡ digit_glyph false value }
{
    let digits: &[u8; 16] = b"0123456789abcdef";
    digits[usize::from(value)]
}

// A word's 16 digits, and a space behind them.
fn spaced_digits(word: u64) -> [u8; 17]
    ensures { result ≡ hex word ++ codes " " }
{
    let [a, b, c, d, e, f, g, h] = word.to_be_bytes();
    [
        digit(a / 16),
        digit(a % 16),
        digit(b / 16),
        digit(b % 16),
        digit(c / 16),
        digit(c % 16),
        digit(d / 16),
        digit(d % 16),
        digit(e / 16),
        digit(e % 16),
        digit(f / 16),
        digit(f % 16),
        digit(g / 16),
        digit(g % 16),
        digit(h / 16),
        digit(h % 16),
        b' ',
    ]
}

// A word in hexadecimal, and a space behind it; most words of a short call's fragment are 0.
#[tactic(auto, using(crate::proofs::Kept::pieces))]
fn put_spaced(out: &mut Vec<u8>, word: u64) -> Result<(), AllocError>
    ensures ok { OnOk result (out.new.items ≡ out.old.items ++ (hex word ++ codes " ")) }
    ensures grows { IsPrefix out.old.items out.new.items }
{
    if word == 0 {
        return out.extend_from_slice(b"0000000000000000 ");
    }
    let digits = spaced_digits(word);
    out.extend_from_slice(digits.as_slice())
}

// A word in hexadecimal.
#[tactic(auto, using(crate::proofs::Kept::pieces))]
fn put_last(out: &mut Vec<u8>, word: u64) -> Result<(), AllocError>
    ensures ok { OnOk result (out.new.items ≡ out.old.items ++ hex word) }
    ensures grows { IsPrefix out.old.items out.new.items }
{
    let digits = spaced_digits(word);
    out.extend_from_slice(&digits[..16])
}

// Eight words in hexadecimal, the control word last.
#[tactic(auto, using(crate::proofs::Kept::pieces))]
fn put_frag(out: &mut Vec<u8>, frag: &Frag) -> Result<(), AllocError>
    ensures ok { OnOk result (out.new.items ≡ out.old.items ++ frag_text frag.now) }
    ensures grows { IsPrefix out.old.items out.new.items }
{
    for word in frag.words {
        put_spaced(out, word)?;
    }
    put_last(out, frag.control)
}

/// Appends an end: its binding's name, and `.c` or `.s`.
///
/// # Errors
/// Out of memory; `out` may have grown then.
#[tactic(auto, using(crate::proofs::Kept::pieces))]
#[inline(always)]
pub fn put_end(out: &mut Vec<u8>, names: &ScriptNames, end: EndId) -> Result<(), AllocError>
    ensures ok { OnOk result (out.new.items ≡ out.old.items ++ end_named (names_of names.now) end) }
    ensures grows { IsPrefix out.old.items out.new.items }
{
    out.extend_from_slice(names.bindings.get(end.binding).unwrap_or(&[]))?;
    match end.side {
        Side::Client => out.extend_from_slice(b".c"),
        Side::Server => out.extend_from_slice(b".s"),
    }
}

// The same, and a space.
#[tactic(auto, using(crate::proofs::Kept::pieces))]
#[inline(always)]
fn put_spaced_end(out: &mut Vec<u8>, names: &ScriptNames, end: EndId) -> Result<(), AllocError>
    ensures ok { OnOk result (out.new.items ≡ out.old.items ++ (end_named (names_of names.now) end ++ codes " ")) }
    ensures grows { IsPrefix out.old.items out.new.items }
{
    out.extend_from_slice(names.bindings.get(end.binding).unwrap_or(&[]))?;
    match end.side {
        Side::Client => out.extend_from_slice(b".c "),
        Side::Server => out.extend_from_slice(b".s "),
    }
}

// A word, a space and an end.
#[tactic(auto, using(crate::proofs::Kept::pieces))]
fn put_of_end(
    out: &mut Vec<u8>,
    word: &[u8],
    names: &ScriptNames,
    end: EndId,
) -> Result<(), AllocError>
    ensures ok { OnOk result (out.new.items ≡ out.old.items ++ (word.now ++ end_named (names_of names.now) end)) }
    ensures grows { IsPrefix out.old.items out.new.items }
{
    out.extend_from_slice(word)?;
    put_end(out, names, end)
}

// The text of a fragment that was written, whatever its number and how many there are.
#[tactic(auto, using(crate::proofs::Kept::pieces))]
#[inline(never)]
fn put_any_written(out: &mut Vec<u8>, k: usize, n: usize) -> Result<(), AllocError>
    ensures ok { OnOk result (out.new.items ≡ out.old.items ++ (codes "written " ++ decimal k ++ codes " of " ++ decimal n)) }
    ensures grows { IsPrefix out.old.items out.new.items }
{
    out.extend_from_slice(b"written ")?;
    put_number(out, k)?;
    out.extend_from_slice(b" of ")?;
    put_number(out, n)
}

// The same, where a call has fewer than ten.
#[inline(always)]
fn few_written(k: u8, n: u8) -> [u8; 14]
    requires first { k < 10 }
    requires all { n < 10 }
    ensures text { result ≡ codes "written " ++ decimal k ++ codes " of " ++ decimal n }
{
    let (k, n) = (b'0' + k, b'0' + n);
    [
        b'w', b'r', b'i', b't', b't', b'e', b'n', b' ', k, b' ', b'o', b'f', b' ', n,
    ]
}

#[tactic(auto, using(crate::proofs::Kept::pieces))]
fn put_refused(out: &mut Vec<u8>, number: usize) -> Result<(), AllocError>
    ensures ok { OnOk result (out.new.items ≡ out.old.items ++ (codes "refused E" ++ decimal number)) }
    ensures grows { IsPrefix out.old.items out.new.items }
{
    out.extend_from_slice(b"refused E")?;
    put_number(out, number)
}

// A call of one number.
#[tactic(auto, using(crate::proofs::Kept::pieces))]
#[inline(always)]
fn put_number_call(
    alloc: Global,
    out: &mut Vec<u8>,
    name: &[u8],
    number: u64,
) -> Result<(), AllocError>
    ensures ok { OnOk result (out.new.items ≡ out.old.items ++ printed_call name.now (one_number number)) }
    ensures grows { IsPrefix out.old.items out.new.items }
{
    let args = [Value::Int(i128::from(number))];
    print_call(alloc, out, name, &args)
}

// A call that was handled at an end.
#[tactic(auto, using(crate::proofs::Kept::pieces))]
fn put_call(
    alloc: Global,
    out: &mut Vec<u8>,
    names: &ScriptNames,
    end: EndId,
    call: &CompactCall,
) -> Result<(), AllocError>
    ensures ok { OnOk result (out.new.items ≡ out.old.items ++ call_at (names_of names.now) end (call_of call.now)) }
    ensures grows { IsPrefix out.old.items out.new.items }
{
    match call.seen() {
        SeenCall::Number(msg, number) => put_number_call(
            alloc,
            out,
            names.message_name(end, msg),
            number,
        ),
        SeenCall::Other(call) => print_call(
            alloc,
            out,
            names.message_name(end, call.msg),
            &call.args,
        ),
    }
}

// The same, behind its word and the end.
#[tactic(auto, using(crate::proofs::Kept::pieces))]
#[inline(always)]
fn put_handled(
    alloc: Global,
    out: &mut Vec<u8>,
    names: &ScriptNames,
    end: EndId,
    call: &CompactCall,
) -> Result<(), AllocError>
    ensures ok { OnOk result (out.new.items ≡ out.old.items
        ++ (codes "handle " ++ end_named (names_of names.now) end ++ codes " " ++ call_at (names_of names.now) end (call_of call.now))) }
    ensures grows { IsPrefix out.old.items out.new.items }
{
    out.extend_from_slice(b"handle ")?;
    put_spaced_end(out, names, end)?;
    put_call(alloc, out, names, end, call)
}

// A refused opening.
#[tactic(auto, using(crate::proofs::Kept::pieces))]
fn put_opening_refused(
    out: &mut Vec<u8>,
    number: u32,
    names: &ScriptNames,
    end: EndId,
) -> Result<(), AllocError>
    ensures ok { OnOk result (out.new.items ≡ out.old.items
        ++ (codes "refused E" ++ decimal number ++ codes " " ++ end_named (names_of names.now) end)) }
    ensures grows { IsPrefix out.old.items out.new.items }
{
    put_refused(out, number as usize)?;
    put_of_end(out, b" ", names, end)
}

// Hands on what came of an append. Where it failed, all behind so many bytes is taken back.
#[inline(always)]
fn all_or_none(
    out: &mut Vec<u8>,
    before: usize,
    put: Result<(), AllocError>,
) -> Result<(), AllocError>
    ensures same { result ≡ put }
    ensures all { OnOk put (out.new.items ≡ out.old.items) }
    ensures none { OnErr put (out.new.items ≡ take before out.old.items) }
{
    if put.is_err() {
        out.truncate(before);
    }
    put
}

// A text in one append.
#[inline(always)]
fn print_text(out: &mut Vec<u8>, text: &[u8]) -> Result<(), AllocError>
    ensures printed { OnOk result (out.new.items ≡ out.old.items ++ text.now) }
    ensures kept { OnErr result (out.new.items ≡ out.old.items) }
{
    out.extend_from_slice(text)
}

// Fragment k of n was written, whatever these are.
#[tactic(auto, using(crate::proofs::Kept::taken_back))]
#[inline(never)]
fn print_any_written(out: &mut Vec<u8>, k: usize, n: usize) -> Result<(), AllocError>
    ensures printed { OnOk result (out.new.items ≡ out.old.items ++ (codes "written " ++ decimal k ++ codes " of " ++ decimal n)) }
    ensures kept { OnErr result (out.new.items ≡ out.old.items) }
{
    let before = out.as_slice().len();
    let put = put_any_written(out, k, n);
    all_or_none(out, before, put)
}

// Fragment k of n was written; most calls have fewer than ten.
#[inline(always)]
fn print_written(out: &mut Vec<u8>, k: usize, n: usize) -> Result<(), AllocError>
    ensures printed { OnOk result (out.new.items ≡ out.old.items ++ (codes "written " ++ decimal k ++ codes " of " ++ decimal n)) }
    ensures kept { OnErr result (out.new.items ≡ out.old.items) }
{
    if k < 10 && n < 10 {
        let text = few_written(k as u8, n as u8);
        return print_text(out, text.as_slice());
    }
    print_any_written(out, k, n)
}

// A call that was handled, all of it or nothing.
#[tactic(auto, using(crate::proofs::Kept::taken_back))]
#[inline(never)]
fn print_handled(
    alloc: Global,
    out: &mut Vec<u8>,
    names: &ScriptNames,
    end: EndId,
    call: &CompactCall,
) -> Result<(), AllocError>
    ensures printed { OnOk result (out.new.items ≡ out.old.items
        ++ (codes "handle " ++ end_named (names_of names.now) end ++ codes " " ++ call_at (names_of names.now) end (call_of call.now))) }
    ensures kept { OnErr result (out.new.items ≡ out.old.items) }
{
    let before = out.as_slice().len();
    let put = put_handled(alloc, out, names, end, call);
    all_or_none(out, before, put)
}

// A word, a space and an end, all of it or nothing.
#[tactic(auto, using(crate::proofs::Kept::taken_back))]
#[inline(never)]
fn print_of_end(
    out: &mut Vec<u8>,
    word: &[u8],
    names: &ScriptNames,
    end: EndId,
) -> Result<(), AllocError>
    ensures printed { OnOk result (out.new.items ≡ out.old.items ++ (word.now ++ end_named (names_of names.now) end)) }
    ensures kept { OnErr result (out.new.items ≡ out.old.items) }
{
    let before = out.as_slice().len();
    let put = put_of_end(out, word, names, end);
    all_or_none(out, before, put)
}

// A refused opening, all of it or nothing.
#[tactic(auto, using(crate::proofs::Kept::taken_back))]
#[inline(never)]
fn print_opening_refused(
    out: &mut Vec<u8>,
    number: u32,
    names: &ScriptNames,
    end: EndId,
) -> Result<(), AllocError>
    ensures printed { OnOk result (out.new.items ≡ out.old.items ++ (codes "refused E" ++ decimal number ++ codes " " ++ end_named (names_of names.now) end)) }
    ensures kept { OnErr result (out.new.items ≡ out.old.items) }
{
    let before = out.as_slice().len();
    let put = put_opening_refused(out, number, names, end);
    all_or_none(out, before, put)
}

// Eight words, all of them or nothing.
#[tactic(auto, using(crate::proofs::Kept::taken_back))]
#[inline(never)]
fn print_frag(out: &mut Vec<u8>, frag: &Frag) -> Result<(), AllocError>
    ensures printed { OnOk result (out.new.items ≡ out.old.items ++ frag_text frag.now) }
    ensures kept { OnErr result (out.new.items ≡ out.old.items) }
{
    let before = out.as_slice().len();
    let put = put_frag(out, frag);
    all_or_none(out, before, put)
}

// A refusal, all of it or nothing.
#[tactic(auto, using(crate::proofs::Kept::taken_back))]
#[inline(never)]
fn print_refused(out: &mut Vec<u8>, number: usize) -> Result<(), AllocError>
    ensures printed { OnOk result (out.new.items ≡ out.old.items ++ (codes "refused E" ++ decimal number)) }
    ensures kept { OnErr result (out.new.items ≡ out.old.items) }
{
    let before = out.as_slice().len();
    let put = put_refused(out, number);
    all_or_none(out, before, put)
}

/// Appends the text of an answer, without a line feed, by the names that the script has given.
///
/// # Errors
/// Out of memory; `out` is as it was then.
pub fn print_answer(
    alloc: Global,
    out: &mut Vec<u8>,
    names: &ScriptNames,
    answer: &Answer,
) -> Result<(), AllocError>
    ensures printed { OnOk result (out.new.items ≡ out.old.items ++ answer_text (names_of names.now) (answer_of answer.now)) }
    ensures kept { OnErr result (out.new.items ≡ out.old.items) }
{
    match answer {
        Answer::Done => print_text(out, b"ok"),
        Answer::Accepted => print_text(out, b"accepted"),
        Answer::Nothing => print_text(out, b"nothing"),
        Answer::Full => print_text(out, b"full"),
        Answer::Written { k, n } => print_written(out, *k, *n),
        Answer::Handle { end, call } => print_handled(alloc, out, names, *end, call),
        Answer::Part(end) => print_of_end(out, b"part ", names, *end),
        Answer::Ready(end) => print_of_end(out, b"ready ", names, *end),
        Answer::Quiet(end) => print_of_end(out, b"quiet ", names, *end),
        Answer::Forwarded => print_text(out, b"forwarded"),
        Answer::Opened(end) => print_of_end(out, b"opened ", names, *end),
        Answer::OpeningRefused { number, end } => print_opening_refused(out, *number, names, *end),
        Answer::Words(frag) => print_frag(out, frag),
        Answer::Refused(number) => print_refused(out, usize::from(*number)),
    }
}

/// Appends the text of an answer in brief, without a line feed.
///
/// # Errors
/// Out of memory; `out` is as it was then.
#[inline(always)]
pub fn print_brief(
    out: &mut Vec<u8>,
    names: &ScriptNames,
    answer: BriefAnswer,
) -> Result<(), AllocError>
    ensures printed { OnOk result (out.new.items ≡ out.old.items ++ answer_text (names_of names.now) (brief_of answer)) }
    ensures kept { OnErr result (out.new.items ≡ out.old.items) }
{
    match answer {
        BriefAnswer::Done => print_text(out, b"ok"),
        BriefAnswer::Accepted => print_text(out, b"accepted"),
        BriefAnswer::Nothing => print_text(out, b"nothing"),
        BriefAnswer::Full => print_text(out, b"full"),
        BriefAnswer::Written { k, n } => print_written(out, k, n),
        BriefAnswer::Forwarded => print_text(out, b"forwarded"),
        BriefAnswer::Opened(end) => print_of_end(out, b"opened ", names, end),
        BriefAnswer::OpeningRefused { number, end } => print_opening_refused(
            out, number, names, end,
        ),
        BriefAnswer::Refused(number) => print_refused(out, usize::from(number)),
    }
}

/// Appends the text of a turn's answer, without a line feed; `handled` is the call that was handled, if one was.
///
/// # Errors
/// Out of memory; `out` is as it was then.
#[inline(always)]
pub fn print_turned(
    alloc: Global,
    out: &mut Vec<u8>,
    names: &ScriptNames,
    answer: TurnedAnswer,
    handled: &CompactCall,
) -> Result<(), AllocError>
    ensures printed { OnOk result (out.new.items ≡ out.old.items ++ answer_text (names_of names.now) (turned_of answer (call_of handled.now))) }
    ensures kept { OnErr result (out.new.items ≡ out.old.items) }
{
    match answer {
        TurnedAnswer::Handle(end) => print_handled(alloc, out, names, end, handled),
        TurnedAnswer::Part(end) => print_of_end(out, b"part ", names, end),
        TurnedAnswer::Ready(end) => print_of_end(out, b"ready ", names, end),
        TurnedAnswer::Quiet(end) => print_of_end(out, b"quiet ", names, end),
        TurnedAnswer::Full => print_text(out, b"full"),
        TurnedAnswer::Nothing => print_text(out, b"nothing"),
        TurnedAnswer::Refused(number) => print_refused(out, usize::from(number)),
    }
}

// A fault of an interface's text, and where it stands.
#[tactic(auto, using(crate::proofs::Kept::pieces))]
fn put_fault(out: &mut Vec<u8>, number: u8, offset: usize) -> Result<(), AllocError>
    ensures ok { OnOk result (out.new.items ≡ out.old.items ++ fault_text number offset) }
    ensures grows { IsPrefix out.old.items out.new.items }
{
    put_refused(out, usize::from(number))?;
    out.extend_from_slice(b" at ")?;
    put_number(out, offset)
}

/// Appends `refused En at OFFSET`, for a fault of an interface's text.
///
/// # Errors
/// Out of memory; `out` is as it was then.
#[tactic(auto, using(crate::proofs::Kept::taken_back))]
pub fn print_fault(out: &mut Vec<u8>, number: u8, offset: usize) -> Result<(), AllocError>
    ensures printed { OnOk result (out.new.items ≡ out.old.items ++ fault_text number offset) }
    ensures kept { OnErr result (out.new.items ≡ out.old.items) }
{
    let before = out.as_slice().len();
    let put = put_fault(out, number, offset);
    all_or_none(out, before, put)
}
