//! A recorded run, told as a script.

ghost use Rattle.std.specs.Prelude.{◌≡◌, IfOk, IfErr};
ghost use Rattle.fl_cores_script.specs.Kept.{KeepsToFile};
ghost use Rattle.fl_cores_script.specs.Replays.{Replays};
ghost use Rattle.fl_cores_replay.specs.Reasons.{reason_without, IsToldUnrecorded, IsOfRecord, IsToldOfRecord};

use crate::lines::{FileLines, put_line, split_file};
use crate::no_script::{NoScript, RecordFault};
use crate::order::{OrderedEvent, order_events};
use crate::replay::{Replay, Replayed, ReplayedSides};
use crate::replayed_core::CoreEvent;
use crate::replayed_side::ReplayedSide;
use fl_base::{EndId, LinkId, Side};
use fl_cores::{
    CoresOver, FileLayout, Recording, RunRecord, WiredCores, WiredFile, wire_cores_text,
};
use fl_cores_script::{MAX_SCRIPT, certify, keeps_to_file};
use std::alloc::{AllocError, Global};

// ---- lines of events

// What events are told by.
#[derive(Clone, Copy)]
struct Teller<'a> {
    alloc: Global,
    layout: &'a FileLayout,
    replayed: &'a Replayed<'a>,
    jobs: &'a [&'a [u8]],
}

impl Teller<'_> {
    fn put_link(
        &self,
        out: &mut Vec<u8>,
        verb: &str,
        core: usize,
        link: LinkId,
    ) -> Result<(), AllocError> {
        let neighbour = self.replayed.neighbour(core, link).unwrap_or(0);
        let text = format!(in self.alloc; "{verb} {core} {neighbour}\n")?;
        out.extend_from_slice(text.as_bytes())
    }

    fn put_end(&self, out: &mut Vec<u8>, verb: &[u8], end: EndId) -> Result<(), AllocError> {
        out.extend_from_slice(verb)?;
        if let Some(name) = self.layout.bindings.get(end.binding) {
            out.extend_from_slice(name)?;
        }
        match end.side {
            Side::Client => out.extend_from_slice(b".c\n"),
            Side::Server => out.extend_from_slice(b".s\n"),
        }
    }

    fn put_turn(
        &self,
        out: &mut Vec<u8>,
        core: usize,
        dispatcher: usize,
    ) -> Result<(), AllocError> {
        out.extend_from_slice(b"turn ")?;
        if let Some(names) = self.layout.dispatchers.get(core) {
            if let Some(name) = names.get(dispatcher) {
                out.extend_from_slice(name)?;
            }
        }
        out.extend_from_slice(b"\n")
    }

    fn put_job(&self, out: &mut Vec<u8>, job: usize) -> Result<(), AllocError> {
        match self.jobs.get(job) {
            None => Ok(()),
            Some(line) => put_line(out, *line),
        }
    }

    fn put_event(&self, out: &mut Vec<u8>, at: OrderedEvent) -> Result<(), AllocError> {
        let core = at.core;
        match at.event {
            CoreEvent::Forward(link) => self.put_link(out, "forward", core, link),
            CoreEvent::Say(link) => self.put_link(out, "mwrite", core, link),
            CoreEvent::Tell(link) => self.put_link(out, "mack", core, link),
            CoreEvent::Job(job) => self.put_job(out, job),
            CoreEvent::Write(end) => self.put_end(out, b"write ", end),
            CoreEvent::Ack(end) => self.put_end(out, b"ack ", end),
            CoreEvent::Turn { dispatcher, .. } => self.put_turn(out, core, dispatcher),
        }
    }

    fn put_events(&self, out: &mut Vec<u8>, events: &[OrderedEvent]) -> Result<(), AllocError> {
        for event in events {
            self.put_event(out, *event)?;
        }
        Ok(())
    }
}

// ---- the script

// The script of cores that ran once more: the lines that set up, and then those of their events.
fn tell_replayed<'a>(
    alloc: Global,
    text: &'a [u8],
    layout: &'a FileLayout,
    replayed: &'a Replayed<'a>,
) -> Result<Vec<u8>, RecordFault> {
    let events = order_events(alloc, replayed, &layout.slots)?;
    let FileLines { setup, jobs } = split_file(alloc, text, &layout.done_before)?;
    let teller = Teller {
        alloc,
        layout,
        replayed,
        jobs: &jobs,
    };
    let mut out = setup;
    teller.put_events(&mut out, &events)?;
    Ok(out)
}

// The same of cores that are to run.
fn tell_cores(
    alloc: Global,
    text: &[u8],
    layout: &FileLayout,
    replay: Replay,
    over: &mut CoresOver<ReplayedSide>,
) -> Result<Vec<u8>, RecordFault> {
    let mut replay = replay;
    replay.run(over)?;
    tell_replayed(alloc, text, layout, &Replayed::new(&replay, &over.cores))
}

// The same of cores that are wired, over these sides.
fn tell_wired(
    alloc: Global,
    text: &[u8],
    layout: &FileLayout,
    record: &RunRecord,
    wired: WiredCores,
    sides: ReplayedSides,
) -> Result<Vec<u8>, RecordFault> {
    let ReplayedSides { places, sides } = sides;
    let Ok(over) = wired.over(alloc, sides) else {
        return Err(RecordFault::Memory);
    };
    let mut over = over;
    let told = match Replay::new(alloc, &over.cores, places, record) {
        Ok(replay) => tell_cores(alloc, text, layout, replay, &mut over),
        Err(reason) => Err(reason),
    };
    over.let_go();
    told
}

// The same of a cores file that is wired.
fn tell_file(
    alloc: Global,
    text: &[u8],
    file: WiredFile,
    record: &RunRecord,
) -> Result<Vec<u8>, RecordFault> {
    let WiredFile { wired, layout } = file;
    match ReplayedSides::new(alloc, &wired, &layout.slots, record) {
        Ok(sides) => tell_wired(alloc, text, &layout, record, wired, sides),
        Err(reason) => {
            wired.let_go();
            Err(reason)
        }
    }
}

// The same of a cores file's text.
fn tell_text(alloc: Global, text: &[u8], record: &RunRecord) -> Result<Vec<u8>, RecordFault> {
    match wire_cores_text(alloc, text) {
        Ok(Some(file)) => tell_file(alloc, text, file, record),
        Ok(None) => Err(RecordFault::OtherFile),
        Err(_) => Err(RecordFault::Memory),
    }
}

// Why there is no record of a run, which was to be recorded or not.
fn why_unrecorded(is_on: bool) -> NoScript
    ensures reason { result ≡ reason_without is_on }
{
    if is_on {
        return NoScript::RecordLost;
    }
    NoScript::Unrecorded
}

// A script of what the cores of a file did in a run that has this record.
fn tell_record(alloc: Global, text: &[u8], record: &RunRecord) -> Result<Vec<u8>, NoScript>
    ensures reason { IfErr result (λ reason. IsOfRecord reason) }
{
    match tell_text(alloc, text, record) {
        Ok(script) => Ok(script),
        Err(fault) => Err(fault.reason()),
    }
}

// The same of a run that was to be recorded, or not.
fn tell_script(alloc: Global, text: &[u8], recording: &Recording) -> Result<Vec<u8>, NoScript>
    ensures unrecorded { IsToldUnrecorded recording.now.record recording.now.is_on result }
    ensures recorded { IsToldOfRecord recording.now.record result }
{
    match &recording.record {
        None => Err(why_unrecorded(recording.is_on)),
        Some(record) => tell_record(alloc, text, record),
    }
}

// The same script, if its lines are the file's and events', and its transcript tells the report's calls.
#[tactic(auto, using(crate::proofs::Reasons::memory_told))]
fn certified(
    alloc: Global,
    script: Vec<u8>,
    file: &[u8],
    report: &[u8],
) -> Result<Vec<u8>, NoScript>
    ensures replays { IfOk result (λ script. Replays script.items report.now) }
    ensures keeps { IfOk result (λ script. KeepsToFile script.items file.now) }
    ensures reason { IfErr result (λ reason. IsOfRecord reason) }
{
    let bytes = script.as_slice().len();
    if bytes > MAX_SCRIPT {
        return Err(NoScript::TooLong { bytes });
    }
    if !keeps_to_file(alloc, &script, file)? {
        return Err(NoScript::OtherLines);
    }
    match certify(alloc, script, report)? {
        Some(script) => Ok(script),
        None => Err(NoScript::OtherCalls),
    }
}

/// A script that does what the cores of a file did in a run that was recorded: run by `exec` it has a transcript that
/// tells, at each end, just the calls that the run's report tells, in order. Each of its lines stands in the file, or
/// asks for an event of a core.
///
/// # Errors
/// [`NoScript`]: why there is none. Of a run without a record that is said, whatever the file and the report are; of a run
/// with one it isn't.
pub fn script_of(
    alloc: Global,
    file: &[u8],
    recording: &Recording,
    report: &[u8],
) -> Result<Vec<u8>, NoScript>
    ensures replays { IfOk result (λ script. Replays script.items report.now) }
    ensures keeps { IfOk result (λ script. KeepsToFile script.items file.now) }
    ensures unrecorded { IsToldUnrecorded recording.now.record recording.now.is_on result }
    ensures recorded { IsToldOfRecord recording.now.record result }
{
    match tell_script(alloc, file, recording) {
        Ok(script) => certified(alloc, script, file, report),
        Err(reason) => Err(reason),
    }
}
