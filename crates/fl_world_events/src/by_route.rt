//! A binding is begun whose fragments go along a circuit.

ghost use Rattle.std.specs.Prelude.{◌≡◌, ◌<◌, ◌≤◌, ◌⊎◌, length, map, nat_lt, true, None, IfOk, IfNone, IfSome, OnErr, vec_len};
ghost use Rattle.std.specs.Vec.{vec_capacity};
ghost use Rattle.std.specs.List.{list_all};
ghost use Rattle.fl_base.specs.Numbered.{core_id};
ghost use Rattle.fl_core.specs.declared.board_fault.BoardFault.{BoardFault};
ghost use Rattle.fl_model.specs.Views.{id_of, answer_of};
ghost use Rattle.fl_lists.specs.ThreeLists.{is_in};
ghost use Rattle.fl_monitor.specs.declared.fault.MonitorFault.{MonitorFault};
ghost use Rattle.fl_monitor.specs.Monitors.{MayOpen, wanted};
ghost use Rattle.fl_core.specs.declared.fault.OpenFault.{OpenFault};
ghost use Rattle.fl_core.specs.Making.{asked, MayOpen as MayOpenAt};
ghost use Rattle.fl_core.specs.View.{client_of, place_of};
ghost use Rattle.fl_model.specs.Binding.{all_differ};
ghost use Rattle.fl_world_refines.specs.View.{IsWhole};
ghost use Rattle.fl_world_events.specs.Parts.{InCore};
ghost use Rattle.fl_world_events.specs.Requests.{HasDispatcher};
ghost use Rattle.fl_world_events.specs.Routes.{IsNumberOf, BeginsIn, AtOne, BeginsWith, IsUnmade, Follows, OpensOver};
ghost use Rattle.fl_world_events.specs.Routes.{IsAt, IsAnsweredIn};

use crate::lending::law_whole;
use fl_base::{CoreId, LinkId};
use fl_compile::Program;
use fl_core::{BoardFault, Core, OpenFault};
use fl_endpoint::End;
use fl_model::{Answer, DispatcherId};
use fl_monitor::{MAX_ROUTE, MonitorFault, Opening, Path};
use fl_world_refines::Binding;
use std::alloc::{AllocError, Global};

/// What a core makes of an opening.
#[derive(Clone, Copy)]
pub enum OpenOutcome {
    /// An end of the binding is there already.
    There,
    /// It is refused, by this number.
    Refused(u8),
    /// The client's end is there, and the opening waits.
    Waits,
}

/// What a binding along a circuit is between.
#[derive(Clone, Copy)]
pub struct CircuitBinding {
    /// The place of its interface.
    pub interface: usize,
    /// The client's dispatcher.
    pub client: DispatcherId,
    /// The core at which the server's end will be made.
    pub server: usize,
}

// ---- a route

// Whether a core is among these.
fn is_in(core: u32, cores: &[u32]) -> bool
    ensures is_in { result ≡ is_in core cores.now }
{
    cores.iter().any(|one| *one == core)
}

/// Whether none of these stands twice.
pub fn all_differ(cores: &[u32]) -> bool
    ensures differ { result ≡ all_differ cores.now }
{
    let [first, rest @ ..] = cores else {
        return true;
    };
    !is_in(*first, rest) && all_differ(rest)
}

/// Whether all are cores of a world of so many.
pub fn are_cores(cores: &[u32], count: usize) -> bool
    ensures all { result ≡ list_all (λ n. nat_lt n count) cores.now }
{
    cores.iter().all(|one| (*one as usize) < count)
}

/// The route over these cores. Takes no memory.
pub fn path_over(cores: &[u32]) -> Path
    requires few { length cores.now ≤ 16 }
    requires small { list_all (λ n. nat_lt n 256) cores.now ≡ true }
    ensures path { result ≡ map core_id cores.now }
{
    let mut ids = [CoreId(0); MAX_ROUTE];
    for (place, core) in cores.iter().enumerate() {
        ids[place] = CoreId(*core as u8);
    }
    let Some(path) = Path::new(&ids[..cores.len()]) else {
        unreachable!();
    };
    path
}

// ---- at a core

/// On which link a circuit may be opened along a route, of so many cores in all, to a service of the client's own program.
///
/// # Errors
/// As the core's monitor answers.
pub fn may_open_in(
    core: &Core,
    program: &Program,
    server: CoreId,
    path: &Path,
    count: usize,
) -> Result<LinkId, MonitorFault>
    ensures whole { IsWhole core.now }
    ensures may { MayOpen (wanted program.now program.now server path.now count) core.now.monitor.circuits result }
{
    law_whole(core);
    core.monitor()
        .may_open(program, program, server, path.cores(), count)
}

// The number of a fault other than out of memory.
fn number_of(fault: OpenFault) -> Result<u8, AllocError>
    ensures number { IfOk result (λ n. IsNumberOf fault n) }
    ensures memory { OnErr result ((fault ≡ OpenFault.Board BoardFault.Memory) ⊎ (fault ≡ OpenFault.Monitor MonitorFault.Memory)) }
{
    match fault {
        OpenFault::Board(BoardFault::Memory) => Err(AllocError),
        OpenFault::Monitor(MonitorFault::Memory) => Err(AllocError),
        _ => Ok(fault.number()),
    }
}

// What is answered of an opening for which no memory is wanted: its core has an end of the binding already,
// or refuses it.
fn answer_in(core: &Core, dispatcher: usize, link: LinkId, opening: &Opening) -> Option<Answer>
    requires { dispatcher < length core.now.board.dispatchers }
    ensures answer { IfSome result (λ a. IsAnsweredIn dispatcher link opening.now (answer_of a) core.now) }
    ensures may { IfNone result (MayOpenAt dispatcher link opening.now core.now) }
{
    law_whole(core);
    if core.has_end(opening.binding as usize) {
        return Some(Answer::Nothing);
    }
    match core.may_open(dispatcher, link, opening) {
        Ok(()) => None,
        Err(fault) => Some(Answer::Refused(fault.number())),
    }
}

// The same of a dispatcher's core, among all cores.
fn answer_at(
    cores: &[Core],
    client: DispatcherId,
    link: LinkId,
    opening: &Opening,
) -> Option<Answer>
    requires { HasDispatcher cores.now (id_of client) }
    ensures answer { IfSome result (λ a. IsAt cores.now client.core (IsAnsweredIn client.place link opening.now (answer_of a))) }
    ensures may { IfNone result (IsAt cores.now client.core (MayOpenAt client.place link opening.now)) }
{
    answer_in(&cores[client.core as usize], client.place, link, opening)
}

// A core opens a circuit for a binding, unless it has an end of that.
fn open_in(
    core: &mut Core,
    dispatcher: usize,
    program: Program,
    link: LinkId,
    opening: &Opening,
) -> Result<OpenOutcome, AllocError>
    requires dispatcher { dispatcher < length core.old.board.dispatchers }
    requires few { opening.now.binding < 1024 }
    ensures begins { IfOk result (λ o. InCore (BeginsIn (asked dispatcher program link opening.now) o) core.old core.new) }
    ensures kept { OnErr result (core.new ≡ core.old) }
{
    law_whole(core);
    if core.has_end(opening.binding as usize) {
        return Ok(OpenOutcome::There);
    }
    let outcome = core.open(dispatcher, program, link, opening);
    law_whole(core);
    match outcome {
        Ok(_) => Ok(OpenOutcome::Waits),
        Err(fault) => Ok(OpenOutcome::Refused(number_of(fault)?)),
    }
}

// The same for a dispatcher's core, among all cores, with a copy of a program for the client's end.
fn open_client(
    cores: &mut [Core],
    client: DispatcherId,
    alloc: Global,
    program: &Program,
    link: LinkId,
    opening: &Opening,
) -> Result<OpenOutcome, AllocError>
    requires client { HasDispatcher cores.old (id_of client) }
    requires few { opening.now.binding < 1024 }
    ensures begins { IfOk result (λ o. BeginsWith program.now client link opening.now o cores.old cores.new) }
    ensures kept { OnErr result (cores.new ≡ cores.old) }
{
    let own = program.duplicate(alloc)?;
    open_in(
        &mut cores[client.core as usize],
        client.place,
        own,
        link,
        opening,
    )
}

// ---- among the bindings

// A binding that keeps an end for its server until it is made there.
fn unmade_binding(
    alloc: Global,
    program: &Program,
    between: CircuitBinding,
) -> Result<Binding, AllocError>
    ensures binding { IfOk result (λ b. IsUnmade program.now between b) }
{
    let copy = program.duplicate(alloc)?;
    let kept = End::unbound(alloc, copy)?;
    Ok(Binding {
        interface: between.interface,
        client: between.client.core as usize,
        server: between.server,
        unmade: Some(kept),
    })
}

// A binding comes behind the others where its opening waits.
fn keep(bindings: &mut Vec<Binding>, opened: OpenOutcome, binding: Binding) -> Answer
    requires room { vec_len bindings.old < vec_capacity bindings.old }
    ensures follows { Follows opened binding bindings.old.items (answer_of result) bindings.new.items }
{
    match opened {
        OpenOutcome::There => Answer::Nothing,
        OpenOutcome::Refused(number) => Answer::Refused(number),
        OpenOutcome::Waits => {
            bindings.push_reserved(binding);
            Answer::Done
        }
    }
}

// A binding is made for a circuit that is opened: the client's end at its core, and the server's kept.
fn open_both(
    cores: &mut [Core],
    bindings: &mut Vec<Binding>,
    alloc: Global,
    program: &Program,
    between: CircuitBinding,
    link: LinkId,
    opening: &Opening,
) -> Result<Answer, AllocError>
    requires client { HasDispatcher cores.old (id_of between.client) }
    requires few { opening.now.binding < 1024 }
    ensures opens { IfOk result (λ a. OpensOver program.now between link opening.now (answer_of a) cores.old cores.new bindings.old.items bindings.new.items) }
    ensures kept { OnErr result (cores.new ≡ cores.old) }
    ensures same { OnErr result (bindings.new.items ≡ bindings.old.items) }
{
    bindings.reserve(1)?;
    let binding = unmade_binding(alloc, program, between)?;
    let opened = open_client(cores, between.client, alloc, program, link, opening)?;
    Ok(keep(bindings, opened, binding))
}

/// A circuit is begun for a binding, which keeps the server's end until it is made; copies of a program are for both ends.
///
/// # Errors
/// Out of memory.
pub fn open_over(
    cores: &mut [Core],
    bindings: &mut Vec<Binding>,
    alloc: Global,
    program: &Program,
    between: CircuitBinding,
    link: LinkId,
    opening: &Opening,
) -> Result<Answer, AllocError>
    requires client { HasDispatcher cores.old (id_of between.client) }
    requires few { opening.now.binding < 1024 }
    ensures opens { IfOk result (λ a. OpensOver program.now between link opening.now (answer_of a) cores.old cores.new bindings.old.items bindings.new.items) }
    ensures kept { OnErr result (cores.new ≡ cores.old) }
    ensures same { OnErr result (bindings.new.items ≡ bindings.old.items) }
    ensures last { OnErr result (IsAt cores.old between.client.core (MayOpenAt between.client.place link opening.now)) }
{
    match answer_at(cores, between.client, link, opening) {
        Some(answer) => Ok(answer),
        None => open_both(cores, bindings, alloc, program, between, link, opening),
    }
}
