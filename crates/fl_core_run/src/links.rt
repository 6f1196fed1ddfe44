//! What is done for a link: a forward, a monitor write, an acknowledgement.

ghost use Rattle.std.specs.Prelude.{◌≡◌, ◌≢◌, ◌<◌, false, length, Ok, IfOk, OnOk, OnErr};
ghost use Rattle.fl_base.specs.Control.{is_ack_only, with_circuit};
ghost use Rattle.fl_base.specs.declared.fragment.Frag.{Frag as TheFrag};
ghost use Rattle.fl_core_run.specs.Run.{run_by};
ghost use Rattle.fl_core_run.specs.LogEntries.{passed, arrived, heard, Does, NotesHeard};
ghost use Rattle.fl_core_run.specs.Steps.{lacks_to_hear, HandsOut, Forwards, Says, Tells};
ghost use Rattle.fl_core_run.specs.Turn.{ForEach};
ghost use Rattle.fl_core_run.specs.Stops.{LeavesMessage, StopsAmong};
ghost use Rattle.fl_core.specs.declared.answer.LinkFront.TheVariants.{Message};
ghost use Rattle.fl_core.specs.Hearing.{HearsFragLast};
ghost use Rattle.fl_core_run.specs.Inside.{Fronts, Foresees};

use crate::core_sides::CoreSides;
use crate::lent::lent_link_side;
use crate::over;
use crate::running::{RunningCore, law_sound};
use fl_base::{Circuit, EndId, Frag, LinkId};
use fl_core::{LinkFront, LinkReceiveFault, MonitorAnswer};
use fl_hop::ForwardOutcome;
use fl_link::PutFault;
use std::alloc::AllocError;

// ---- forwards

// Whether memory was refused.
fn is_memory(answer: Result<MonitorAnswer, LinkReceiveFault>) -> bool
    ensures memory { result ≡ lacks_to_hear answer }
{
    match answer {
        Ok(_) => false,
        Err(fault) => matches!(fault, LinkReceiveFault::Memory),
    }
}

// Hears the monitors' message that was seen to stand first.
fn hear<S: CoreSides>(
    run: &mut RunningCore<S>,
    n: usize,
    link: LinkId,
    frag: &Frag,
) -> Result<Result<MonitorAnswer, LinkReceiveFault>, AllocError>
    requires side { n < length (S.states run.old.rings) }
    requires link { link.0 < length run.old.core.link_sides }
    requires seen { Fronts S.ways n frag.now (run_by S.states run.old) }
    ensures heard { IfOk result (λ answer. Does S.ways (heard n link frag.now answer) (run_by S.states run.old)
        (run_by S.states run.new)) }
    ensures memory { IfOk result (λ answer. lacks_to_hear answer ≡ false) }
    ensures kept { OnErr result (run_by S.states run.new ≡ run_by S.states run.old) }
    ensures last { OnErr result (HearsFragLast
        (run_by S.states run.old).offers link frag.now run.old.core LinkReceiveFault.Memory) }
{
    let answer = over::hear(
        &mut run.core,
        &mut run.rings,
        n,
        link,
        frag,
        &run.names,
        &run.programs,
    );
    if is_memory(answer) {
        return Err(AllocError);
    }
    if !matches!(answer, Ok(MonitorAnswer::Full)) {
        run.idle = 0;
    }
    Ok(answer)
}

// Notes the word that an opening is refused.
fn note<S: CoreSides>(run: &mut RunningCore<S>, answer: Result<MonitorAnswer, LinkReceiveFault>)
    ensures notes { NotesHeard answer (run_by S.states run.old) (run_by S.states run.new) }
{
    let Ok(MonitorAnswer::OpeningRefused(end, reason)) = answer else {
        return;
    };
    if let Some(place) = run.progress_of(end) {
        run.progresses[place].refuse(reason);
    }
}

// Passes on a fragment that was seen to stand first on one side, over another.
fn cross<S: CoreSides>(
    run: &mut RunningCore<S>,
    from: usize,
    to: usize,
    frag: &Frag,
    circuit: Circuit,
) -> ForwardOutcome
    requires from { from < length (S.states run.old.rings) }
    requires to { to < length (S.states run.old.rings) }
    requires two { from ≢ to }
    requires seen { Fronts S.ways from frag.now (run_by S.states run.old) }
    requires call { is_ack_only (with_circuit circuit.0 frag.now) ≡ false }
    ensures passed { Does S.ways (passed from to frag.now circuit result)
        (run_by S.states run.old) (run_by S.states run.new) }
{
    let sent = frag.with_circuit(circuit);
    match over::put(&mut run.rings, to, &sent) {
        Err(PutFault::Full) => ForwardOutcome::Full,
        Err(PutFault::Spent) => ForwardOutcome::Spent,
        Ok(()) => {
            let _ = over::take(&mut run.rings, from, frag);
            run.idle = 0;
            ForwardOutcome::Moved
        }
    }
}

// Brings a fragment that was seen to stand first to an end.
fn arrive<S: CoreSides>(
    run: &mut RunningCore<S>,
    n: usize,
    link: LinkId,
    frag: &Frag,
    end: EndId,
) -> Result<ForwardOutcome, LinkReceiveFault>
    requires side { n < length (S.states run.old.rings) }
    requires link { link.0 < length run.old.core.link_sides }
    requires seen { Fronts S.ways n frag.now (run_by S.states run.old) }
    requires call { is_ack_only (with_circuit 0 frag.now) ≡ false }
    ensures arrived { Does S.ways (arrived n link frag.now end result)
        (run_by S.states run.old) (run_by S.states run.new) }
{
    over::arrive(&mut run.core, &mut run.rings, n, link, frag, end)
}

// Deals with what a look found.
fn hand_out<S: CoreSides>(
    run: &mut RunningCore<S>,
    n: usize,
    link: LinkId,
    found: Result<LinkFront, LinkReceiveFault>,
) -> Result<(), AllocError>
    requires side { n < length (S.states run.old.rings) }
    requires link { link.0 < length run.old.core.link_sides }
    requires foreseen { Foresees S.ways n found (run_by S.states run.old) }
    ensures hands_out { OnOk result (HandsOut S.ways n link found (run_by S.states run.old) (run_by S.states run.new)) }
    ensures left { OnErr result ((frag : TheFrag) × (found ≡ Ok (Message frag)) × (run_by S.states run.new ≡ run_by S.states run.old)
        × HearsFragLast (run_by S.states run.old).offers link frag run.old.core LinkReceiveFault.Memory) }
{
    law_sound(run);
    match found {
        Ok(LinkFront::Nothing) | Err(_) => Ok(()),
        Ok(LinkFront::Acknowledged) => {
            run.idle = 0;
            Ok(())
        }
        Ok(LinkFront::Message(frag)) => {
            let answer = hear(run, n, link, &frag)?;
            note(run, answer);
            Ok(())
        }
        Ok(LinkFront::Onward(frag, to, circuit)) => {
            if to != n && to < run.rings.count() {
                let _ = cross(run, n, to, &frag, circuit);
            }
            Ok(())
        }
        Ok(LinkFront::Arrival(frag, end)) => {
            let outcome = arrive(run, n, link, &frag, end);
            if matches!(outcome, Ok(ForwardOutcome::Moved)) {
                run.idle = 0;
            }
            Ok(())
        }
    }
}

/// One forward.
pub(crate) fn forward<S: CoreSides>(
    run: &mut RunningCore<S>,
    link: LinkId,
) -> Result<(), AllocError>
    ensures forwards { OnOk result (Forwards S.ways link (run_by S.states run.old) (run_by S.states run.new)) }
    ensures left { OnErr result (LeavesMessage S.ways link (run_by S.states run.old) (run_by S.states run.new)) }
{
    law_sound(run);
    match lent_link_side(run, link) {
        None => Ok(()),
        Some(n) => {
            let found = over::look(&mut run.core, &mut run.rings, n, link);
            hand_out(run, n, link, found)
        }
    }
}

/// A forward for each link.
pub(crate) fn forward_all<S: CoreSides>(
    run: &mut RunningCore<S>,
    links: &[LinkId],
) -> Result<(), AllocError>
    ensures forwards { OnOk result (ForEach links.now (Forwards S.ways)
        (run_by S.states run.old) (run_by S.states run.new)) }
    ensures stops { OnErr result (StopsAmong links.now (Forwards S.ways) (LeavesMessage S.ways)
        (run_by S.states run.old) (run_by S.states run.new)) }
{
    for k in 0..links.len() {
        forward(run, links[k])?;
    }
    Ok(())
}

// ---- monitor writes

// One monitor write.
pub(crate) fn say<S: CoreSides>(run: &mut RunningCore<S>, link: LinkId)
    ensures says { Says S.ways link (run_by S.states run.old) (run_by S.states run.new) }
{
    law_sound(run);
    match lent_link_side(run, link) {
        None => (),
        Some(n) => {
            let _ = over::say(&mut run.core, &mut run.rings, n, link);
        }
    }
}

/// A monitor write for each link.
pub(crate) fn say_all<S: CoreSides>(run: &mut RunningCore<S>, links: &[LinkId])
    ensures says { ForEach links.now (Says S.ways) (run_by S.states run.old) (run_by S.states run.new) }
{
    for k in 0..links.len() {
        say(run, links[k]);
    }
}

// ---- acknowledgements

// One acknowledgement.
pub(crate) fn tell<S: CoreSides>(run: &mut RunningCore<S>, link: LinkId)
    ensures tells { Tells S.ways link (run_by S.states run.old) (run_by S.states run.new) }
{
    law_sound(run);
    match lent_link_side(run, link) {
        None => (),
        Some(n) => {
            let _ = over::tell(&run.core, &mut run.rings, n, link);
        }
    }
}

/// An acknowledgement for each link.
pub(crate) fn tell_all<S: CoreSides>(run: &mut RunningCore<S>, links: &[LinkId])
    ensures tells { ForEach links.now (Tells S.ways) (run_by S.states run.old) (run_by S.states run.new) }
{
    for k in 0..links.len() {
        tell(run, links[k]);
    }
}
