//! Reply rules of ends that are there before the cores run.

ghost use Rattle.std.specs.Prelude.{◌≡◌, length, slice_get, None, IsSome, IfErr, OnOk, OnErr};
ghost use Rattle.fl_cores_jobs.specs.Faults.{core_fault, end_fault, fault_at_once, StopsFor};
ghost use Rattle.fl_cores_jobs.specs.Rules.{RulesCore, RulesAt, RuleNow};

use fl_base::{EndId, MsgNo, faults};
use fl_core::Core;
use fl_cores_file::CoresLineFault;
use fl_world_refines::{Binding, core_in};

// The end of a name, which is at a core, has the rule from now on.
fn rule_core(
    core: &mut Core,
    end: EndId,
    message: MsgNo,
    answer: MsgNo,
) -> Result<(), CoresLineFault>
    ensures rules { OnOk result (RulesCore end message.0 answer.0 core.old core.new) }
    ensures kept { OnErr result (core.new ≡ core.old) }
    ensures passed { OnOk result (core_fault core.old end message.0 answer.0 ≡ None) }
    ensures refused { IfErr result (λ stop. StopsFor (core_fault core.old end message.0 answer.0) stop) }
{
    let Some(place) = core.place(end) else {
        return Err(CoresLineFault::Refused(faults::WRONG_NAME));
    };
    match core.reply_rule(place, message, answer) {
        Ok(()) => Ok(()),
        Err(fault) => Err(CoresLineFault::Refused(fault.number())),
    }
}

// The same, at one of all cores.
fn rule_at(
    cores: &mut Vec<Core>,
    n: usize,
    end: EndId,
    message: MsgNo,
    answer: MsgNo,
) -> Result<(), CoresLineFault>
    ensures rules { OnOk result (RulesAt n end message.0 answer.0 cores.old.items cores.new.items) }
    ensures kept { OnErr result (cores.new.items ≡ cores.old.items) }
    ensures count { length cores.new.items ≡ length cores.old.items }
    ensures passed { OnOk result (end_fault cores.old.items n end message.0 answer.0 ≡ None) }
    ensures refused { IfErr result (λ stop. StopsFor (end_fault cores.old.items n end message.0 answer.0) stop) }
{
    if n >= cores.len() {
        return Err(CoresLineFault::Refused(faults::WRONG_NAME));
    }
    let core = &mut cores[n];
    rule_core(core, end, message, answer)
}

/// An end of a binding that is set up has the rule from now on. Of any other end nothing is done, nor where the rule is refused.
pub(crate) fn rule_now(
    cores: &mut Vec<Core>,
    bindings: &[Binding],
    end: EndId,
    message: MsgNo,
    answer: MsgNo,
) -> Result<(), CoresLineFault>
    ensures there { OnErr result (IsSome (slice_get bindings.now end.binding)) }
    ensures rules { OnOk result (RuleNow (slice_get bindings.now end.binding) end message.0 answer.0 cores.old.items cores.new.items) }
    ensures kept { OnErr result (cores.new.items ≡ cores.old.items) }
    ensures count { length cores.new.items ≡ length cores.old.items }
    ensures passed { OnOk result (fault_at_once cores.old.items bindings.now end message.0 answer.0 ≡ None) }
    ensures refused { IfErr result (λ stop. StopsFor (fault_at_once cores.old.items bindings.now end message.0 answer.0) stop) }
{
    match bindings.get(end.binding) {
        None => Ok(()),
        Some(binding) => rule_at(cores, core_in(end.side, binding), end, message, answer),
    }
}
