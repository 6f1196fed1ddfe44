//! A binding within a core is made, with its two queues.

ghost use Rattle.std.specs.Prelude.{◌≡◌, ◌<◌, ◌≤◌, ◌+◌, ◌++◌, [], ◌∷◌, length, false, IfOk, OnOk, OnErr, vec_len, vec_capacity};
ghost use Rattle.fl_link.specs.Queue.{MayHave};
ghost use Rattle.fl_world_refines.specs.Binding.{new_queue};
ghost use Rattle.fl_world_events.specs.Parts.{InCore};
ghost use Rattle.fl_world_events.specs.Queued.{IsOnQueue, Lists, ListsBoth, MayJoin, JoinsIn, MayJoinAt, JoinsAt};

use crate::lending::law_whole;
use fl_core::{Core, EndPlaces, LocalBinding};
use fl_link::QueueLink;
use std::alloc::{AllocError, Global};

/// A queue of 1 to 1,024 slots, with nothing in it.
///
/// # Errors
/// Out of memory.
pub fn new_queue(alloc: Global, slots: u32) -> Result<QueueLink, AllocError>
    requires sized { MayHave false slots }
    ensures fresh { IfOk result (λ q. q ≡ new_queue slots) }
{
    match QueueLink::local(alloc, slots as usize) {
        Ok(queue) => Ok(queue),
        Err(_) => Err(AllocError),
    }
}

// The channel of an end is registered, over its queue, from which nothing is taken.
fn register(core: &mut Core, place: usize, queue: &mut QueueLink)
    requires end { IsOnQueue core.old place }
    ensures lists { Lists place queue.old core.old core.new }
    ensures queue { queue.new ≡ queue.old }
{
    let _answer = core.register(place, queue);
}

// The same for both ends: each takes from the queue to which the other puts.
fn register_both(core: &mut Core, ends: EndPlaces, forth: &mut QueueLink, back: &mut QueueLink)
    requires client { IsOnQueue core.old ends.client }
    requires server { IsOnQueue core.old ends.server }
    ensures lists { ListsBoth ends forth.old back.old core.old core.new }
    ensures forth { forth.new ≡ forth.old }
    ensures back { back.new ≡ back.old }
{
    register(core, ends.client, back);
    register(core, ends.server, forth);
}

// Both ends are added to a core and registered; or there is no memory for them.
fn join(
    core: &mut Core,
    both: LocalBinding,
    forth: &mut QueueLink,
    back: &mut QueueLink,
) -> Result<(), AllocError>
    requires may { MayJoin both core.old }
    ensures joins { OnOk result (InCore (JoinsIn both forth.old back.old) core.old core.new) }
    ensures forth { forth.new ≡ forth.old }
    ensures back { back.new ≡ back.old }
    ensures kept { OnErr result (core.new ≡ core.old) }
{
    law_whole(core);
    let Ok(ends) = core.add_both(both) else {
        return Err(AllocError);
    };
    register_both(core, ends, forth, back);
    law_whole(core);
    Ok(())
}

/// Both ends are added to core n and registered; or there is no memory for them.
///
/// # Errors
/// Out of memory.
pub fn join_at(
    cores: &mut [Core],
    n: usize,
    both: LocalBinding,
    forth: &mut QueueLink,
    back: &mut QueueLink,
) -> Result<(), AllocError>
    requires there { n < length cores.old }
    requires may { MayJoinAt n both cores.old }
    ensures joins { OnOk result (JoinsAt n both forth.old back.old cores.old cores.new) }
    ensures forth { forth.new ≡ forth.old }
    ensures back { back.new ≡ back.old }
    ensures kept { OnErr result (cores.new ≡ cores.old) }
{
    join(&mut cores[n], both, forth, back)
}

/// Two queues go behind the others, where there is room for them.
pub fn push_both(queues: &mut Vec<QueueLink>, forth: QueueLink, back: QueueLink)
    requires room { vec_len queues.old + 2 ≤ vec_capacity queues.old }
    ensures both { queues.new.items ≡ queues.old.items ++ forth ∷ back ∷ [] }
{
    queues.push_reserved(forth);
    queues.push_reserved(back);
}
