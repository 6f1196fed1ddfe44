//! A binding within a core is made, with its two queues.

ghost use Rattle.std.specs.Prelude.{◌≡◌, ◌<◌, length, true, false, IfOk, OnErr};
ghost use Rattle.fl_model.specs.Events.{done};
ghost use Rattle.fl_link.specs.Queue.{MayHave};
ghost use Rattle.fl_model.specs.Views.{id_of, answer_of};
ghost use Rattle.fl_world_refines.specs.View.{has_dispatcher};
ghost use Rattle.fl_world_refines.specs.Binding.{BindsByQueues, JoinsByQueues};
ghost use Rattle.fl_world.specs.Queued.{IsJoining, JoinsOrNot};
ghost use Rattle.fl_world_events.specs.Last.{NotRefused};
ghost use Rattle.fl_world_events.specs.Requests.{HasDispatcher};
ghost use Rattle.fl_world.specs.Requests.{OfRequest, IsNewAt};

use crate::binding::BindRequest;
use crate::world::World;
use fl_base::{MAX_QUEUE, faults};
use fl_core::{EndAtDispatcher, LocalBinding};
use fl_model::Answer;
use fl_world_events::{join_at, new_queue, push_both};
use fl_world_refines::Binding;
use std::alloc::AllocError;

impl World {
    // The two ends that are asked for, over the two queues behind the others.
    fn joining(&self, want: BindRequest) -> Result<LocalBinding, AllocError>
        requires program { want.interface < length self.now.programs }
        ensures joining { IfOk result (λ both. IsJoining want self.now both) }
    {
        let ends = self.new_ends(want.interface)?;
        let to_server = self.queues.as_slice().len();
        Ok(LocalBinding {
            binding: self.bindings.as_slice().len(),
            client: EndAtDispatcher {
                dispatcher: want.client.place,
                end: ends.client,
            },
            server: EndAtDispatcher {
                dispatcher: want.server.place,
                end: ends.server,
            },
            to_server,
            to_client: to_server + 1,
        })
    }

    // The two ends are joined by their queues; or there is no memory for them.
    fn join_by_queues(&mut self, want: BindRequest, slots: u32) -> Result<Answer, AllocError>
        requires sized { MayHave false slots }
        requires few { length self.old.bindings < 1024 }
        requires together { want.client.core ≡ want.server.core }
        requires client { HasDispatcher self.old.cores (id_of want.client) }
        requires server { HasDispatcher self.old.cores (id_of want.server) }
        requires program { want.interface < length self.old.programs }
        requires new { IsNewAt (length self.old.bindings) want.client.core self.old }
        ensures joins { IfOk result (λ a. (answer_of a ≡ done) × OfRequest want self.old (λ r. JoinsByQueues r slots self.old self.new)) }
        ensures kept { OnErr result (self.new ≡ self.old) }
    {
        self.queues.reserve(2)?;
        self.bindings.reserve(1)?;
        let mut forth = new_queue(self.alloc, slots)?;
        let mut back = new_queue(self.alloc, slots)?;
        let both = self.joining(want)?;
        let core = want.client.core as usize;
        join_at(self.cores.as_mut_slice(), core, both, &mut forth, &mut back)?;
        push_both(&mut self.queues, forth, back);
        self.bindings.push_reserved(Binding {
            interface: want.interface,
            client: core,
            server: want.server.core as usize,
            unmade: None,
        });
        Ok(Answer::Done)
    }

    // The same where the core may have an end of the binding already: nothing is done then.
    fn join_if_new(&mut self, want: BindRequest, slots: u32) -> Result<Answer, AllocError>
        requires sized { MayHave false slots }
        requires few { length self.old.bindings < 1024 }
        requires together { want.client.core ≡ want.server.core }
        requires client { HasDispatcher self.old.cores (id_of want.client) }
        requires server { HasDispatcher self.old.cores (id_of want.server) }
        requires program { want.interface < length self.old.programs }
        ensures joins { IfOk result (λ a. JoinsOrNot want slots self.old (answer_of a) self.new) }
        ensures kept { OnErr result (self.new ≡ self.old) }
    {
        let binding = self.bindings.as_slice().len();
        if self.has_end_of(binding, want.client.core as usize) {
            return Ok(Answer::Nothing);
        }
        self.join_by_queues(want, slots)
    }

    /// The ends of a binding are joined by two queues of so many slots. They are to be on one core (E73), the queues to have 1 to 1,024 slots (E32),
    /// and the dispatchers places (E54).
    ///
    /// # Errors
    /// Out of memory.
    pub(crate) fn bind_by_queues(
        &mut self,
        want: BindRequest,
        slots: u32,
    ) -> Result<Answer, AllocError>
        requires few { length self.old.bindings < 1024 }
        requires client { has_dispatcher self.old (id_of want.client) ≡ true }
        requires program { want.interface < length self.old.programs }
        ensures binds { IfOk result (λ a. OfRequest want self.old (λ r. BindsByQueues r slots self.old (answer_of a) self.new)) }
        ensures kept { OnErr result (self.new ≡ self.old) }
        ensures last { OnErr result (OfRequest want self.old (λ r. NotRefused (BindsByQueues r slots self.old))) }
    {
        if want.client.core != want.server.core {
            return Ok(Answer::Refused(faults::NO_SUCH_ROUTE));
        }
        if slots < 1 || slots as usize > MAX_QUEUE {
            return Ok(Answer::Refused(faults::BAD_SIZE));
        }
        if !self.has_both_places(want.client, want.server) {
            return Ok(Answer::Refused(faults::TOO_MANY_CHANNELS));
        }
        self.join_if_new(want, slots)
    }
}
