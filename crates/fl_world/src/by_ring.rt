//! A binding between two cores is made, with its ring.

ghost use Rattle.std.specs.Prelude.{ℕ, ◌≡◌, ◌≢◌, ◌<◌, ◌⊎◌, ◌*◌, ◌-◌, ◌^◌, length, true, false, IfOk, OnErr};
ghost use Rattle.fl_model.specs.Events.{done};
ghost use Rattle.fl_model.specs.Views.{id_of, answer_of};
ghost use Rattle.fl_world_refines.specs.Making.{new_duo};
ghost use Rattle.fl_world_refines.specs.Binding.{BindsByRing, HasEndOf, JoinsByRing};
ghost use Rattle.fl_world_refines.specs.View.{has_dispatcher};
ghost use Rattle.fl_world_events.specs.RingEnds.{HasRoom};
ghost use Rattle.fl_world.specs.RingEnds.{JoinsIn, JoinsIfPlaces};
ghost use Rattle.fl_world_events.specs.Requests.{HasDispatcher};
ghost use Rattle.fl_world_events.specs.Last.{NotRefused};
ghost use Rattle.fl_world.specs.Requests.{OfRequest, IsNewAt, both_places};

use crate::binding::BindRequest;
use crate::world::World;
use fl_base::{EndId, Side, faults};
use fl_model::Answer;
use fl_ring::{OneDuo, RingFault};
use fl_world_events::{NewRingEnd, join_parts};
use fl_world_refines::Binding;
use std::alloc::AllocError;

// ---- the world

impl World {
    // The number of the binding that is to be.
    fn next_binding(&self) -> usize
        ensures next { result ≡ length self.now.bindings }
    {
        self.bindings.as_slice().len()
    }

    // The first side of the ring that is to be.
    fn next_side(&self) -> usize
        ensures next { result ≡ 2 * length self.now.rings }
        ensures few { result < 2 ^ 64 - 1 }
    {
        2 * self.rings.as_slice().len()
    }

    // Whether an end of the binding that is to be is at one of its cores already.
    fn is_begun(&self, want: BindRequest) -> bool
        ensures begun { result ≡ true → HasEndOf (length self.now.bindings) want.client.core self.now
            ⊎ HasEndOf (length self.now.bindings) want.server.core self.now }
        ensures client { result ≡ false → IsNewAt (length self.now.bindings) want.client.core self.now }
        ensures server { result ≡ false → IsNewAt (length self.now.bindings) want.server.core self.now }
    {
        let binding = self.next_binding();
        self.has_end_of(binding, want.client.core as usize)
            || self.has_end_of(binding, want.server.core as usize)
    }

    // Two ends are joined by this ring, for this binding.
    fn join_ends(
        &mut self,
        ring: OneDuo,
        binding: Binding,
        client: NewRingEnd,
        server: NewRingEnd,
    ) -> Result<Answer, AllocError>
        requires client { HasRoom self.old.cores (id_of client.at) client.name }
        requires server { HasRoom self.old.cores (id_of server.at) server.name }
        requires client_few { client.name.binding < 1024 }
        requires server_few { server.name.binding < 1024 }
        requires apart { client.at.core ≢ server.at.core }
        ensures joins { IfOk result (λ a. (answer_of a ≡ done) × JoinsIn client server ring binding self.old self.new) }
        ensures kept { OnErr result (self.new ≡ self.old) }
    {
        join_parts(
            self.cores.as_mut_slice(),
            &mut self.rings,
            &mut self.bindings,
            ring,
            binding,
            client,
            server,
        )?;
        Ok(Answer::Done)
    }

    // The ends of what is asked for are joined by this ring.
    fn join_over(&mut self, want: BindRequest, ring: OneDuo) -> Result<Answer, AllocError>
        requires few { length self.old.bindings < 1024 }
        requires program { want.interface < length self.old.programs }
        requires apart { want.client.core ≢ want.server.core }
        requires client { HasDispatcher self.old.cores (id_of want.client) }
        requires server { HasDispatcher self.old.cores (id_of want.server) }
        requires new_client { IsNewAt (length self.old.bindings) want.client.core self.old }
        requires new_server { IsNewAt (length self.old.bindings) want.server.core self.old }
        requires fresh { ring ≡ new_duo ring.size }
        ensures joins { IfOk result (λ a. (answer_of a ≡ done) × OfRequest want self.old (λ r. JoinsByRing r ring.size self.old self.new)) }
        ensures kept { OnErr result (self.new ≡ self.old) }
    {
        let side = self.next_side();
        let binding = self.next_binding();
        let ends = self.new_ends(want.interface)?;
        let client = NewRingEnd {
            at: want.client,
            name: EndId {
                binding,
                side: Side::Client,
            },
            side,
            end: ends.client,
        };
        let server = NewRingEnd {
            at: want.server,
            name: EndId {
                binding,
                side: Side::Server,
            },
            side: side + 1,
            end: ends.server,
        };
        let kept = Binding {
            interface: want.interface,
            client: want.client.core as usize,
            server: want.server.core as usize,
            unmade: None,
        };
        self.join_ends(ring, kept, client, server)
    }

    // The same, where there are places for both ends, unless an end of the binding is at one of the cores already.
    fn join_if_places(&mut self, want: BindRequest, ring: OneDuo) -> Result<Answer, AllocError>
        requires few { length self.old.bindings < 1024 }
        requires program { want.interface < length self.old.programs }
        requires apart { want.client.core ≢ want.server.core }
        requires fresh { ring ≡ new_duo ring.size }
        ensures joins { IfOk result (λ a. OfRequest want self.old (λ r. JoinsIfPlaces r ring.size self.old (answer_of a) self.new)) }
        ensures kept { OnErr result (self.new ≡ self.old) }
        ensures last { OnErr result (both_places (id_of want.client) (id_of want.server) self.old ≡ true) }
    {
        if !self.has_both_places(want.client, want.server) {
            return Ok(Answer::Refused(faults::TOO_MANY_CHANNELS));
        }
        if self.is_begun(want) {
            return Ok(Answer::Nothing);
        }
        self.join_over(want, ring)
    }

    // There is no memory for a ring: that is told where there are places for both ends.
    fn lacks_ring(&self, want: BindRequest) -> Result<Answer, AllocError>
        ensures refused { IfOk result (λ a. OfRequest want self.now (λ r. (size : ℕ) → JoinsIfPlaces r size self.now (answer_of a) self.now)) }
        ensures last { OnErr result (both_places (id_of want.client) (id_of want.server) self.now ≡ true) }
    {
        if !self.has_both_places(want.client, want.server) {
            return Ok(Answer::Refused(faults::TOO_MANY_CHANNELS));
        }
        Err(AllocError)
    }

    /// The ends of a binding are joined by a ring of so many slots a direction. They are to be on two cores
    /// (E73), the ring to have a power of two from 4 to 1,024 slots (E32), and the dispatchers places (E54).
    ///
    /// # Errors
    /// Out of memory.
    pub(crate) fn bind_by_ring(
        &mut self,
        want: BindRequest,
        slots: u32,
    ) -> Result<Answer, AllocError>
        requires few { length self.old.bindings < 1024 }
        requires client { has_dispatcher self.old (id_of want.client) ≡ true }
        requires program { want.interface < length self.old.programs }
        ensures binds { IfOk result (λ a. OfRequest want self.old (λ r. BindsByRing r slots self.old (answer_of a) self.new)) }
        ensures kept { OnErr result (self.new ≡ self.old) }
        ensures last { OnErr result (OfRequest want self.old (λ r. NotRefused (BindsByRing r slots self.old))) }
    {
        if want.client.core == want.server.core {
            return Ok(Answer::Refused(faults::NO_SUCH_ROUTE));
        }
        match OneDuo::new(self.alloc, slots as usize) {
            Ok(ring) => self.join_if_places(want, ring),
            Err(RingFault::BadSize) => Ok(Answer::Refused(faults::BAD_SIZE)),
            Err(RingFault::Memory) => self.lacks_ring(want),
        }
    }
}
