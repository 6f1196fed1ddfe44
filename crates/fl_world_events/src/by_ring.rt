//! A binding between two cores is made, with its ring.

ghost use Rattle.std.specs.Prelude.{◌≡◌, ◌≢◌, ◌≤◌, ◌<◌, [], ◌∷◌, ◌++◌, length, None, IfOk, OnOk, OnErr, vec_len};
ghost use Rattle.std.specs.Vec.{vec_capacity};
ghost use Rattle.fl_core.specs.View.{place_of};
ghost use Rattle.fl_model.specs.Views.{id_of};
ghost use Rattle.fl_world_refines.specs.View.{IsWhole};
ghost use Rattle.fl_world_events.specs.Parts.{InCore};
ghost use Rattle.fl_world_events.specs.RingEnds.{HasRoom, AddsEnd, TakesFromRing, RegistersOver, Joins, JoinsBoth};

use crate::lending::law_whole;
use crate::taking::register_by_ring;
use fl_base::EndId;
use fl_core::{Core, EndWiring, WiredEnd};
use fl_endpoint::End;
use fl_model::DispatcherId;
use fl_ring::OneDuo;
use fl_world_refines::Binding;
use std::alloc::AllocError;

/// An end that is to be made at a dispatcher, over a side of a new ring.
#[derive(Drop)]
pub struct NewRingEnd {
    /// Its dispatcher.
    pub at: DispatcherId,
    /// Which end it is.
    pub name: EndId,
    /// The side of the ring, by its number.
    pub side: usize,
    /// The end itself, which its core takes.
    pub end: End,
}

// ---- one core

// An end is added at a core.
fn add_end(core: &mut Core, joiner: NewRingEnd) -> Result<usize, AllocError>
    requires dispatcher { joiner.at.place < length core.old.board.dispatchers }
    requires few { joiner.name.binding < 1024 }
    requires new { place_of core.old joiner.name ≡ None }
    ensures whole { IsWhole core.old }
    ensures adds { IfOk result (λ place. AddsEnd joiner core.old place core.new) }
    ensures ring { IfOk result (λ place. TakesFromRing core.new place) }
    ensures kept { OnErr result (core.new ≡ core.old) }
{
    law_whole(core);
    let wired_end = WiredEnd {
        name: joiner.name,
        wiring: EndWiring::Ring(joiner.side),
    };
    match core.add_end(joiner.at.place, joiner.end, wired_end) {
        Ok(place) => Ok(place),
        Err(_) => Err(AllocError),
    }
}

// The end at a place of a core is registered over its side of a new ring, which is left as it was.
fn register_end(core: &mut Core, place: usize, ring: &mut OneDuo, side: usize)
    requires ring { TakesFromRing core.old place }
    ensures registers { InCore (RegistersOver side place ring.old) core.old core.new }
    ensures same { ring.new ≡ ring.old }
{
    register_by_ring(core, place, ring, side);
}

// An end is added at a core, and registered.
fn join_end(core: &mut Core, ring: &mut OneDuo, joiner: NewRingEnd) -> Result<(), AllocError>
    requires dispatcher { joiner.at.place < length core.old.board.dispatchers }
    requires few { joiner.name.binding < 1024 }
    requires new { place_of core.old joiner.name ≡ None }
    ensures joins { OnOk result (InCore (Joins joiner ring.old) core.old core.new) }
    ensures kept { OnErr result (core.new ≡ core.old) }
    ensures same { ring.new ≡ ring.old }
{
    let side = joiner.side;
    let place = add_end(core, joiner)?;
    register_end(core, place, ring, side);
    Ok(())
}

// ---- two cores

// Both ends are made, or neither: where there is no memory for the second, the first is taken back.
fn join_both(
    cores: &mut [Core],
    ring: &mut OneDuo,
    client: NewRingEnd,
    server: NewRingEnd,
) -> Result<(), AllocError>
    requires few { length cores.old ≤ 16 }
    requires client { HasRoom cores.old (id_of client.at) client.name }
    requires server { HasRoom cores.old (id_of server.at) server.name }
    requires client_few { client.name.binding < 1024 }
    requires server_few { server.name.binding < 1024 }
    requires apart { client.at.core ≢ server.at.core }
    ensures joins { OnOk result (JoinsBoth client server ring.old cores.old cores.new) }
    ensures kept { OnErr result (cores.new ≡ cores.old) }
    ensures same { ring.new ≡ ring.old }
{
    let (a, b) = (client.at.core as usize, server.at.core as usize);
    let side = client.side;
    let place = add_end(&mut cores[a], client)?;
    if let Err(error) = join_end(&mut cores[b], ring, server) {
        cores[a].take_back_end();
        return Err(error);
    }
    register_end(&mut cores[a], place, ring, side);
    Ok(())
}

// Room for one ring more and one binding.
fn reserve_both(rings: &mut Vec<OneDuo>, bindings: &mut Vec<Binding>) -> Result<(), AllocError>
    ensures rings { rings.new.items ≡ rings.old.items }
    ensures bindings { bindings.new.items ≡ bindings.old.items }
    ensures room_for_ring { OnOk result (vec_len rings.new < vec_capacity rings.new) }
    ensures room_for_binding { OnOk result (vec_len bindings.new < vec_capacity bindings.new) }
{
    rings.reserve(1)?;
    bindings.reserve(1)?;
    Ok(())
}

/// Both ends are made, with their ring and their binding behind the others, or none of these.
///
/// # Errors
/// Out of memory.
pub fn join_parts(
    cores: &mut [Core],
    rings: &mut Vec<OneDuo>,
    bindings: &mut Vec<Binding>,
    ring: OneDuo,
    binding: Binding,
    client: NewRingEnd,
    server: NewRingEnd,
) -> Result<(), AllocError>
    requires few { length cores.old ≤ 16 }
    requires client { HasRoom cores.old (id_of client.at) client.name }
    requires server { HasRoom cores.old (id_of server.at) server.name }
    requires client_few { client.name.binding < 1024 }
    requires server_few { server.name.binding < 1024 }
    requires apart { client.at.core ≢ server.at.core }
    ensures joins { OnOk result (JoinsBoth client server ring cores.old cores.new) }
    ensures rings { OnOk result (rings.new.items ≡ rings.old.items ++ ring ∷ []) }
    ensures bindings { OnOk result (bindings.new.items ≡ bindings.old.items ++ binding ∷ []) }
    ensures kept { OnErr result (cores.new ≡ cores.old) }
    ensures kept_rings { OnErr result (rings.new.items ≡ rings.old.items) }
    ensures kept_bindings { OnErr result (bindings.new.items ≡ bindings.old.items) }
{
    reserve_both(rings, bindings)?;
    let mut ring = ring;
    join_both(cores, &mut ring, client, server)?;
    rings.push_reserved(ring);
    bindings.push_reserved(binding);
    Ok(())
}
