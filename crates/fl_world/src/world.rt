//! The world, and what contracts see of it.

use fl_compact_calls::NumberCall;
use fl_compile::Program;
use fl_core::Core;
use fl_link::QueueLink;
use fl_nameserv::Names;
use fl_ring::OneDuo;
use fl_world_refines::Binding;
use std::alloc::Global;
use std::marker::Model;

/// All cores, and the rings and queues between them.
///
/// A side of a ring is known by a number: the two of ring n are 2n and 2n + 1. Queues, interfaces and bindings are known by their places.
#[derive(Drop)]
pub struct World {
    pub(crate) alloc: Global,
    pub(crate) may_set_cores: bool,
    pub(crate) cores: Vec<Core>,
    pub(crate) dispatchers: usize,
    pub(crate) rings: Vec<OneDuo>,
    pub(crate) queues: Vec<QueueLink>,
    pub(crate) programs: Vec<Program>,
    pub(crate) names: Names,
    pub(crate) bindings: Vec<Binding>,
    // for contracts: what a call that a turn handles takes the place of
    pub(crate) number: NumberCall,
}

impl Model for World {
    ghost use Rattle.std.specs.Prelude.{◌≤◌, length};
    ghost use Rattle.std.specs.Coded.{codes};
    ghost use Rattle.fl_compile.specs.contracts.program.Program.{the_row};
    ghost use Rattle.fl_world_refines.specs.View.{TheWorld};

    ghost Value = { TheWorld };

    ghost coded = { Prim.hlevel (codes, the_row.coded) };

    ghost view = { λ w. record {
      may_set_cores = w.may_set_cores;
      cores = w.cores.items;
      dispatchers = w.dispatchers;
      rings = w.rings.items;
      queues = w.queues.items;
      programs = w.programs.items;
      names = w.names;
      bindings = w.bindings.items;
    } };

    ghost invariant = { λ w. length w.cores.items ≤ 16 };
}
