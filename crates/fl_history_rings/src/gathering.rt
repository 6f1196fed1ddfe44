//! Cores put together again.

ghost use Rattle.std.specs.Prelude.{◌≡◌};
ghost use Rattle.fl_history_rings.specs.Cores.{gathering_of, with_core, InOneOrder};

use crate::board::{RingsBoard, RingsSeat};
use crate::one_core::RingsCore;
use crate::plays::{Compare, PartCores};
use std::alloc::Global;
use std::marker::Model;
use std::sync::Arc;

/// Cores of one table that have ended, together again.
#[derive(Drop)]
pub struct Gathering {
    pub(crate) board: Arc<RingsBoard, Global>,
    pub(crate) seat: RingsSeat,
}

impl Model for Gathering {
    ghost use Rattle.std.specs.Arc.{arc_value};
    ghost use Rattle.fl_history_rings.specs.Cores.{TheGathering, gathering_shown, IsGathering};

    ghost Value = { TheGathering };

    ghost view = { λ s. gathering_shown s.seat };

    ghost invariant = { λ s. IsGathering (arc_value s.board) s.seat };
}

impl Gathering {
    /// One core by itself.
    pub fn of(core: RingsCore) -> Gathering
        ensures one { result ≡ gathering_of core }
    {
        let RingsCore {
            board,
            seat,
            number: _,
        } = core;
        let gathering = Gathering { board, seat };
        gathering
    }

    /// One core more, of the same table.
    pub fn add(&mut self, core: RingsCore)
        requires table { core.table ≡ self.old.table }
        ensures more { self.new ≡ with_core self.old core }
    {
        let RingsCore {
            board: _,
            seat,
            number: _,
        } = core;
        self.board
            .table
            .shared
            .join_seat::<PartCores>(&mut self.seat, seat);
    }

    /// All that these cores did, by all their sides, has one order.
    pub fn settle(&mut self)
        ensures same { self.new ≡ self.old }
        ensures order { InOneOrder self.old.sides self.old.cores }
    {
        self.board.table.shared.load::<Compare>(&mut self.seat, 0);
    }
}
