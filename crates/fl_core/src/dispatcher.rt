//! A dispatcher.

ghost use Rattle.std.specs.Prelude.{◌≡◌, IfOk};
ghost use Rattle.fl_core.specs.BoardView.{new_dispatcher};

use fl_base::MAX_CHANNELS;
use fl_waitset::Waitset;
use std::alloc::{AllocError, Global};
use std::marker::Model;

/// A dispatcher: its waitset, and the end of each of its channels, by the end's place on the board.
#[derive(Drop)]
pub(crate) struct Dispatcher {
    pub(crate) waitset: Waitset,
    pub(crate) ends: Vec<usize>,
}

impl Model for Dispatcher {
    ghost use Rattle.fl_core.specs.BoardView.{TheDispatcher};

    ghost Value = { TheDispatcher };

    ghost view = { λ d. record { lists = d.waitset; ends = d.ends.items } };
}

impl Dispatcher {
    // A dispatcher without ends.
    pub(crate) fn new(alloc: Global) -> Result<Dispatcher, AllocError>
        ensures made { IfOk result (λ d. d ≡ new_dispatcher) }
    {
        let Ok(waitset) = Waitset::new(alloc, MAX_CHANNELS) else {
            return Err(AllocError);
        };
        Ok(Dispatcher {
            waitset,
            ends: Vec::new(alloc),
        })
    }
}
