//! A core's sides that note what their looks and puts come to.

ghost use Rattle.std.specs.Prelude.{◌≡◌};
ghost use Rattle.fl_history_sides.specs.Lent.{LentPuts, LentTakes, lent_has_room, lent_epoch, lent_told};
ghost use Rattle.fl_history_sides.specs.Lent.{lent_known, state_of, states_in};
ghost use Rattle.fl_history_sides.specs.Noted.{front_of};

use fl_base::Frag;
use fl_core_run::CoreSides;
use fl_cores_shares::SideRecord;
use fl_history_sides::{HistorySides, LentSide};
use fl_link::{PutFault, PutSide, Sight, TakeSide, Told};
use std::alloc::Global;
use std::marker::Model;

/// A core with its sides while one of them is lent, as [`LentSide`], which notes its looks and puts.
#[derive(Drop)]
pub struct NotingLent {
    lent: LentSide,
    // by side, what it noted
    records: Vec<SideRecord>,
}

impl Model for NotingLent {
    ghost use Rattle.fl_history_sides.specs.Lent.{TheLent};

    ghost Value = { TheLent };

    ghost view = { λ s. s.lent };
}

impl NotingLent {
    // A look, a take and a put at hand are noted.
    #[inline(always)]
    fn note_look(&mut self, found: bool)
        ensures same { self.new ≡ self.old }
    {
        if let Some(record) = self.records.get_mut(self.lent.at()) {
            record.note_look(found);
        }
    }

    #[inline(always)]
    fn note_take(&mut self, found: bool)
        ensures same { self.new ≡ self.old }
    {
        if let Some(record) = self.records.get_mut(self.lent.at()) {
            record.note_take(found);
        }
    }

    #[inline(always)]
    fn note_put(&mut self, placed: bool)
        ensures same { self.new ≡ self.old }
    {
        if let Some(record) = self.records.get_mut(self.lent.at()) {
            record.note_put(placed);
        }
    }
}

impl PutSide for NotingLent {
    ghost puts = { LentPuts };

    ghost has_room = { lent_has_room };

    ghost epoch_of = { lent_epoch };

    ghost told_of = { lent_told };

    ghost known_of = { lent_known };

    #[inline(always)]
    fn room(&self) -> bool {
        self.lent.room()
    }

    #[inline(always)]
    fn put(&mut self, frag: &Frag) -> Result<(), PutFault> {
        let outcome = self.lent.put(frag);
        self.note_put(outcome.is_ok());
        outcome
    }

    #[inline(always)]
    fn next_epoch(&self) -> u64 {
        self.lent.next_epoch()
    }

    #[inline(always)]
    fn next_told(&self) -> u16 {
        self.lent.next_told()
    }

    #[inline(always)]
    fn known(&self) -> u64 {
        self.lent.known()
    }
}

impl TakeSide for NotingLent {
    ghost takes = { LentTakes };

    ghost front = { λ s. front_of (state_of s) };

    #[inline(always)]
    fn peek(&mut self) -> Sight {
        let sight = self.lent.peek();
        self.note_look(!matches!(sight, Sight::Empty));
        sight
    }

    #[inline(always)]
    fn take(&mut self) -> Sight {
        let sight = self.lent.take();
        self.note_take(!matches!(sight, Sight::Empty));
        sight
    }

    #[inline(always)]
    fn tell(&mut self) -> Result<Told, PutFault> {
        let outcome = self.lent.tell();
        if !matches!(outcome, Ok(Told::Nothing)) {
            self.note_put(outcome.is_ok());
        }
        outcome
    }
}

/// The sides of a core at a table, as [`HistorySides`], each of which notes its looks and puts.
#[derive(Drop)]
pub struct NotingSides {
    lent: Option<NotingLent>,
}

impl NotingSides {
    /// Sides that note what they do from here on, side `n` in record `n`.
    pub fn over(sides: HistorySides, records: Vec<SideRecord>) -> NotingSides
        ensures same { states_in result.lent ≡ states_in sides.lent }
    {
        match sides.into_lent() {
            None => NotingSides { lent: None },
            Some(lent) => NotingSides {
                lent: Some(NotingLent { lent, records }),
            },
        }
    }

    /// The sides, and what each noted.
    pub fn into_parts(self, alloc: Global) -> (HistorySides, Vec<SideRecord>)
        ensures same { states_in result.0.lent ≡ states_in self.lent }
    {
        match self.lent {
            None => (HistorySides::of_lent(None), Vec::new(alloc)),
            Some(noting) => {
                let NotingLent { lent, records } = noting;
                (HistorySides::of_lent(Some(lent)), records)
            }
        }
    }
}

impl CoreSides for NotingSides {
    type Lent = NotingLent;

    ghost use Rattle.std.specs.Prelude.{Some, refl};
    ghost use Rattle.fl_history_sides.specs.States.{TheHistorySide};
    ghost use Rattle.fl_history_sides.specs.Lent.{TheRest, rest_of, Lends};
    ghost use Rattle.fl_history_sides.specs.Ways.{history_ways};
    ghost use Rattle.fl_history_sides.specs.Given.{lent_stands, returned_stands};

    ghost State = { TheHistorySide };

    ghost Rest = { TheRest };

    ghost states = { λ s. states_in s.lent };

    ghost state_of = { state_of };

    ghost rest_of = { rest_of };

    ghost lends = { λ s n a. Lends s.lent n a };

    ghost returned = { λ s n b. record { lent = Some b } };

    ghost ways = { history_ways };

    #[inline(always)]
    fn count(&self) -> usize {
        match &self.lent {
            None => 0,
            Some(noting) => noting.lent.count(),
        }
    }

    #[inline(always)]
    fn shows(&self) {
        if let Some(noting) = &self.lent {
            noting.lent.shows();
        }
    }

    #[inline(always)]
    fn side(&mut self, n: usize) -> &mut NotingLent {
        let Some(noting) = &mut self.lent else {
            unreachable!();
        };
        noting.lent.lend(n);
        noting
    }

    ghost stands = { λ s n a lent. lent_stands s.lent n a lent };

    ghost gives_back = { λ s n a b lent same. returned_stands s.lent n a b lent same };

    ghost puts_are = { λ a look b put. put };

    ghost takes_are = { λ a look b took. took };

    ghost front_is = { λ a. refl };
}
