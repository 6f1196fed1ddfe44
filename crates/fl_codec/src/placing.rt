//! The places of a message's arguments, in the plan's order.

ghost use Rattle.std.specs.Prelude.{◌≡◌, ◌+◌, ◌<◌, ◌≤◌, true, List, ◌∷◌, ◌++◌, length, map, take};
ghost use Rattle.std.specs.List.{list_all};
ghost use Rattle.fl_interface.specs.Interface.{arg_type_of, TheArgType};
ghost use Rattle.fl_value_data.specs.Taken.{types_of_rank, planned_types};
ghost use Rattle.fl_codec.specs.NumberPlaces.{is_number, places_behind};
ghost use Rattle.fl_codec.specs.Placing.{IsNumberType, IsPlacing, Places};

use crate::number::{NumberType, number_type};
use crate::place::NumberPlace;
use fl_interface::{ArgType, next_multiple};
use fl_value_data::{PlanNo, RANKS};

/// The places of some arguments, one after another.
#[derive(Clone, Copy)]
pub(crate) struct Placing {
    /// They are the first of these.
    pub places: [NumberPlace; 7],
    /// How many they are.
    pub count: usize,
    // Where the last one ends.
    end: usize,
}

impl Placing {
    // That of no arguments.
    fn new() -> Placing
        ensures sound { IsPlacing result }
        ensures none { result.count ≡ 0 }
        ensures start { result.end ≡ 0 }
    {
        let nowhere = NumberPlace {
            word: 0,
            shift: 0,
            last: 0,
        };
        Placing {
            places: [nowhere; 7],
            count: 0,
            end: 0,
        }
    }

    // One argument more.
    fn push(&mut self, number: NumberType)
        requires sound { IsPlacing self.old }
        requires room { self.old.count < 7 }
        requires number { (t : TheArgType) × IsNumberType t number }
        ensures sound { IsPlacing self.new }
        ensures goes_on { (t : TheArgType) (behind : List TheArgType) → IsNumberType t number → Places self.old (t ∷ behind) self.new behind }
    {
        let at = next_multiple(self.end, number.width as usize);
        self.places[self.count] = NumberPlace {
            word: (at / 8) as u8,
            shift: (8 * (at % 8)) as u8,
            last: number.last,
        };
        self.count += 1;
        self.end = at + number.width as usize;
    }

    // The arguments of a rank more, as declared.
    fn push_rank(&mut self, arguments: &[ArgType], plan: PlanNo, rank: u8)
        requires sound { IsPlacing self.old }
        requires numbers { list_all is_number (map arg_type_of arguments.now) ≡ true }
        requires room { self.old.count + length (types_of_rank plan rank (map arg_type_of arguments.now)) ≤ 7 }
        ensures sound { IsPlacing self.new }
        ensures goes_on { (behind : List TheArgType) → Places self.old (types_of_rank plan rank (map arg_type_of arguments.now) ++ behind) self.new behind }
    {
        for argument in arguments {
            if plan.rank_of(argument) != rank {
                continue;
            }
            let Some(number) = number_type(argument) else {
                unreachable!();
            };
            self.push(number);
        }
    }
}

/// The places of a message's arguments, which are at most seven numbers.
pub(crate) fn placing_of(arguments: &[ArgType], plan: PlanNo) -> Placing
    requires numbers { list_all is_number (map arg_type_of arguments.now) ≡ true }
    requires few { length arguments.now ≤ 7 }
    ensures sound { IsPlacing result }
    ensures many { result.count ≡ length arguments.now }
    ensures placed { take result.count result.places ≡ places_behind 0 (planned_types plan (map arg_type_of arguments.now)) }
{
    let mut placing = Placing::new();
    for rank in 0..RANKS {
        placing.push_rank(arguments, plan, rank);
    }
    placing
}
