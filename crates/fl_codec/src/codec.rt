//! The codec of a message.

ghost use Rattle.std.specs.Prelude.{◌≡◌, ◌≤◌, true, map, slice_get};
ghost use Rattle.std.specs.List.{list_all};
ghost use Rattle.std.specs.Option.{option_map};
ghost use Rattle.fl_interface.specs.Interface.{arg_type_of, message_of, interface_of};
ghost use Rattle.fl_codec.specs.NumberPlaces.{is_number};
ghost use Rattle.fl_codec.specs.Words.{is_inside};

use crate::number::number_type;
use crate::place::NumberPlace;
use crate::placing::placing_of;
use crate::words::{filled, numbers_filling};
use fl_base::{Circuit, Frag, MsgNo, control};
use fl_interface::{ArgType, Interface, Message};
use fl_value_data::PlanNo;

// The most numbers of a message that has a codec.
const MOST_NUMBERS: usize = 7;

/// The codec of a message: between the tape of a call and the call's only fragment.
#[derive(Clone, Copy)]
pub struct Codec {
    msg: MsgNo,
    // The numbers of a call stand at the first of these places.
    count: usize,
    places: [NumberPlace; 7],
    ghost few: { count ≤ 7 },
    ghost inside: { list_all is_inside places ≡ true },
}

/// The tape of a call: at most seven numbers.
#[derive(Clone, Copy)]
pub struct Numbers {
    // It is the first of these.
    numbers: [u64; 7],
    count: usize,
    ghost few: { count ≤ 7 },
}

// The message of a number; none where there is none.
fn message_at(interface: &Interface, msg: MsgNo) -> Option<&Message>
    ensures found { option_map (λ m. message_of m.now) result ≡ slice_get (interface_of interface.now).messages msg.0 }
{
    interface.messages.get(usize::from(msg.0))
}

// Whether all arguments are numbers.
fn are_numbers(arguments: &[ArgType]) -> bool
    ensures exact { result ≡ list_all is_number (map arg_type_of arguments.now) }
{
    for argument in arguments {
        let Some(_number) = number_type(argument) else {
            return false;
        };
    }
    true
}

impl Codec {
    ghost use Rattle.std.specs.Prelude.{◌≡◌, ℕ, false, slice_get, IfSome, IfNone};
    ghost use Rattle.fl_interface.specs.Interface.{TheInterface};
    ghost use Rattle.fl_codec.specs.NumberPlaces.{has_few_numbers};
    ghost use Rattle.fl_codec.specs.Codecs.{IsCodecOf, Encodes, Decodes};

    /// The codec of a message under a plan; none exactly where there is no such message, or where it has more than seven
    /// arguments, or one that is neither a scalar nor an enum.
    pub fn of(interface: &Interface, plan: PlanNo, msg: MsgNo) -> Option<Codec>
        ensures some { IfSome result (λ c. IsCodecOf plan (interface_of interface.now) msg.0 c) }
        ensures none { IfNone result (has_few_numbers (slice_get (interface_of interface.now).messages msg.0) ≡ false) }
    {
        let Some(message) = message_at(interface, msg) else {
            return None;
        };
        let arguments = message.args.as_slice();
        if arguments.len() > MOST_NUMBERS {
            return None;
        }
        if !are_numbers(arguments) {
            return None;
        }
        let placing = placing_of(arguments, plan);
        let places = placing.places;
        Some(Codec {
            msg,
            count: placing.count,
            places,
        })
    }

    /// The only fragment, on a circuit, of the call of its message that has this tape, with epoch 0 and nothing told; none exactly
    /// where no fitting call has it. The tape is in the plan's order, each number as its raw bits: -1 of an `int8` is 255, and a
    /// number with bits above its type's is of no call.
    #[inline(always)]
    pub fn encode(&self, circuit: Circuit, tape: &[u64]) -> Option<Frag>
        ensures exact { (plan : PlanNo) (i : TheInterface) (msg : ℕ) → IsCodecOf plan i msg self.now → Encodes plan i circuit.0 msg tape.now result }
    {
        let Some(words) = filled(&self.places[..self.count], tape) else {
            return None;
        };
        Some(Frag {
            words,
            control: control(true, self.msg, circuit),
        })
    }

    /// The tape of the call of its message whose only fragment, on a circuit, this is, whatever its epoch and the count told; none
    /// exactly where it is that of no fitting call of the message.
    #[inline(always)]
    pub fn decode(&self, circuit: Circuit, frag: &Frag) -> Option<Numbers>
        ensures exact { (plan : PlanNo) (i : TheInterface) (msg : ℕ) → IsCodecOf plan i msg self.now → Decodes plan i circuit.0 msg frag.now result }
    {
        if frag.bare().control != control(true, self.msg, circuit) {
            return None;
        }
        let Some(numbers) = numbers_filling(&self.places[..self.count], &frag.words) else {
            return None;
        };
        Some(Numbers {
            numbers,
            count: self.count,
        })
    }
}

impl Numbers {
    ghost use Rattle.fl_codec.specs.Codecs.{numbers_of};

    /// The numbers.
    #[inline(always)]
    pub fn as_slice(&self) -> &[u64]
        ensures numbers { result.now ≡ numbers_of self.now }
    {
        &self.numbers[..self.count]
    }
}
