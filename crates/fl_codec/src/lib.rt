//! Prepared codecs of messages of few numbers: between the tape of a call and its only fragment, with no stub code run.
//!
//! Contract for the layers above: a message has a [`Codec`] exactly where it has at most seven arguments, each a scalar or an
//! enum. [`Codec::encode`] makes the fragment of a tape, [`Codec::decode`] the tape of a fragment, and what was encoded decodes to
//! itself ([`law_one_tape_one_frag`]). Where `encode` gives none, the tape is no call's of the message; where `decode` gives none, the
//! fragment is no call's of this message and on this circuit alone. Which fault it is they don't tell. No call takes memory. The
//! definitions stand in `specs/NumberPlaces.antt` and `specs/Codecs.antt`.
//!
//! - `number.rt`: types that are numbers
//! - `place.rt`: where numbers stand
//! - `placing.rt`: the places of a message's arguments, in the plan's order
//! - `words.rt`: numbers to words and back
//! - `codec.rt`: [`Codec`], and the [`Numbers`] that it decodes
//! - `law.rt`: one tape, one fragment
#![tactic(auto)]

mod codec;
mod law;
mod number;
mod place;
mod placing;
mod words;

pub use codec::{Codec, Numbers};
pub use law::law_one_tape_one_frag;
