//! Interfaces: messages, their arguments' types, the limits that hold for them, sizes, copies and equality. They come from a
//! checked text or from an image; the layers above need nothing of either. Names are words of the language, as the lexer has them.
//!
//! - `word.rt`: names
//! - `interface.rt`: `Interface` and its types
//! - `limits.rt`: the limits, as constants for all code above
//! - `sizes.rt`: sizes and alignments
//! - `bounds.rt`: counts that fit words of 32 bits
//! - `duplicate.rt`, `same.rt`: copies and equality
#![tactic(auto)]

mod bounds;
mod duplicate;
mod interface;
mod limits;
mod same;
mod sizes;
mod word;

pub use bounds::counts_fit;
pub use duplicate::duplicate_type;
pub use interface::{ArgType, FixedType, Interface, Message, Scalar};
pub use limits::{
    MAX_BOUND, MAX_ELEMENTS, MAX_LISTED, MAX_MESSAGES, MAX_NESTED_ARRAYS, MAX_PAYLOAD,
    MAX_TYPE_DEPTH, MAX_TYPE_SIZE, MAX_TYPES,
};
pub use same::same_args;
pub use sizes::{ENUM_SIZE, Measures, greatest_alignment, next_multiple};
pub use word::Word;
