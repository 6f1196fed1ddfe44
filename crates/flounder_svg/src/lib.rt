//! Well-formed SVG, element by element.
//!
//! Contract for the layer above: whatever is asked of a [`Document`], in whatever order, what
//! [`Document::finish`] gives is a well-formed document (`specs/Xml.antt`): elements are closed in order,
//! none has
//! an attribute twice, and no text or value has a mark that would end it. All that is written is ASCII.
//!
//! - `xml.rt`: [`StartTag`], [`Document`]
//! - `names.rt`: [`Tag`], [`Attribute`]
//! - `data.rt`: texts, whatever their bytes are, with references for what has no place in them
#![tactic(auto)]

mod data;
mod names;
mod xml;

pub use names::{Attribute, Tag};
pub use xml::{Document, StartTag};
