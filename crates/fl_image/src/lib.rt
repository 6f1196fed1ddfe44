//! Images: a compiled interface as bytes.
//!
//! Contract for the layers above: [`write_image`] gives the image of a program (`specs/Image.antt`) whose enums have room in an
//! image ([`is_writable`]), and [`read_image`] gives a program exactly where the bytes are the image of an interface under
//! a plan, or else the first fault from front to back (`specs/Reading.antt`). No two interfaces have one image
//! ([`law_one_image`]), and what is refused of an image that was cut or has bytes behind it is known (`specs/Laws.antt`).
//!
//! - `writer.rt`: [`write_image`]
//! - `reader.rt`: [`read_image`]
//! - `number.rt`, `types.rt`, `messages.rt`, `code.rt`: fields read off the bytes of an image
//! - `limits.rt`: whether types and messages keep the limits
//! - `writable.rt`: [`is_writable`]
//! - `fault.rt`: why there is no program
//! - `law.rt`: laws on images and on their faults, as functions that do nothing
#![tactic(auto)]

mod code;
mod fault;
mod law;
mod limits;
mod messages;
mod number;
mod reader;
mod types;
mod writable;
mod writer;

pub use fault::{BadImage, ImageFault};
pub use law::{
    law_cut_images_end_early, law_field_faults_stay, law_longer_images_have_more, law_one_image,
};
pub use reader::read_image;
pub use writable::is_writable;
pub use writer::write_image;
