//! What `flounder show`, `flounder compile` and `flounder header` make of a file's content.
//!
//! - [`show_content`]: the plan table of an interface's text under plan 2, or of an image under the plan that
//!   it has; else the first fault of the text or of the image, in words for a person (`specs/Content.antt`).
//! - [`compile_text`]: the image under plan 2 of the interface that a text stands for. Each text that is
//!   accepted has one, which [`fl_image::read_image`] gives back ([`law_texts_have_images`]).
//! - [`header_of_content`]: the header in C of an interface's text or of an image.
//! - [`plan_table`]: the table of any plans (`specs/Table.antt`).
//!
//! Files: `reading.rt` from a text or an image to its interface, `show.rt`, `image.rt` and `header.rt` what the
//! commands give, `table.rt` and `row.rt` the table's lines, `fault.rt` why there is nothing to give, `cause.rt` what more
//! is known of that (`expected.rt` which tokens could stand there, `measure.rt` what is too big).
#![tactic(auto)]

mod cause;
mod expected;
mod fault;
mod header;
mod image;
mod measure;
mod named;
mod reading;
mod row;
mod show;
mod table;

pub use cause::{Cause, cause_of};
pub use expected::Expected;
pub use fault::{ImageRefusal, ShowFault, TextRefusal};
pub use header::header_of_content;
pub use image::compile_text;
pub use named::name_arguments;
pub use reading::{law_texts_have_images, read_interface, refusal_of};
pub use show::{show_content, show_image, show_text};
pub use table::plan_table;
