//! What is shown of texts and images, and the headers of texts.

use crate::image::images::{MIXED, image_of};
use crate::rows::TextCase;
use fl_value_data::PlanNo;
use flounder_show::{header_of_content, show_content};
use std::alloc::Global;
use std::test::Fail;

// Whether this table is shown of some content.
fn has_table(alloc: Global, content: &[u8], table: &[u8]) -> Result<bool, Fail> {
    let shown = show_content(alloc, content)?;
    Ok(shown.as_slice() == table)
}

// Whether some content has this header.
fn has_header(alloc: Global, content: &[u8], header: &[u8]) -> Result<bool, Fail> {
    let made = header_of_content(alloc, content)?;
    Ok(made.as_slice() == header)
}

/// What is made of texts and images, and what has to come of it.
pub enum ShownCase {
    /// The table of a text.
    Text(&'static [u8], &'static [u8]),
    /// The table of the image of the text between numbers and a string, under a plan.
    Image(PlanNo, &'static [u8]),
    /// The header of a text.
    Header(&'static [u8], &'static [u8]),
}

fn is_image(alloc: Global, plan: PlanNo, table: &[u8]) -> Result<bool, Fail> {
    let image = image_of(alloc, MIXED, plan)?;
    has_table(alloc, &image, table)
}

impl TextCase for ShownCase {
    fn holds(&self, alloc: Global) -> Result<bool, Fail> {
        match self {
            ShownCase::Text(text, table) => has_table(alloc, text, table),
            ShownCase::Image(plan, table) => is_image(alloc, *plan, table),
            ShownCase::Header(text, header) => has_header(alloc, text, header),
        }
    }
}
