//! What `header` makes of a file's content.

ghost use Rattle.std.specs.Prelude.{IfOk, IfErr};
ghost use Rattle.flounder_show.specs.Content.{HeadsText, HeadsImage, HasHeader, IsRefusalOf, IsImageRefusalOf, IsRefusedAs};

use crate::fault::ShowFault;
use crate::reading::{accept, accept_image, starts_as_image};
use fl_value_data::PlanNo;
use flounder_header::header;
use std::alloc::Global;

/// The header in C of a file's content: of an image where it begins with an image's first four bytes, `FLND`,
/// under the plan that it is of, and else of a text under plan 2.
///
/// # Errors
/// As [`crate::show_content`].
pub fn header_of_content(alloc: Global, content: &[u8]) -> Result<Vec<u8>, ShowFault<'_>>
    ensures header { IfOk result (λ t. HasHeader content.now t.items) }
    ensures refused { IfErr result (λ e. IsRefusedAs content.now e) }
{
    if starts_as_image(content) {
        header_of_image(alloc, content)
    } else {
        header_of_text(alloc, content)
    }
}

// The header of the interface that a text stands for.
fn header_of_text(alloc: Global, text: &[u8]) -> Result<Vec<u8>, ShowFault<'_>>
    ensures header { IfOk result (λ t. HeadsText text.now t.items) }
    ensures refused { IfErr result (λ e. IsRefusalOf text.now e) }
{
    let interface = accept(alloc, text)?;
    let made = header(alloc, &interface, PlanNo::Two)?;
    Ok(made)
}

// The header of the interface that an image is of.
fn header_of_image<'a>(alloc: Global, bytes: &[u8]) -> Result<Vec<u8>, ShowFault<'a>>
    ensures header { IfOk result (λ t. HeadsImage bytes.now t.items) }
    ensures refused { IfErr result (λ e. IsImageRefusalOf bytes.now e) }
{
    let program = accept_image(alloc, bytes)?;
    let number = program.plan();
    let made = header(alloc, program.interface(), number)?;
    Ok(made)
}
