//! What `show` makes of a file's content.

ghost use Rattle.std.specs.Prelude.{IfOk, IfErr};
ghost use Rattle.flounder_show.specs.Content.{ShowsText, ShowsImage, Shows, IsRefusalOf, IsImageRefusalOf, IsRefusedAs};

use crate::fault::ShowFault;
use crate::reading::{accept, accept_image, starts_as_image};
use crate::table::plan_table;
use fl_layout::plan;
use fl_value_data::PlanNo;
use std::alloc::Global;

/// The plan table of a file's content: of an image where it begins with an image's first four bytes, `FLND`, and else
/// of a text.
///
/// # Errors
/// As [`show_image`] and [`show_text`].
pub fn show_content(alloc: Global, content: &[u8]) -> Result<Vec<u8>, ShowFault<'_>>
    ensures table { IfOk result (λ t. Shows content.now t.items) }
    ensures refused { IfErr result (λ e. IsRefusedAs content.now e) }
{
    if starts_as_image(content) {
        show_image(alloc, content)
    } else {
        show_text(alloc, content)
    }
}

/// The plan table, under plan 2, of the interface that a text stands for.
///
/// # Errors
/// [`ShowFault::Refused`] with the text's first fault where it is no interface; [`ShowFault::Memory`] where
/// memory is refused, which is answered only of texts of at most 65,536 bytes.
pub fn show_text(alloc: Global, text: &[u8]) -> Result<Vec<u8>, ShowFault<'_>>
    ensures table { IfOk result (λ t. ShowsText text.now t.items) }
    ensures refused { IfErr result (λ e. IsRefusalOf text.now e) }
{
    let interface = accept(alloc, text)?;
    let plans = plan(alloc, &interface, PlanNo::Two)?;
    let table = plan_table(alloc, &plans)?;
    Ok(table)
}

/// The plan table of the interface that an image is of, under the plan that it is of.
///
/// # Errors
/// [`ShowFault::NoImage`] with the first fault where the bytes are no image; [`ShowFault::Memory`] when out of memory,
/// which is answered only of bytes that begin as an image does, with the magic, a version and a name.
pub fn show_image<'a>(alloc: Global, bytes: &[u8]) -> Result<Vec<u8>, ShowFault<'a>>
    ensures table { IfOk result (λ t. ShowsImage bytes.now t.items) }
    ensures refused { IfErr result (λ e. IsImageRefusalOf bytes.now e) }
{
    let program = accept_image(alloc, bytes)?;
    let number = program.plan();
    let plans = plan(alloc, program.interface(), number)?;
    let table = plan_table(alloc, &plans)?;
    Ok(table)
}
