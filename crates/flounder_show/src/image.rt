//! What `compile` makes of a file's content.

ghost use Rattle.std.specs.Prelude.{IfOk, IfErr};
ghost use Rattle.fl_interface.specs.Interface.{TheInterface};
ghost use Rattle.fl_value_data.specs.declared.value.PlanNo.TheVariants.{Two};
ghost use Rattle.flounder_show.specs.Content.{StandsFor, IsRefusalOf, IsImageOf};

use crate::fault::ShowFault;
use crate::reading::accept;
use fl_compile::compile;
use fl_image::write_image;
use fl_value_data::PlanNo;
use std::alloc::Global;

/// The image, under plan 2, of the interface that a text stands for. Every text that is accepted has one.
///
/// # Errors
/// [`ShowFault::Refused`] with the text's first fault where it is no interface; [`ShowFault::Memory`] where
/// memory is refused, which is answered only of texts of at most 65,536 bytes.
pub fn compile_text(alloc: Global, text: &[u8]) -> Result<Vec<u8>, ShowFault<'_>>
    ensures image { IfOk result (λ v. (i : TheInterface) × StandsFor text.now i × IsImageOf v.items Two i) }
    ensures refused { IfErr result (λ e. IsRefusalOf text.now e) }
{
    let interface = accept(alloc, text)?;
    let program = compile(alloc, &interface, PlanNo::Two)?;
    let image = write_image(alloc, &program)?;
    Ok(image)
}
