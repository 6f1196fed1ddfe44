//! Programs from their images.

ghost use Rattle.std.specs.Prelude.{◌≡◌, true, IfOk, IfErr};
ghost use Rattle.std.specs.Bool.{Decides};
ghost use Rattle.fl_interface.specs.Interface.{TheInterface, interface_of};
ghost use Rattle.fl_value_data.specs.declared.value.PlanNo.{PlanNo as the_plan};
ghost use Rattle.fl_compile.specs.Programs.{program_of};
ghost use Rattle.fl_image.specs.Image.{has_image, image_of};
ghost use Rattle.fl_image.specs.Reading.{Gives, IsOfBytes, Behind, magic_at, plan_at, start_at, fields_at, all_of};
ghost use Rattle.fl_image.specs.Views.{found_view};
ghost use Rattle.fl_image.specs.Outcome.{Reads, Answers};

use crate::code::{MessageOps, all_ops};
use crate::fault::{BadImage, ImageFault};
use crate::messages::interface;
use crate::number::{four, two};
use crate::writer::write_image;
use fl_compile::{Program, compile};
use fl_interface::Interface;
use fl_value_data::PlanNo;
use std::alloc::Global;

/// What the fields of an image say.
#[derive(Drop)]
pub(crate) struct ImageFields {
    pub plan: PlanNo,
    pub interface: Interface,
    pub codes: Vec<MessageOps>,
}

/// The bytes `FLND`; what follows them.
#[tactic(auto, unfolding(crate::specs::Reading::magic_at))]
fn magic(bytes: &[u8]) -> Result<&[u8], ImageFault>
    ensures reads { Gives (λ x. (tt, x.now)) result (magic_at bytes.now) }
    ensures of_bytes { IfErr result IsOfBytes }
{
    let (number, rest) = four(bytes)?;
    if number != 0x444e_4c46 {
        return Err(ImageFault::Refused(BadImage::OtherMagic));
    }
    Ok(rest)
}

/// The plan that a version stands for.
#[tactic(auto, unfolding(crate::specs::Reading::plan_at))]
fn plan(bytes: &[u8]) -> Result<(PlanNo, &[u8]), ImageFault>
    ensures reads { Gives (λ x. (x.0, x.1.now)) result (plan_at bytes.now) }
    ensures of_bytes { IfErr result IsOfBytes }
{
    let (version, rest) = two(bytes)?;
    match version {
        1 => Ok((PlanNo::One, rest)),
        2 => Ok((PlanNo::Two, rest)),
        _ => Err(ImageFault::Refused(BadImage::OtherVersion)),
    }
}

/// What the fields say.
#[tactic(auto, unfolding(crate::specs::Reading::fields_at))]
fn fields(alloc: Global, bytes: &[u8]) -> Result<(ImageFields, &[u8]), ImageFault>
    ensures reads { Gives (λ x. (found_view x.0, x.1.now)) result (fields_at bytes.now) }
    ensures memory { IfErr result (λ e. Behind e (start_at bytes.now)) }
{
    let rest = magic(bytes)?;
    let (plan, rest) = plan(rest)?;
    let (interface, rest) = interface(alloc, rest)?;
    let (codes, rest) = all_ops(alloc, interface.messages.len(), rest)?;
    let found = ImageFields {
        plan,
        interface,
        codes,
    };
    Ok((found, rest))
}

/// What the fields say, where no bytes are left over.
#[tactic(auto, unfolding(crate::specs::Reading::all_of))]
fn all(alloc: Global, bytes: &[u8]) -> Result<ImageFields, ImageFault>
    ensures reads { Gives found_view result (all_of bytes.now) }
    ensures memory { IfErr result (λ e. Behind e (start_at bytes.now)) }
{
    let (found, rest) = fields(alloc, bytes)?;
    if !rest.is_empty() {
        return Err(ImageFault::Refused(BadImage::BytesLeftOver));
    }
    Ok(found)
}

/// Whether bytes are the same.
fn same_bytes(left: &[u8], right: &[u8]) -> bool
    ensures exact { Decides result (left.now ≡ right.now) }
{
    left == right
}

/// The program of an image: the bytes are an image exactly where they are what [`write_image`](crate::write_image)
/// gives for the program. Otherwise the first fault from front to back.
///
/// # Errors
/// The first fault (E80 to E85); or out of memory (E99), which is answered only of bytes that begin as an image does, with the
/// magic, a version and a name: nothing grows before these were found right.
pub fn read_image(alloc: Global, bytes: &[u8]) -> Result<Program, ImageFault>
    ensures found { IfOk result (λ p. (has_image (program_of p).interface ≡ true) × (bytes.now ≡ image_of (program_of p).plan (program_of p).interface)) }
    ensures only { (plan : the_plan) (x : TheInterface) → has_image x ≡ true → bytes.now ≡ image_of plan x → Reads plan x result }
    ensures fault { IfErr result (λ e. Answers e bytes.now) }
{
    let found = all(alloc, bytes)?;
    let program = compile(alloc, &found.interface, found.plan)?;
    let image = write_image(alloc, &program)?;
    if !same_bytes(&image, bytes) {
        return Err(ImageFault::Refused(BadImage::OtherCode));
    }
    Ok(program)
}
