//! The codecs of a program's messages, which an end makes once.

ghost use Rattle.std.specs.Prelude.{◌≡◌, false, slice_get, IfOk, IfSome, IfNone};
ghost use Rattle.fl_compile.specs.Programs.{TheProgram, program_of};
ghost use Rattle.fl_codec.specs.NumberPlaces.{has_few_numbers};
ghost use Rattle.fl_codec.specs.Codecs.{IsCodecOf};
ghost use Rattle.fl_c_operations.specs.Codecs.{AreCodecs};

use fl_base::MsgNo;
use fl_codec::Codec;
use fl_compile::Program;
use std::alloc::{AllocError, Global};

/// The codec of each message of a program, if it has one. They take some 136 bytes a message, whether it has one or not.
///
/// # Errors
/// Out of memory (E99).
pub(crate) fn codecs_of(alloc: Global, program: &Program) -> Result<Vec<Option<Codec>>, AllocError>
    ensures codecs { IfOk result (λ codecs. AreCodecs (program_of program.now) codecs.items) }
{
    let interface = program.interface();
    let plan = program.plan();
    let mut codecs = Vec::with_capacity(alloc, interface.messages.len())?;
    for msg in 0..interface.messages.len() {
        codecs.push(Codec::of(interface, plan, MsgNo(msg as u16)))?;
    }
    Ok(codecs)
}

/// The codec of the message of this number; none exactly where there is no such message, or where it has more than seven arguments,
/// or one that is neither a scalar nor an enum.
#[inline(always)]
pub(crate) fn codec_at(codecs: &[Option<Codec>], message: u64) -> Option<&Codec>
    ensures some { (x : TheProgram) → AreCodecs x codecs.now → IfSome result (λ codec. IsCodecOf x.plan x.interface message codec.now) }
    ensures none { (x : TheProgram) → AreCodecs x codecs.now → IfNone result (has_few_numbers (slice_get x.interface.messages message) ≡ false) }
{
    let Some(kept) = codecs.get(message as usize) else {
        return None;
    };
    match kept {
        Some(codec) => Some(codec),
        None => None,
    }
}
