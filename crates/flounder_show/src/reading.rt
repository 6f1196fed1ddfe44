//! From a text or an image to its interface, or to its first fault in words.

ghost use Rattle.std.specs.Prelude.{◌≡◌, ◌==◌, ◌≤◌, true, length, IfOk, IfErr, IfSome};
ghost use Rattle.std.specs.List.{position};
ghost use Rattle.fl_interface.specs.Interface.{interface_of};
ghost use Rattle.fl_compile.specs.Programs.{program_of};
ghost use Rattle.fl_image.specs.Image.{has_image, image_of};
ghost use Rattle.flounder_show.specs.Content.{StandsFor, IsFaultOf, excerpt_at, first_line, is_meant_as_image, IsRefusalOf, IsImageRefusalOf, TextsHaveImages};

use crate::fault::{ImageRefusal, ShowFault, TextRefusal};
use fl_check::{TextFault, check};
use fl_compile::Program;
use fl_image::{ImageFault, read_image};
use fl_interface::Interface;
use fl_lex::lex;
use fl_parse::{Tree, parse};
use std::alloc::Global;

const LONGEST_EXCERPT: usize = 40;

/// The interface that a text stands for. It has an image.
///
/// # Errors
/// The text's first fault: one of its bytes, else of its tokens, else of its declarations; or E99 where
/// memory is refused, behind what its step finds before it takes memory.
pub fn read_interface(alloc: Global, text: &[u8]) -> Result<Interface, TextFault>
    ensures interface { IfOk result (λ i. StandsFor text.now (interface_of i)) }
    ensures fault { IfErr result (λ e. IsFaultOf text.now e) }
{
    let tokens = match lex(alloc, text) {
        Ok(tokens) => tokens,
        Err(fault) => return Err(TextFault::Lex(fault)),
    };
    let tree = match parse(alloc, &tokens) {
        Ok(tree) => tree,
        Err(fault) => return Err(TextFault::Parse(fault)),
    };
    check(alloc, &tree).map_err(TextFault::Check)
}

/// The tree of a text, if it has one and memory isn't refused.
pub(crate) fn tree_of<'a>(alloc: Global, text: &'a [u8]) -> Option<Tree<'a>> {
    let tokens = lex(alloc, text).ok()?;
    parse(alloc, &tokens).ok()
}

/// A law: the interface that a text stands for has an image. Its names are words of at most 64 bytes, and its enums
/// have at most 65,535 enumerators, since a text has at most 65,536 bytes.
pub fn law_texts_have_images()
    ensures law { TextsHaveImages }
{}

/// The interface that a text stands for, or what a person is told.
///
/// # Errors
/// [`ShowFault::Refused`] with the text's first fault; [`ShowFault::Memory`] when out of memory.
pub(crate) fn accept(alloc: Global, text: &[u8]) -> Result<Interface, ShowFault<'_>>
    ensures interface { IfOk result (λ i. StandsFor text.now (interface_of i)) }
    ensures refused { IfErr result (λ e. IsRefusalOf text.now e) }
{
    match read_interface(alloc, text) {
        Ok(interface) => Ok(interface),
        Err(fault) => Err(refusal(fault, text)),
    }
}

/// The program that an image is of, or what a person is told.
///
/// # Errors
/// [`ShowFault::NoImage`] with the first fault; [`ShowFault::Memory`] when out of memory.
pub(crate) fn accept_image<'a>(alloc: Global, bytes: &[u8]) -> Result<Program, ShowFault<'a>>
    ensures program { IfOk result (λ p. (has_image (program_of p).interface ≡ true)
        × (bytes.now ≡ image_of (program_of p).plan (program_of p).interface)) }
    ensures refused { IfErr result (λ e. IsImageRefusalOf bytes.now e) }
{
    match read_image(alloc, bytes) {
        Ok(program) => Ok(program),
        Err(ImageFault::Refused(fault)) => Err(ShowFault::NoImage(ImageRefusal { fault })),
        Err(ImageFault::Memory) => Err(ShowFault::Memory),
    }
}

/// Whether bytes are meant as an image. No interface begins so: a text's first word is `interface`.
pub(crate) fn starts_as_image(content: &[u8]) -> bool
    ensures exact { result ≡ is_meant_as_image content.now }
{
    content.starts_with(b"FLND")
}

/// Why a text is no interface, as a person is told; nothing of one that is an interface, and when out of memory.
pub fn refusal_of(alloc: Global, text: &[u8]) -> Option<TextRefusal<'_>> {
    match accept(alloc, text) {
        Err(ShowFault::Refused(refusal)) => Some(refusal),
        Ok(_) | Err(_) => None,
    }
}

// A fault at a place is the text's; without one memory ran out.
fn refusal(fault: TextFault, text: &[u8]) -> ShowFault<'_>
    requires fault { IsFaultOf text.now fault }
    ensures refused { IsRefusalOf text.now result }
{
    match fault.offset() {
        Some(offset) => ShowFault::Refused(TextRefusal {
            explained: fault.explain(text),
            offset,
            found: excerpt(text, offset),
        }),
        None => ShowFault::Memory,
    }
}

// What stands at an offset, to the end of its line or as far as a reader wants to see.
fn excerpt(text: &[u8], offset: usize) -> &[u8]
    ensures found { result.now ≡ excerpt_at text.now offset }
{
    let line = first_line(&text[offset.min(text.len())..]);
    &line[..LONGEST_EXCERPT.min(line.len())]
}

fn first_line(text: &[u8]) -> &[u8]
    ensures line { result.now ≡ first_line text.now }
{
    match line_end(text) {
        Some(end) => &text[..end],
        None => text,
    }
}

fn line_end(text: &[u8]) -> Option<usize>
    ensures end { result ≡ position (λ byte. byte == 10) text.now }
    ensures within { IfSome result (λ end. end ≤ length text.now) }
{
    text.iter().position(|byte| *byte == b'\n')
}
