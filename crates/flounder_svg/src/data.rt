//! Text as a document has it: marks by their references, and what can't be shown by U+FFFD.

ghost use Rattle.std.specs.Prelude.{◌≡◌, ◌++◌, ◌∷◌, [], ◌<◌, ◌⊎◌, codes, true, false, IfOk, OnOk};
ghost use Rattle.std.specs.Fmt.{decimal};
ghost use Rattle.std.specs.String.{string_bytes};
ghost use Rattle.bstr.specs.Utf8.{lossy_chars};
ghost use Rattle.flounder_svg.specs.Xml.{IsPlain, IsXmlCharacter};
ghost use Rattle.flounder_svg.specs.Shown.{AddsText, IsBlank, IsShownAs};

use bstr::ByteSlice;
use std::alloc::{AllocError, Global};

// Characters that a reader wouldn't see, or that would turn the text around.
fn is_hidden(c: char) -> bool
    ensures unseen { result ≡ true → (c < 32) ⊎ (126 < c) }
{
    matches!(c,
        '\0'..='\x1f' | '\x7f'..='\u{9f}' | '\u{ad}' | '\u{61c}' | '\u{200b}'..='\u{200f}'
        | '\u{2028}'..='\u{202e}' | '\u{2060}'..='\u{206f}' | '\u{feff}' | '\u{fff0}'..='\u{fffb}'
        | '\u{e0000}'..='\u{e0fff}')
}

// Whether a document may have a character, and not for a blank or line end.
fn is_legal(c: char) -> bool
    ensures legal { result ≡ true → IsXmlCharacter c }
    ensures unseen { result ≡ false → (c < 32) ⊎ (126 < c) }
{
    matches!(c, ' '..='\u{d7ff}' | '\u{e000}'..='\u{fffd}' | '\u{10000}'..='\u{10ffff}')
}

// The character that is drawn for one: itself, or the sign of what can't be shown.
fn drawn(c: char) -> char
    ensures legal { IsXmlCharacter result }
    ensures shown { IsShownAs c result }
{
    if is_legal(c) && !is_hidden(c) {
        return c;
    }
    char::REPLACEMENT_CHARACTER
}

// What refers to a character by its number.
fn reference_to(alloc: Global, c: char) -> Result<String, AllocError>
    ensures text { IfOk result (λ s. string_bytes s ≡ codes "&#" ++ decimal c ++ codes ";") }
{
    let number = c as u32;
    format!(in alloc; "&#{number};")
}

// Appends a reference to a character by its number, so that the document is of ASCII alone.
fn put_reference(alloc: Global, out: &mut Vec<u8>, c: char) -> Result<(), AllocError>
    ensures put { OnOk result (AddsText (c ∷ []) out.old.items out.new.items) }
{
    let reference = reference_to(alloc, drawn(c))?;
    out.extend_from_slice(reference.as_bytes())
}

// Appends a byte that stands for itself.
fn put_plain(out: &mut Vec<u8>, c: char) -> Result<(), AllocError>
    requires plain { IsPlain c }
    ensures put { OnOk result (AddsText (c ∷ []) out.old.items out.new.items) }
{
    out.push(c as u8)?;
    Ok(())
}

// Whether a character is a tab or a line end.
fn is_blank(c: char) -> bool
    ensures blank { result ≡ true → IsBlank c }
{
    matches!(c, '\t' | '\n' | '\r')
}

// Appends a character.
fn put_character(alloc: Global, out: &mut Vec<u8>, c: char) -> Result<(), AllocError>
    ensures put { OnOk result (AddsText (c ∷ []) out.old.items out.new.items) }
{
    match c {
        '&' => out.extend_from_slice(b"&amp;"),
        '<' => out.extend_from_slice(b"&lt;"),
        '>' => out.extend_from_slice(b"&gt;"),
        '"' => out.extend_from_slice(b"&quot;"),
        ' '..='~' => put_plain(out, c),
        _ if is_blank(c) => out.extend_from_slice(b" "),
        _ => put_reference(alloc, out, c),
    }
}

/// Appends a text, whatever its bytes are. Each piece that isn't UTF-8 is one U+FFFD.
pub(crate) fn put_data(alloc: Global, out: &mut Vec<u8>, text: &[u8]) -> Result<(), AllocError>
    ensures put { OnOk result (AddsText (lossy_chars text.now) out.old.items out.new.items) }
{
    for c in text.chars() {
        put_character(alloc, out, c)?;
    }
    Ok(())
}
