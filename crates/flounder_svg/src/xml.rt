//! A document as it is written: which elements stand open, and its text so far. Whatever is asked of it, what
//! [`Document::finish`] gives is well-formed.

ghost use Rattle.std.specs.Prelude.{◌≡◌, ◌++◌, ◌∷◌, [], List, ℕ, codes, not, is_ok, if◌then◌else◌, IfOk, OnOk, OnErr};
ghost use Rattle.std.specs.Fmt.{decimal};
ghost use Rattle.std.specs.List.{list_all};
ghost use Rattle.std.specs.Str.{bytes_eq};
ghost use Rattle.bstr.specs.Utf8.{lossy_chars};
ghost use Rattle.flounder_svg.specs.declared.names.Tag.TheVariants.{Svg};
ghost use Rattle.flounder_svg.specs.Names.{tag_name, attribute_name};
ghost use Rattle.flounder_svg.specs.Xml.{Spells, IsNewTo, IsDocument, Closes, end_tag};
ghost use Rattle.flounder_svg.specs.Shown.{AddsText, GivesOne};

use crate::data::put_data;
use crate::names::{Attribute, Tag};
use std::alloc::{AllocError, Global};
use std::marker::Model;

/// A start tag without its end: a name and attributes.
#[derive(Drop)]
pub struct StartTag {
    alloc: Global,
    tag: Tag,
    given: Vec<Attribute>,
    text: Vec<u8>,
}

impl Model for StartTag {
    ghost use Rattle.flounder_svg.specs.Xml.{Start, IsStart};

    ghost Value = { Start };

    ghost view = { λ s. record { tag = s.tag; given = s.given.items; text = s.text.items } };

    ghost invariant = { λ s. IsStart s.tag s.given.items s.text.items };
}

// Whether an attribute isn't among those that were given.
fn is_new(given: &[Attribute], attribute: Attribute) -> bool
    ensures same { result ≡ list_all (λ other. not (bytes_eq (attribute_name other) (attribute_name attribute))) given.now }
{
    given.iter().all(|other| other.name() != attribute.name())
}

impl StartTag {
    /// An element's start tag without attributes.
    ///
    /// # Errors
    /// Out of memory.
    pub fn new(alloc: Global, tag: Tag) -> Result<StartTag, AllocError>
        ensures tag { IfOk result (λ s. s.tag ≡ tag) }
        ensures none { IfOk result (λ s. s.given ≡ []) }
        ensures text { IfOk result (λ s. s.text ≡ codes "<" ++ tag_name tag) }
    {
        let mut text = Vec::new(alloc);
        text.push(b'<')?;
        text.extend_from_slice(tag.name())?;
        Ok(StartTag {
            alloc,
            tag,
            given: Vec::new(alloc),
            text,
        })
    }

    /// With one attribute more; one that it has already stays as it is.
    ///
    /// # Errors
    /// Out of memory.
    pub fn with(self, attribute: Attribute, value: &[u8]) -> Result<StartTag, AllocError>
        ensures tag { IfOk result (λ s. s.tag ≡ self.tag) }
        ensures one { IfOk result (λ s. IsNewTo self.given attribute → GivesOne self attribute (lossy_chars value.now) s) }
        ensures same { IfOk result (λ s. (IsNewTo self.given attribute → ⊥) → s ≡ self) }
    {
        if !is_new(&self.given, attribute) {
            return Ok(self);
        }
        let StartTag {
            alloc,
            tag,
            mut given,
            mut text,
        } = self;
        given.push(attribute)?;
        text.push(b' ')?;
        text.extend_from_slice(attribute.name())?;
        text.extend_from_slice(b"=\"")?;
        put_data(alloc, &mut text, value)?;
        text.push(b'"')?;
        Ok(StartTag {
            alloc,
            tag,
            given,
            text,
        })
    }

    /// The same for a number.
    ///
    /// # Errors
    /// Out of memory.
    pub fn at(self, attribute: Attribute, number: u32) -> Result<StartTag, AllocError>
        ensures tag { IfOk result (λ s. s.tag ≡ self.tag) }
        ensures one { IfOk result (λ s. IsNewTo self.given attribute → GivesOne self attribute (lossy_chars (decimal number)) s) }
        ensures same { IfOk result (λ s. (IsNewTo self.given attribute → ⊥) → s ≡ self) }
    {
        let digits = format!(in self.alloc; "{number}")?;
        self.with(attribute, digits.as_bytes())
    }
}

/// A document that isn't closed yet.
#[derive(Drop)]
pub struct Document {
    alloc: Global,
    // Inside the root, outermost first.
    tags: Vec<Tag>,
    text: Vec<u8>,
}

impl Model for Document {
    ghost use Rattle.flounder_svg.specs.Xml.{Written, IsBegun};

    ghost Value = { Written };

    ghost view = { λ d. record { tags = d.tags.items; text = d.text.items } };

    ghost invariant = { λ d. IsBegun d.tags.items d.text.items };
}

impl Document {
    /// A document whose root begins so.
    ///
    /// # Errors
    /// Out of memory.
    pub fn new(alloc: Global, root: StartTag) -> Result<Document, AllocError>
        requires { root.tag ≡ Svg }
        ensures begun { IfOk result (λ d. d.tags ≡ []) }
        ensures text { IfOk result (λ d. d.text ≡ root.text ++ codes ">\n") }
    {
        let StartTag { mut text, .. } = root;
        text.extend_from_slice(b">\n")?;
        Ok(Document {
            alloc,
            tags: Vec::new(alloc),
            text,
        })
    }

    /// Begins an element: what follows stands in it, until it is closed.
    ///
    /// # Errors
    /// Out of memory; nothing changed.
    pub fn begin(&mut self, start: StartTag) -> Result<(), AllocError>
        ensures ok { OnOk result (self.new.tags ≡ self.old.tags ++ start.tag ∷ []) }
        ensures text { OnOk result (self.new.text ≡ self.old.text ++ (start.text ++ codes ">")) }
        ensures err { OnErr result (self.new ≡ self.old) }
    {
        let StartTag { tag, mut text, .. } = start;
        text.push(b'>')?;
        self.tags.push(tag)?;
        if let Err(error) = self.text.extend_from_slice(&text) {
            self.tags.pop();
            return Err(error);
        }
        Ok(())
    }

    /// Closes the element that was opened last, and ends the line; the root alone stays open.
    ///
    /// # Errors
    /// Out of memory; nothing changed.
    pub fn close(&mut self) -> Result<(), AllocError>
        ensures ok { OnOk result (Closes (codes "\n") self.old self.new) }
        ensures err { OnErr result (self.new ≡ self.old) }
    {
        self.close_with(b"\n")
    }

    /// The same within a line: no blank stands behind the element.
    ///
    /// # Errors
    /// Out of memory; nothing changed.
    pub fn close_inside(&mut self) -> Result<(), AllocError>
        ensures ok { OnOk result (Closes [] self.old self.new) }
        ensures err { OnErr result (self.new ≡ self.old) }
    {
        self.close_with(b"")
    }

    // Closes the element that was opened last, with this behind it.
    fn close_with(&mut self, behind: &[u8]) -> Result<(), AllocError>
        requires { Spells behind.now behind.now }
        ensures ok { OnOk result (Closes behind.now self.old self.new) }
        ensures err { OnErr result (self.new ≡ self.old) }
    {
        let Some(tag) = self.tags.pop() else {
            return Ok(());
        };
        if let Err(error) = append_end(self.alloc, &mut self.text, tag, behind) {
            self.tags.push_reserved(tag);
            return Err(error);
        }
        Ok(())
    }

    /// Puts in an element in which nothing stands.
    ///
    /// # Errors
    /// Out of memory; nothing changed.
    pub fn put(&mut self, element: StartTag) -> Result<(), AllocError>
        ensures ok { OnOk result (self.new.tags ≡ self.old.tags) }
        ensures text { OnOk result (self.new.text ≡ self.old.text ++ (element.text ++ codes "/>\n")) }
        ensures err { OnErr result (self.new ≡ self.old) }
    {
        let StartTag { mut text, .. } = element;
        text.extend_from_slice(b"/>\n")?;
        self.text.extend_from_slice(&text)
    }

    /// Puts in a text, whatever its bytes are.
    ///
    /// # Errors
    /// Out of memory; nothing changed.
    pub fn say(&mut self, text: &[u8]) -> Result<(), AllocError>
        ensures ok { OnOk result (self.new.tags ≡ self.old.tags) }
        ensures text { OnOk result (AddsText (lossy_chars text.now) self.old.text self.new.text) }
        ensures err { OnErr result (self.new ≡ self.old) }
    {
        let mut shown = Vec::new(self.alloc);
        put_data(self.alloc, &mut shown, text)?;
        self.text.extend_from_slice(&shown)
    }

    /// Closes all that stands open, and gives the document.
    ///
    /// # Errors
    /// Out of memory.
    pub fn finish(self) -> Result<Vec<u8>, AllocError>
        ensures document { IfOk result (λ text. IsDocument text.items) }
        ensures whole { IfOk result (λ text. (rest : List ℕ) × (text.items ≡ self.text ++ rest)) }
    {
        let mut document = self;
        'elements: while !document.tags.is_empty() {
            document.close()?;
        }
        let Document { mut text, .. } = document;
        text.extend_from_slice(b"</svg>\n")?;
        Ok(text)
    }
}

// Appends an element's end tag, with what stands behind it.
fn append_end(alloc: Global, text: &mut Vec<u8>, tag: Tag, behind: &[u8]) -> Result<(), AllocError>
    ensures items { text.new.items ≡ (if is_ok result then text.old.items ++ (end_tag tag ++ behind.now) else text.old.items) }
{
    let end = end_of(alloc, tag, behind)?;
    text.extend_from_slice(&end)
}

// An element's end tag, with what stands behind it.
fn end_of(alloc: Global, tag: Tag, behind: &[u8]) -> Result<Vec<u8>, AllocError>
    ensures text { IfOk result (λ v. v.items ≡ end_tag tag ++ behind.now) }
{
    let mut text = Vec::new(alloc);
    text.extend_from_slice(b"</")?;
    text.extend_from_slice(tag.name())?;
    text.push(b'>')?;
    text.extend_from_slice(behind)?;
    Ok(text)
}
