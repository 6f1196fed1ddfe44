//! A document that is drawn on. It remembers where memory was refused, so that who draws doesn't ask each time.

ghost use Rattle.std.specs.Prelude.{◌≡◌, IfOk};
ghost use Rattle.flounder_svg.specs.declared.names.Tag.TheVariants.{Svg};
ghost use Rattle.flounder_svg.specs.Xml.{IsDocument};

use crate::cutting::fitted;
use flounder_svg::{Attribute, Document, StartTag, Tag};
use std::alloc::{AllocError, Global};

/// A document so far, which is whole unless memory was refused; then it isn't given.
#[derive(Drop)]
pub(crate) struct Canvas {
    pub alloc: Global,
    document: Document,
    is_whole: bool,
}

/// Where a text stands, and how it looks.
#[derive(Clone, Copy)]
pub(crate) struct Placed {
    pub class: &'static [u8],
    pub x: u32,
    pub y: u32,
}

// A start tag with some attributes that are words, and some that are numbers.
fn element(
    alloc: Global,
    tag: Tag,
    words: &[(Attribute, &[u8])],
    numbers: &[(Attribute, u32)],
) -> Result<StartTag, AllocError>
    ensures tag { IfOk result (λ s. s.tag ≡ tag) }
{
    let mut start = StartTag::new(alloc, tag)?;
    'words: for (attribute, value) in words {
        start = start.with(*attribute, value)?;
    }
    'numbers: for (attribute, number) in numbers {
        start = start.at(*attribute, *number)?;
    }
    Ok(start)
}

// The document's root.
fn root(alloc: Global, view: &[u8], width: u32) -> Result<StartTag, AllocError>
    ensures root { IfOk result (λ s. s.tag ≡ Svg) }
{
    element(
        alloc,
        Tag::Svg,
        &[
            (Attribute::Namespace, b"http://www.w3.org/2000/svg"),
            (Attribute::ViewBox, view),
            (Attribute::Class, b"chart"),
            (Attribute::Role, b"graphics-document"),
            (Attribute::AriaLabelledBy, b"title desc"),
        ],
        &[(Attribute::Width, width)],
    )
}

// A document in which nothing stands yet, of this size.
fn empty(alloc: Global, width: u32, height: u32) -> Result<Document, AllocError> {
    let view = format!(in alloc; "0 0 {width} {height}")?;
    let root = root(alloc, view.as_bytes(), width)?;
    Document::new(alloc, root)
}

impl Canvas {
    /// Nothing is drawn yet.
    ///
    /// # Errors
    /// Out of memory.
    pub(crate) fn new(alloc: Global, width: u32, height: u32) -> Result<Canvas, AllocError> {
        match empty(alloc, width, height) {
            Ok(document) => Ok(Canvas {
                alloc,
                document,
                is_whole: true,
            }),
            Err(error) => Err(error),
        }
    }

    /// The document, if memory was never refused.
    ///
    /// # Errors
    /// Out of memory.
    pub(crate) fn finish(self) -> Result<Vec<u8>, AllocError>
        ensures document { IfOk result (λ drawing. IsDocument drawing.items) }
    {
        let Canvas {
            document,
            is_whole,
            ..
        } = self;
        if !is_whole {
            return Err(AllocError);
        }
        document.finish()
    }

    /// A text that was made to be drawn; nothing stands for it where memory was refused.
    pub(crate) fn made(&mut self, text: Result<String, AllocError>) -> String {
        match text {
            Ok(text) => text,
            Err(_) => {
                self.is_whole = false;
                String::new(self.alloc)
            }
        }
    }

    /// Begins an element: what follows stands in it, until it is closed.
    pub(crate) fn begin(
        &mut self,
        tag: Tag,
        words: &[(Attribute, &[u8])],
        numbers: &[(Attribute, u32)],
    ) {
        let is_begun = match element(self.alloc, tag, words, numbers) {
            Ok(start) => self.document.begin(start).is_ok(),
            Err(_) => false,
        };
        self.is_whole = self.is_whole && is_begun;
    }

    /// Puts in an element in which nothing stands.
    pub(crate) fn put(
        &mut self,
        tag: Tag,
        words: &[(Attribute, &[u8])],
        numbers: &[(Attribute, u32)],
    ) {
        let is_put = match element(self.alloc, tag, words, numbers) {
            Ok(element) => self.document.put(element).is_ok(),
            Err(_) => false,
        };
        self.is_whole = self.is_whole && is_put;
    }

    /// Puts in a text, whatever its bytes are.
    pub(crate) fn say(&mut self, text: &[u8]) {
        let is_said = self.document.say(text).is_ok();
        self.is_whole = self.is_whole && is_said;
    }

    /// Closes the element that was opened last.
    pub(crate) fn close(&mut self) {
        let is_closed = self.document.close().is_ok();
        self.is_whole = self.is_whole && is_closed;
    }

    /// The title of the element that stands open.
    pub(crate) fn title(&mut self, text: &[u8]) {
        self.begin(Tag::Title, &[], &[]);
        self.say(text);
        let is_closed = self.document.close_inside().is_ok();
        self.is_whole = self.is_whole && is_closed;
    }

    /// An element in which a text stands alone.
    pub(crate) fn text_in(&mut self, tag: Tag, words: &[(Attribute, &[u8])], text: &[u8]) {
        self.begin(tag, words, &[]);
        self.say(text);
        self.close();
    }

    /// A group of one kind of things, which is named for those who hear the drawing read.
    pub(crate) fn open_group(&mut self, role: &[u8], name: &[u8]) {
        self.begin(
            Tag::Group,
            &[(Attribute::Role, role), (Attribute::AriaLabel, name)],
            &[],
        );
    }

    /// A text that is cut behind so many letters; all of it is kept as its title.
    pub(crate) fn label(&mut self, placed: Placed, text: &[u8], most: usize) {
        self.begin(
            Tag::Text,
            &[(Attribute::Class, placed.class)],
            &[(Attribute::X, placed.x), (Attribute::Y, placed.y)],
        );
        let (shown, is_cut) = fitted(text, most);
        if is_cut {
            self.title(text);
        }
        self.say(shown);
        if is_cut {
            self.say("…".as_bytes());
        }
        self.close();
    }

    /// A straight line.
    pub(crate) fn line(&mut self, class: &[u8], from: (u32, u32), to: (u32, u32)) {
        self.put(
            Tag::Line,
            &[(Attribute::Class, class)],
            &[
                (Attribute::X1, from.0),
                (Attribute::Y1, from.1),
                (Attribute::X2, to.0),
                (Attribute::Y2, to.1),
            ],
        );
    }

    /// A rectangle: its corner, and its sizes.
    pub(crate) fn rectangle(&mut self, class: &[u8], corner: (u32, u32), size: (u32, u32)) {
        self.put(
            Tag::Rect,
            &[(Attribute::Class, class)],
            &[
                (Attribute::X, corner.0),
                (Attribute::Y, corner.1),
                (Attribute::Width, size.0),
                (Attribute::Height, size.1),
            ],
        );
    }

    /// A dot in which nothing stands.
    pub(crate) fn dot(&mut self, class: &[u8], at: (u32, u32), radius: u32) {
        self.put(
            Tag::Circle,
            &[(Attribute::Class, class)],
            &[
                (Attribute::CenterX, at.0),
                (Attribute::CenterY, at.1),
                (Attribute::Radius, radius),
            ],
        );
    }
}
