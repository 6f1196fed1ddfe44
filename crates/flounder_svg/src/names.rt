//! The elements and attributes that a drawing has, by their names.

ghost use Rattle.std.specs.Prelude.{◌≡◌};
ghost use Rattle.flounder_svg.specs.Names.{tag_name, attribute_name};

/// An element; the root is `Svg`.
#[derive(Clone, Copy)]
pub enum Tag {
    Svg,
    Title,
    Desc,
    Style,
    Defs,
    Marker,
    Group,
    Rect,
    Line,
    Path,
    Circle,
    Text,
}

impl Tag {
    /// The element's name.
    pub fn name(self) -> &'static [u8]
        ensures name { result.now ≡ tag_name self }
    {
        match self {
            Tag::Svg => b"svg",
            Tag::Title => b"title",
            Tag::Desc => b"desc",
            Tag::Style => b"style",
            Tag::Defs => b"defs",
            Tag::Marker => b"marker",
            Tag::Group => b"g",
            Tag::Rect => b"rect",
            Tag::Line => b"line",
            Tag::Path => b"path",
            Tag::Circle => b"circle",
            Tag::Text => b"text",
        }
    }
}

/// What an element is told beside what stands in it.
#[derive(Clone, Copy)]
pub enum Attribute {
    Namespace,
    Id,
    Class,
    Role,
    AriaLabel,
    AriaLabelledBy,
    X,
    Y,
    X1,
    Y1,
    X2,
    Y2,
    Width,
    Height,
    CenterX,
    CenterY,
    Radius,
    D,
    ViewBox,
    RefX,
    RefY,
    MarkerWidth,
    MarkerHeight,
    Orient,
}

impl Attribute {
    /// The attribute's name.
    pub fn name(self) -> &'static [u8]
        ensures name { result.now ≡ attribute_name self }
    {
        match self {
            Attribute::Namespace => b"xmlns",
            Attribute::Id => b"id",
            Attribute::Class => b"class",
            Attribute::Role => b"role",
            Attribute::AriaLabel => b"aria-label",
            Attribute::AriaLabelledBy => b"aria-labelledby",
            Attribute::X => b"x",
            Attribute::Y => b"y",
            Attribute::X1 => b"x1",
            Attribute::Y1 => b"y1",
            Attribute::X2 => b"x2",
            Attribute::Y2 => b"y2",
            Attribute::Width => b"width",
            Attribute::Height => b"height",
            Attribute::CenterX => b"cx",
            Attribute::CenterY => b"cy",
            Attribute::Radius => b"r",
            Attribute::D => b"d",
            Attribute::ViewBox => b"viewBox",
            Attribute::RefX => b"refX",
            Attribute::RefY => b"refY",
            Attribute::MarkerWidth => b"markerWidth",
            Attribute::MarkerHeight => b"markerHeight",
            Attribute::Orient => b"orient",
        }
    }
}
