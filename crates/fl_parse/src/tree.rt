//! The tree that the grammar gives an interface's text. Names and numbers keep where they stand.

ghost use Rattle.std.specs.Prelude.{◌≡◌, true};
ghost use Rattle.fl_lex.specs.Words.{is_name};

/// A word of at most 64 bytes, and where it begins.
#[derive(Clone, Copy, Debug)]
pub struct Name<'a> {
    pub text: &'a [u8],
    pub at: usize,
    pub ghost named: { is_name text.now ≡ true },
}

/// A number, and where it begins.
#[derive(Clone, Copy, Debug)]
pub struct Number {
    pub value: u32,
    pub at: usize,
}

/// An interface: its name, its description with its quotes, and its declarations.
#[derive(Debug, Drop)]
pub struct Tree<'a> {
    pub name: Name<'a>,
    pub description: Option<&'a [u8]>,
    pub declarations: Vec<Declaration<'a>>,
}

/// One declaration.
#[derive(Debug, Drop)]
pub enum Declaration<'a> {
    /// `alias NEW OLD;`
    Alias {
        new: Name<'a>,
        old: Name<'a>,
    },
    /// `typedef OLD NEW;` or `typedef OLD NEW[COUNT];`
    Typedef {
        old: Name<'a>,
        new: Name<'a>,
        count: Option<Number>,
    },
    /// `typedef enum { MEMBERS } NAME;`
    Enumeration {
        members: Vec<Name<'a>>,
        name: Name<'a>,
    },
    /// `typedef struct { FIELDS } NAME;`
    Structure {
        fields: Vec<Field<'a>>,
        name: Name<'a>,
    },
    /// `message NAME(ARGUMENTS);`, or `call` or `response` in its place
    Message {
        kind: MessageKind,
        name: Name<'a>,
        args: Vec<Argument<'a>>,
    },
    /// `rpc NAME(ARGUMENTS);`, each argument with its direction
    Rpc {
        name: Name<'a>,
        args: Vec<DirectedArgument<'a>>,
    },
}

/// The word that a message is declared with; the three mean the same.
#[derive(Clone, Copy, Debug, PartialEq, Eq)]
pub enum MessageKind {
    Message,
    Call,
    Response,
}

/// Which of an rpc's two messages carries an argument.
#[derive(Clone, Copy, Debug, PartialEq, Eq)]
pub enum Direction {
    In,
    Out,
}

/// A field of a struct: `TYPE NAME;` or `TYPE NAME[COUNT];`.
#[derive(Clone, Copy, Debug)]
pub struct Field<'a> {
    pub type_name: Name<'a>,
    pub name: Name<'a>,
    pub count: Option<Number>,
}

/// An argument of a message.
#[derive(Clone, Copy, Debug)]
pub struct Argument<'a> {
    pub type_name: Name<'a>,
    pub name: Name<'a>,
    pub shape: Shape<'a>,
}

/// What stands after an argument's name.
#[derive(Clone, Copy, Debug)]
pub enum Shape<'a> {
    /// Nothing: a fixed type, or a string without a bound.
    Plain,
    /// `[NUMBER]`: a string with a bound.
    Bounded(Number),
    /// `[LENGTH]` or `[LENGTH, BOUND]`: a sized array.
    Sized {
        length: Name<'a>,
        bound: Option<Number>,
    },
}

/// An argument of an rpc.
#[derive(Clone, Copy, Debug)]
pub struct DirectedArgument<'a> {
    pub direction: Direction,
    pub argument: Argument<'a>,
}
