//! Commands, and what a line is.

ghost use Rattle.std.specs.Prelude.{◌≡◌, ◌∷◌, true, is_some};
ghost use Rattle.fl_model.specs.Events.{asked_route};
ghost use Rattle.fl_model.specs.Views.{cores_of};
ghost use Rattle.fl_script_lines.specs.Words.{words_of, numbers_of, numbers_in};

use crate::word::{next_word, number};
use fl_base::Side;
use fl_model::{BackEnd, Route};
use fl_value_data::PlanNo;
use std::alloc::{AllocError, Global};

/// An end as a script names it: a binding's name, and `.c` for the client's end or `.s` for the service's.
#[derive(Clone, Copy)]
pub struct EndName<'a> {
    /// The binding's name, without `.c` or `.s`.
    pub binding: &'a [u8],
    /// Which of its two ends.
    pub side: Side,
}

/// The cores of a circuit's route, as a line has them: what is asked with, and the text of all of them.
#[derive(Clone, Copy)]
pub struct RouteText<'a> {
    /// The cores, as many as are asked with.
    pub asked: Route,
    /// The first core, the client's.
    pub first: u32,
    /// The text behind it: the numbers of the other cores, parted by blanks.
    pub others: &'a [u8],
    pub ghost numbers: { is_some (numbers_of (words_of others.now)) ≡ true },
    pub ghost same: { cores_of asked ≡ asked_route (first ∷ numbers_in others.now) },
}

impl RouteText<'_> {
    ghost use Rattle.std.specs.Prelude.{IfOk};

    /// All cores of the route, in order.
    ///
    /// # Errors
    /// Out of memory (E99), and nothing else.
    pub fn cores(&self, alloc: Global) -> Result<Vec<u32>, AllocError>
        ensures cores { IfOk result (λ v. v.items ≡ self.now.first ∷ numbers_in self.now.others.now) }
    {
        let mut cores = Vec::new(alloc);
        cores.push(self.first)?;
        let mut rest = self.others;
        loop {
            let (word, behind) = next_word(rest);
            let Some(core) = number(word) else {
                return Ok(cores);
            };
            cores.push(core)?;
            rest = behind;
        }
    }
}

/// How a binding's two ends are to be joined, as a line has it.
#[derive(Clone, Copy)]
pub enum BackEndText<'a> {
    /// By queues of so many slots, on one core.
    Local(u32),
    /// By a ring of so many slots each way, on two cores.
    Ump(u32),
    /// By a circuit over these cores.
    Hop(RouteText<'a>),
}

impl BackEndText<'_> {
    ghost use Rattle.fl_model.specs.Views.{kind_of};
    ghost use Rattle.fl_script_lines.specs.Asked.{kind_of as kind_asked};
    ghost use Rattle.fl_script_lines.specs.Views.{back_end_of};

    /// What is asked with.
    pub fn asked(self) -> BackEnd
        ensures kind { kind_of result ≡ kind_asked (back_end_of self.entry) }
    {
        match self {
            BackEndText::Local(slots) => BackEnd::Local(slots),
            BackEndText::Ump(slots) => BackEnd::Ump(slots),
            BackEndText::Hop(route) => BackEnd::Hop(route.asked),
        }
    }
}

/// What a line asks for. Names are lent by the line.
#[derive(Clone, Copy)]
pub enum Command<'a> {
    /// `cores`: the number of cores.
    Cores(u32),
    /// `link`: a link between the cores `a` and `b`, a ring of so many slots each way.
    Link {
        a: u32,
        b: u32,
        slots: u32,
    },
    /// `disp`: a dispatcher of this name on a core.
    Disp {
        name: &'a [u8],
        core: u32,
    },
    /// `export`: a service of this name, which a dispatcher offers under an interface, both told by their
    /// names.
    Export {
        name: &'a [u8],
        dispatcher: &'a [u8],
        interface: &'a [u8],
    },
    /// `bind`: a binding of this name, of a client's dispatcher to a service, under an interface, the three
    /// told by their names, and how its ends are to be joined.
    Bind {
        name: &'a [u8],
        client: &'a [u8],
        interface: &'a [u8],
        service: &'a [u8],
        back_end: BackEndText<'a>,
    },
    /// `call`: an end makes a call, told by its text, which no one has read yet.
    Call(EndName<'a>, &'a [u8]),
    /// `show`: the fragment that the end would write next is asked for.
    Show(EndName<'a>),
    /// `write`: the end writes its next fragment.
    Write(EndName<'a>),
    /// `turn`: one turn of the dispatcher of this name.
    Turn(&'a [u8]),
    /// `ack`: the end acknowledges what it has taken.
    Ack(EndName<'a>),
    /// `register`: the end's channel goes into its dispatcher's waitset.
    Register(EndName<'a>),
    /// `deregister`: the end's channel leaves its dispatcher's waitset.
    Deregister(EndName<'a>),
    /// `reply`: where the end handles the first message, it makes the call of the second, with the same
    /// arguments. Both are told by their names.
    Reply {
        end: EndName<'a>,
        message: &'a [u8],
        answer: &'a [u8],
    },
    /// `mwrite`: the core's monitor writes its next message onto the link to the neighbour.
    MonitorWrite {
        core: u32,
        neighbour: u32,
    },
    /// `forward`: the core forwards what stands first on the link from the neighbour.
    Forward {
        core: u32,
        neighbour: u32,
    },
    /// `mack`: the core acknowledges what it has read on the link from the neighbour.
    MonitorAck {
        core: u32,
        neighbour: u32,
    },
}

/// What a line is.
#[derive(Clone, Copy)]
pub enum Line<'a> {
    /// Blank or a comment: no answer.
    Silent,
    /// The head of a block that holds an interface's text, laid out by this plan.
    Heading(PlanNo),
    /// A command that is read.
    Command(Command<'a>),
    /// Nothing that is read: `refused E90`.
    Unread,
}

/// What a line is by its first word.
#[derive(Clone, Copy)]
pub enum LineHead<'a> {
    /// Blank or a comment: no answer.
    Silent,
    /// The head of a block that holds an interface's text, laid out by this plan.
    Heading(PlanNo),
    /// The word, and what stands behind it: a command, or nothing that is read.
    Command(Verb, &'a [u8]),
    /// Nothing that is read: `refused E90`.
    Unread,
}

/// The first word of a line: a variant for each word that begins a command, by its name in small letters;
/// `Idl` for the word that heads a block; `Unknown` for any other word.
#[derive(Clone, Copy, Debug, PartialEq, Eq)]
pub enum Verb {
    Idl,
    Cores,
    Link,
    Disp,
    Export,
    Bind,
    Call,
    Show,
    Write,
    Turn,
    Ack,
    Register,
    Deregister,
    Reply,
    Mwrite,
    Forward,
    Mack,
    Unknown,
}
