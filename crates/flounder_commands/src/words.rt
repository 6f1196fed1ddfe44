//! The faults of lines in words: what is wrong with a line of a script or a cores file, and what to do.

use fl_script_lines::Verb;

/// What is wrong, and what to do.
#[derive(Clone, Copy)]
pub(crate) struct LineWords {
    pub fault: &'static str,
    pub remedy: &'static str,
}

// The form of the command of a word.
fn form_of(verb: Verb) -> &'static str {
    match verb {
        Verb::Idl =>
            "a block begins with a line that is idl or idl 1, and ends with one that is . alone",
        Verb::Cores => "its form is: cores N",
        Verb::Link => "its form is: link CORE CORE SLOTS",
        Verb::Disp => "its form is: disp NAME CORE",
        Verb::Export => "its form is: export SERVICE DISPATCHER INTERFACE",
        Verb::Bind => {
            "its form is: bind NAME DISPATCHER INTERFACE SERVICE, then local SLOTS, ump SLOTS or hop CORE .."
        }
        Verb::Reply => "its form is: reply END MESSAGE MESSAGE, an end being as p.c or p.s",
        Verb::Call => "its form is: call END MESSAGE(ARGUMENTS), as call p.c ping(7)",
        Verb::Show => "its form is: show END; a cores file has none",
        Verb::Write => "its form is: write END; a cores file has none",
        Verb::Turn => "its form is: turn DISPATCHER; a cores file has none",
        Verb::Ack => "its form is: ack END; a cores file has none",
        Verb::Register => "its form is: register END; a cores file has none",
        Verb::Deregister => "its form is: deregister END; a cores file has none",
        Verb::Mwrite => "its form is: mwrite CORE NEIGHBOUR; a cores file has none",
        Verb::Forward => "its form is: forward CORE NEIGHBOUR; a cores file has none",
        Verb::Mack => "its form is: mack CORE NEIGHBOUR; a cores file has none",
        Verb::Unknown => "docs/SCRIPTS.md lists all commands, docs/CORES.md those of a cores file",
    }
}

// Which name is taken or isn't there.
fn name_of(verb: Verb) -> LineWords {
    match verb {
        Verb::Idl => LineWords {
            fault: "there is an interface of this name already",
            remedy: "choose another name in the text",
        },
        Verb::Disp => LineWords {
            fault: "there is a dispatcher of this name already",
            remedy: "choose another name",
        },
        Verb::Export => LineWords {
            fault: "there is no such dispatcher, or no such interface",
            remedy: "make both above this line: export SERVICE DISPATCHER INTERFACE",
        },
        Verb::Bind => LineWords {
            fault: "the binding's name is taken, or there is no such dispatcher or no such interface",
            remedy: "choose another name, or make both above this line: bind NAME DISPATCHER INTERFACE SERVICE ..",
        },
        Verb::Turn => LineWords {
            fault: "there is no dispatcher of this name",
            remedy: "make it above this line, or mend its name",
        },
        _ => LineWords {
            fault: "there is no binding of this name",
            remedy: "bind it above this line, or mend its name",
        },
    }
}

// The faults of calls and ends.
fn words_of_ends(number: u32) -> Option<LineWords> {
    let (fault, remedy) = match number {
        32 => (
            "a queue or ring can't have so many slots",
            "1 to 1024 slots for local, a power of two from 4 to 1024 for ump and link",
        ),
        40 => (
            "the end still writes an earlier call",
            "write it until the answer is `written k of k`",
        ),
        41 => (
            "the interface has no such message",
            "mend its name; the messages of an rpc f are f_call and f_response",
        ),
        42 => (
            "the arguments don't fit the message's types",
            "compare with the interface: so many arguments, each within its type; of a rule both messages have the same",
        ),
        43 => (
            "the end isn't bound yet, or its opening was refused",
            "let the monitors open the circuit first; after a refusal bind anew, by another name",
        ),
        44 => (
            "one end of a binding makes calls, and rules answer at the other",
            "give an end calls or rules, and not both; rules stand at one end of a binding alone",
        ),
        50 => ("the channel is registered already", "leave the line out"),
        51 => ("the channel isn't registered", "register it first"),
        54 => (
            "a dispatcher would have over 1024 ends",
            "spread the bindings over more dispatchers",
        ),
        _ => return None,
    };
    Some(LineWords { fault, remedy })
}

// The faults of names, routes and scripts.
fn words_of_names(number: u32) -> Option<LineWords> {
    let (fault, remedy) = match number {
        70 => (
            "there is no service of this name",
            "export it above this line",
        ),
        71 => ("the service's name is taken", "choose another name"),
        72 => (
            "the service has another interface",
            "bind with the interface that it was exported with",
        ),
        73 => (
            "there is no such core, link or route",
            "cores count from 0 to below the number of `cores`; local is for one core, ump for two; \
             a route goes from the client's core to the service's, over links",
        ),
        74 => (
            "a core has opened 1023 circuits on this link",
            "take another link",
        ),
        75 => (
            "64 messages wait to be sent over the link",
            "send what waits, by mwrite, and try again",
        ),
        91 => ("it has over 1048576 bytes", "split it"),
        93 => (
            "the number of cores comes too late",
            "put `cores` before all but interfaces, and once",
        ),
        94 => (
            "there would be too many",
            "1 to 16 cores, 64 interfaces, 256 dispatchers, 256 services, 1024 bindings, 15 links of a core",
        ),
        _ => return None,
    };
    Some(LineWords { fault, remedy })
}

/// What is wrong with a line that begins with this word, by the fault's number, and what to do.
pub(crate) fn words_of(number: u32, verb: Verb) -> Option<LineWords> {
    match number {
        90 => Some(LineWords {
            fault: "this is no line that is read here",
            remedy: form_of(verb),
        }),
        92 => Some(name_of(verb)),
        _ => words_of_ends(number).or(words_of_names(number)),
    }
}
