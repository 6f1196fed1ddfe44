//! The words of the command line, read by `clap`.

ghost use Rattle.std.specs.Prelude.{◌≡◌, false, map, option_map, IfOk, Some, codes};
ghost use Rattle.clap.specs.Words.{App, Rule, new_app, new_rule, with_rule, with_subcommand};
ghost use Rattle.clap.specs.Words.{FailsBy, fault_of, first_of, found_of, rows_of, rule_of, subcommand_rows_of};
ghost use Rattle.flounder_args.specs.Words.{exec_command, exec_with_explain, exec_asked, flag, is_told};
ghost use Rattle.flounder_args.specs.Words.{bare_program, to_compile, show_command, compile_command, program, IsCommand};
ghost use Rattle.flounder_args.specs.Words.{required, with_exec, with_compile, with_show, with_cores, with_chart};
ghost use Rattle.flounder_args.specs.Words.{turns_option, cores_with_turns, cores_command, cores_asked, cores_of, turns_asked};
ghost use Rattle.flounder_args.specs.Words.{chart_command, chart_asked, header_command, header_asked};
ghost use Rattle.flounder_args.specs.Words.{asked_by, show_asked, compile_asked, command_asked, asked_of, asks_for, refusals};

use clap::builder::ValueParser;
use clap::error::ErrorKind;
use clap::{Arg, ArgAction, ArgMatches, Command, Error};
use std::alloc::{AllocError, Global};
use std::convert::AsStr;

/// What the words ask for.
#[derive(Clone, Copy)]
pub enum Request<'a> {
    /// Run the script on standard input: tell its refused lines in words, and end with a status of their own.
    Exec {
        explain: bool,
        strict: bool,
    },
    /// Print the plan table of the interface in this file, with its arguments' names.
    Show {
        file: &'a str,
        names: bool,
    },
    /// Write the image of the interface in the one file to the other.
    Compile {
        file: &'a str,
        out: &'a str,
    },
    /// Run the cores file, with so many turns of a core counted at most; and write a script of the run, where a file for it
    /// is named.
    Cores {
        file: &'a str,
        turns: u64,
        script: Option<&'a str>,
    },
    /// Draw the run of the script in this file, of all of its lines or of those that a word tells.
    Chart {
        file: &'a str,
        lines: Option<&'a str>,
    },
    /// Print a header in C for the interface in this file.
    Header {
        file: &'a str,
    },
}

const EXEC: &str = "exec";

const SHOW: &str = "show";

const COMPILE: &str = "compile";

const CORES: &str = "cores";

const CHART: &str = "chart";

const HEADER: &str = "header";

const FILE: &str = "FILE";

const OUT: &str = "OUT";

const TURNS: &str = "N";

const EXPLAIN: &str = "explain";

const STRICT: &str = "strict";

const NAMES: &str = "names";

const VERSION: &str = "0.1.0";

const LONG_TURNS: &str = "turns";

const LONG_SCRIPT: &str = "script";

const LINES: &str = "A-B";

const LONG_LINES: &str = "lines";

// So many turns of a core may be counted.
const MAX_TURNS: u64 = 1_000_000_000_000;

const HINT_SCRIPT: &str = "\nhelp: a script comes in on standard input: flounder exec < FILE\n";

const ABOUT: &str =
    "Runs and draws scripts of messages between dispatchers, also with threads, compiles interfaces, and shows how they are laid out";

const STATUSES: &str = "\
Without a command, flounder does what `flounder exec` does: it runs the script that comes in on standard
input, as `flounder < FILE`, up to its end (on a terminal Ctrl-D).

Status:
  0  done, whatever a script's lines answer (with `exec --strict` 2 where one was refused)
  1  the command line isn't of a form shown here
  2  the file's content is refused: the first line on standard error is the fault alone, as `E14 at 24` of a
     text (its number, and its place in bytes) or `E82` of an image; the lines after it say it in words; of a
     cores file the line that is refused is told on standard output
  3  out of memory, or of threads
  4  a read or a write failed
  5  a core had something left to do after its N turns

The first fault is answered, in this order: the command line, reading FILE, its content, writing. FILE is read
whole first, so OUT is touched only where FILE was accepted. docs/FAULTS.md lists all faults.";

const ABOUT_EXEC: &str =
    "Runs the script on standard input and writes its transcript to standard output";

const AFTER_EXEC: &str = "\
The transcript has one answer line for each command. A script makes interfaces, cores, links, dispatchers and
bindings, and sends messages over them:

  idl
  interface i { message ping(uint32 v); }
  .
  disp d 0
  disp e 0
  export s e i
  bind p d i s local 4
  call p.c ping(7)
  write p.c
  turn e

A script comes in on standard input, as `flounder exec < FILE`. It is read whole before its first line is
run: typed on a terminal it ends with Ctrl-D, and is answered then. A line that is refused, as `refused E90`,
is an answer and no fault: the status is 0, or 3 where it ran out of memory and 4 where a read or a write
failed. With --strict it is 2 where a line was refused; --explain says on standard error what is wrong with
each. docs/SCRIPTS.md describes all commands and their answers.";

const HELP_EXPLAIN: &str =
    "Also tell each refused line on standard error: where it stands, what is wrong, and what to do";

const HELP_STRICT: &str = "End with status 2 where a line was refused";

const ABOUT_SHOW: &str =
    "Prints how long an interface's messages are, and where their arguments stand";

const AFTER_SHOW: &str = "\
Standard output gets the plan table, with these lines; numbers count from 0, sizes are in bytes:

  interface NAME plan P
  message K NAME least L greatest G fragments F
  arg J at O KIND

L and G are the least and greatest payload of message K, F the fragments of the greatest. O is where
argument J begins in the payload, or `-` where that depends on the strings and arrays before it. KIND is
`fixed SIZE`, `string max M` (M bytes) or `array max M stride S` (M elements of S bytes). P is the plan by which
calls are laid out: 2 for a text, and for an image the one that it was made for. With --names each argument's
line ends with a blank and its name, of which an image keeps none.

A file that begins with the four bytes `FLND` is read as an image, every other as a text. One that is refused
has status 2, and standard error tells its first fault. The whole file is read before anything is printed.
docs/INTERFACES.md describes the language, docs/IMAGES.md images.";

const HELP_SHOWN: &str = "An interface's text, or an image that `flounder compile` made";

const HELP_NAMES: &str = "Put each argument's name at the end of its line";

const ABOUT_COMPILE: &str = "Compiles an interface's text to an image";

const AFTER_COMPILE: &str = "\
The image keeps the interface, its plan (2) and the stub code of each message; docs/IMAGES.md describes its
bytes. `flounder show OUT` prints its plan table:

  flounder compile block.if block.image
  flounder show block.image

FILE is always read as a text, whole or until it is too long; OUT is made, or replaced, only where the text is accepted.
A text that is refused has status 2, and standard error tells its first fault, as

  E14 at 24
  block.if:1:25: messages carry no capabilities
      interface i { message m(cap c); }
                              ^
  help: leave the argument out

Where OUT can't be written the status is 4, and OUT may then hold only the beginning of the image, which is no
image.";

const HELP_TEXT: &str = "The interface's text";

const HELP_OUT: &str = "The image; a file of that name is replaced";

const ABOUT_CORES: &str = "Runs a cores file, with a thread for each core";

const AFTER_CORES: &str = "\
A cores file has the lines of a script that make things (idl, cores, link, disp, export, bind) and those that
hand in work (reply, call). What they make is set up; a circuit (bind .. hop) is opened while the cores run.
Each core runs on a thread of its own and does what is handed in at its ends, until all cores are done or it
has taken N turns:

  idl
  interface i { message ping(uint32 v); }
  .
  cores 2
  disp d 0
  disp e 1
  export s e i
  bind p d i s ump 4
  call p.c ping(7)

Standard output gets, for each binding in byte order of names, the calls that its ends handled, in order, or
why its opening was refused; and last `complete`, or `turns out` (status 5) where a core had something left to
do. A line that is refused is told alone, as `line 9 refused E44` (status 2), and nothing runs.

FILE is read whole first. N says how long a run goes on that gets stuck, since a core counts its turns also
while it waits: a million such turns take some seconds. On a terminal standard error gets a line a second;
Ctrl-C ends the run without a report. After `turns out` standard error tells what was left undone.
With --script the run is recorded, and told as a script that exec runs: at each end it handles the same calls.
docs/CORES.md describes cores files, and how to choose N.";

const HELP_CORES: &str = "The cores file";

const HELP_RECORD: &str = "The file that gets a script of the run";

const HELP_TURNS: &str =
    "How many turns of each core are counted at most: digits alone, from 0 to 1000000000000";

/// An option without a value.
fn flag<'a>(alloc: Global, name: &'a str, help: &'a str) -> Arg<'a>
    ensures rule { rule_of result ≡ flag name.now }
    ensures local { result.global ≡ false }
{
    Arg::new(alloc, name)
        .long(name)
        .action(ArgAction::SetTrue)
        .help(help)
}

/// An argument that has to be there.
fn required_argument<'a>(alloc: Global, id: &'a str, help: &'a str) -> Arg<'a>
    ensures rule { rule_of result ≡ required id.now }
    ensures local { result.global ≡ false }
{
    Arg::new(alloc, id).required(true).help(help)
}

/// An option with a value, which need not be there.
fn option_argument<'a>(alloc: Global, id: &'a str, long: &'a str, help: &'a str) -> Arg<'a>
    ensures rule { rule_of result ≡ record (new_rule id.now) { long = Some long.now } }
    ensures local { result.global ≡ false }
{
    Arg::new(alloc, id).long(long).help(help)
}

/// How many turns are counted.
fn turns_option<'a>(alloc: Global) -> Arg<'a>
    ensures rule { rule_of result ≡ turns_option }
    ensures local { result.global ≡ false }
{
    Arg::new(alloc, TURNS)
        .long(LONG_TURNS)
        .required(true)
        .value_parser(ValueParser::unsigned(0, MAX_TURNS))
        .help(HELP_TURNS)
}

/// A command of this name, with these words of help.
fn described<'a>(alloc: Global, name: &'a str, about: &'a str, after: &'a str) -> Command<'a>
    ensures is { IsCommand (new_app name.now) result }
{
    Command::new(alloc, name).about(about).after_help(after)
}

/// A command with one more argument, where it could be made.
fn with_argument<'a>(
    made: Result<Command<'a>, AllocError>,
    arg: Arg<'a>,
) -> Result<Command<'a>, AllocError>
    ensures is { (a : App) (r : Rule) → IfOk made.entry (IsCommand a) → rule_of arg.entry ≡ r → arg.entry.global ≡ false
        → IfOk result (IsCommand (with_rule a r)) }
{
    match made {
        Ok(command) => command.arg(arg),
        Err(error) => {
            drop(arg);
            Err(error)
        }
    }
}

fn exec_with_explain<'a>(alloc: Global) -> Result<Command<'a>, AllocError>
    ensures is { IfOk result (IsCommand exec_with_explain) }
{
    described(alloc, EXEC, ABOUT_EXEC, AFTER_EXEC).arg(flag(alloc, EXPLAIN, HELP_EXPLAIN))
}

fn exec_command<'a>(alloc: Global) -> Result<Command<'a>, AllocError>
    ensures is { IfOk result (IsCommand exec_command) }
{
    with_argument(exec_with_explain(alloc), flag(alloc, STRICT, HELP_STRICT))
}

const ABOUT_CHART: &str = "Draws a script's run, as SVG";

const AFTER_CHART: &str = "\
Standard output gets a drawing: a lane for each dispatcher and monitor, a row for each line, an arrow for each
fragment, from the line that put it to the line that took it:

  flounder chart hello.flounder > hello.svg
  flounder chart long.flounder --lines 200-260 > part.svg

The script is run whole. A drawing has at most 5,000 rows; a longer script wants --lines. docs/GALLERY.md shows
drawings.";

const HELP_SCRIPT: &str = "The script";

const HELP_LINES: &str = "The first and the last line that are drawn; without it all";

const ABOUT_HEADER: &str = "Prints a header in C for an interface";

const AFTER_HEADER: &str = "\
Of each message M of the interface I standard output gets a struct, and functions that make the numbers of a
call of it and read them back, for callers of ffi/flounder.h:

  struct I_M         a member for each argument, a0, a1, ..
  I_M_number         the message's number
  I_M_most           how many numbers a call has at most
  I_M_put(m, call)   puts a call's numbers, and tells how many; 0 where a text or an array is too long
  I_M_get(m, call, count)   whether so many numbers are such a call, which then stands in the struct

A text's numbers are those of plan 2, an image's those of its own plan; docs/C.md describes calls. A file that
is refused has status 2, as of `show`, and nothing is printed.";

/// A command of this name that wants a file.
fn with_file<'a>(
    alloc: Global,
    name: &'a str,
    about: &'a str,
    after: &'a str,
    help: &'a str,
) -> Result<Command<'a>, AllocError>
    ensures is { IfOk result (IsCommand (with_rule (new_app name.now) (required (codes "FILE")))) }
{
    described(alloc, name, about, after).arg(required_argument(alloc, FILE, help))
}

fn show_command<'a>(alloc: Global) -> Result<Command<'a>, AllocError>
    ensures is { IfOk result (IsCommand show_command) }
{
    with_argument(
        with_file(alloc, SHOW, ABOUT_SHOW, AFTER_SHOW, HELP_SHOWN),
        flag(alloc, NAMES, HELP_NAMES),
    )
}

fn compile_command<'a>(alloc: Global) -> Result<Command<'a>, AllocError>
    ensures is { IfOk result (IsCommand compile_command) }
{
    with_argument(
        with_file(alloc, COMPILE, ABOUT_COMPILE, AFTER_COMPILE, HELP_TEXT),
        required_argument(alloc, OUT, HELP_OUT),
    )
}

fn cores_with_turns<'a>(alloc: Global) -> Result<Command<'a>, AllocError>
    ensures is { IfOk result (IsCommand cores_with_turns) }
{
    with_argument(
        with_file(alloc, CORES, ABOUT_CORES, AFTER_CORES, HELP_CORES),
        turns_option(alloc),
    )
}

fn cores_command<'a>(alloc: Global) -> Result<Command<'a>, AllocError>
    ensures is { IfOk result (IsCommand cores_command) }
{
    with_argument(
        cores_with_turns(alloc),
        option_argument(alloc, OUT, LONG_SCRIPT, HELP_RECORD),
    )
}

fn chart_command<'a>(alloc: Global) -> Result<Command<'a>, AllocError>
    ensures is { IfOk result (IsCommand chart_command) }
{
    with_argument(
        with_file(alloc, CHART, ABOUT_CHART, AFTER_CHART, HELP_SCRIPT),
        option_argument(alloc, LINES, LONG_LINES, HELP_LINES),
    )
}

fn header_command<'a>(alloc: Global) -> Result<Command<'a>, AllocError>
    ensures is { IfOk result (IsCommand header_command) }
{
    with_file(alloc, HEADER, ABOUT_HEADER, AFTER_HEADER, HELP_SHOWN)
}

fn bare_program<'a>(alloc: Global) -> Command<'a>
    ensures is { IsCommand bare_program result }
{
    described(alloc, "flounder", ABOUT, STATUSES)
        .disable_help_subcommand(true)
        .version(VERSION)
}

// A program with one more command, where that could be made.
fn one_more<'a>(
    program: Command<'a>,
    made: Result<Command<'a>, AllocError>,
) -> Result<Command<'a>, AllocError>
    ensures is { (p q : App) → IsCommand p program.entry → IfOk made.entry (IsCommand q)
        → IfOk result (IsCommand (with_subcommand p q.top)) }
{
    match made {
        Ok(command) => program.subcommand(command),
        Err(error) => {
            drop(program);
            Err(error)
        }
    }
}

/// A program with one more command, where both could be made.
fn with_one_more<'a>(
    program: Result<Command<'a>, AllocError>,
    made: Result<Command<'a>, AllocError>,
) -> Result<Command<'a>, AllocError>
    ensures is { (p q : App) → IfOk program.entry (IsCommand p) → IfOk made.entry (IsCommand q)
        → IfOk result (IsCommand (with_subcommand p q.top)) }
{
    match program {
        Ok(program) => one_more(program, made),
        Err(error) => {
            drop(made);
            Err(error)
        }
    }
}

fn with_exec<'a>(alloc: Global) -> Result<Command<'a>, AllocError>
    ensures is { IfOk result (IsCommand with_exec) }
{
    one_more(bare_program(alloc), exec_command(alloc))
}

fn with_compile<'a>(alloc: Global) -> Result<Command<'a>, AllocError>
    ensures is { IfOk result (IsCommand with_compile) }
{
    with_one_more(with_exec(alloc), compile_command(alloc))
}

fn with_show<'a>(alloc: Global) -> Result<Command<'a>, AllocError>
    ensures is { IfOk result (IsCommand with_show) }
{
    with_one_more(with_compile(alloc), show_command(alloc))
}

fn with_cores<'a>(alloc: Global) -> Result<Command<'a>, AllocError>
    ensures is { IfOk result (IsCommand with_cores) }
{
    with_one_more(with_show(alloc), cores_command(alloc))
}

fn with_chart<'a>(alloc: Global) -> Result<Command<'a>, AllocError>
    ensures is { IfOk result (IsCommand with_chart) }
{
    with_one_more(with_cores(alloc), chart_command(alloc))
}

fn command<'a>(alloc: Global) -> Result<Command<'a>, AllocError>
    ensures is { IfOk result (IsCommand program) }
{
    with_one_more(with_chart(alloc), header_command(alloc))
}

/// Whether an option without a value is there.
fn is_told(found: &ArgMatches<'_>, name: &str) -> bool
    ensures told { result ≡ is_told name.now (rows_of (found_of found.now)) }
{
    match found.get_str(name) {
        Some(word) => word == "true",
        None => false,
    }
}

/// What `exec` is asked for.
fn exec_request<'a>(found: &ArgMatches<'a>) -> Option<Request<'a>>
    ensures asked { option_map asked_by result ≡ exec_asked (rows_of (found_of found.now)) }
{
    let explain = is_told(found, EXPLAIN);
    let strict = is_told(found, STRICT);
    Some(Request::Exec { explain, strict })
}

/// What `show` is asked for, where its file was named.
fn show_request<'a>(found: &ArgMatches<'a>) -> Option<Request<'a>>
    ensures asked { option_map asked_by result ≡ show_asked (rows_of (found_of found.now)) }
{
    let names = is_told(found, NAMES);
    match found.get_str(FILE) {
        Some(file) => Some(Request::Show { file, names }),
        None => None,
    }
}

/// What `compile` is asked for of this file, where the other was named.
fn compile_to_request<'a>(file: &'a str, found: &ArgMatches<'a>) -> Option<Request<'a>>
    ensures asked { option_map asked_by result ≡ option_map (to_compile file.now) (first_of (codes "OUT") (rows_of (found_of found.now))) }
{
    match found.get_str(OUT) {
        Some(out) => Some(Request::Compile { file, out }),
        None => None,
    }
}

/// What `compile` is asked for, where both files were named.
fn compile_request<'a>(found: &ArgMatches<'a>) -> Option<Request<'a>>
    ensures asked { option_map asked_by result ≡ compile_asked (rows_of (found_of found.now)) }
{
    match found.get_str(FILE) {
        Some(file) => compile_to_request(file, found),
        None => None,
    }
}

/// How many turns `cores` is to count, where that was told.
fn turns_of(found: &ArgMatches<'_>) -> Option<u64>
    ensures turns { result ≡ turns_asked (rows_of (found_of found.now)) }
{
    found.get_one(TURNS)
}

/// The file that gets a script of the run, where one is named.
fn script_of<'a>(found: &ArgMatches<'a>) -> Option<&'a str>
    ensures script { option_map (λ out. out.now) result ≡ first_of (codes "OUT") (rows_of (found_of found.now)) }
{
    found.get_str(OUT)
}

/// What `cores` is asked for of this file, where the number of turns was told.
fn cores_with_request<'a>(file: &'a str, found: &ArgMatches<'a>) -> Option<Request<'a>>
    ensures asked { option_map asked_by result ≡ cores_of file.now (rows_of (found_of found.now)) }
{
    let script = script_of(found);
    match turns_of(found) {
        Some(turns) => Some(Request::Cores {
            file,
            turns,
            script,
        }),
        None => None,
    }
}

/// What `cores` is asked for, where the file was named and the number of turns told.
fn cores_request<'a>(found: &ArgMatches<'a>) -> Option<Request<'a>>
    ensures asked { option_map asked_by result ≡ cores_asked (rows_of (found_of found.now)) }
{
    match found.get_str(FILE) {
        Some(file) => cores_with_request(file, found),
        None => None,
    }
}

/// The lines that `chart` is to draw, where they were told.
fn lines_of<'a>(found: &ArgMatches<'a>) -> Option<&'a str>
    ensures lines { option_map (λ word. word.now) result ≡ first_of (codes "A-B") (rows_of (found_of found.now)) }
{
    found.get_str(LINES)
}

/// What `chart` is asked for, where its file was named.
fn chart_request<'a>(found: &ArgMatches<'a>) -> Option<Request<'a>>
    ensures asked { option_map asked_by result ≡ chart_asked (rows_of (found_of found.now)) }
{
    let lines = lines_of(found);
    match found.get_str(FILE) {
        Some(file) => Some(Request::Chart { file, lines }),
        None => None,
    }
}

/// What `header` is asked for, where its file was named.
fn header_request<'a>(found: &ArgMatches<'a>) -> Option<Request<'a>>
    ensures asked { option_map asked_by result ≡ header_asked (rows_of (found_of found.now)) }
{
    match found.get_str(FILE) {
        Some(file) => Some(Request::Header { file }),
        None => None,
    }
}

/// What a command of that name is asked for.
fn command_request<'a>(name: &str, found: &ArgMatches<'a>) -> Option<Request<'a>>
    ensures asked { option_map asked_by result ≡ command_asked name.now (rows_of (found_of found.now)) }
{
    if name == SHOW {
        show_request(found)
    } else if name == COMPILE {
        compile_request(found)
    } else if name == CORES {
        cores_request(found)
    } else if name == CHART {
        chart_request(found)
    } else if name == HEADER {
        header_request(found)
    } else {
        exec_request(found)
    }
}

/// What was asked for.
fn request_of<'a>(matches: &ArgMatches<'a>) -> Option<Request<'a>>
    ensures asked { option_map asked_by result ≡ asked_of (subcommand_rows_of matches.now) }
{
    match matches.subcommand() {
        Some((name, found)) => command_request(name, found),
        None => Some(Request::Exec {
            explain: false,
            strict: false,
        }),
    }
}

// What the words ask for; nothing where a value of their command is missing.
fn find_request<'a, S: AsStr>(
    command: &mut Command<'a>,
    words: &'a [S],
) -> Result<Option<Request<'a>>, Error>
    requires is { IsCommand program command.old }
    ensures asked { IfOk result (λ asked. option_map asked_by asked ≡ asks_for (map S.text words.entry.now)) }
    ensures refused { FailsBy (fault_of program (map S.text words.entry.now)) result }
{
    let matches = command.try_get_matches_from_mut(words)?;
    Ok(request_of(&matches))
}

// What the words ask for, as the program's command reads them.
fn request_by<'a, S: AsStr>(command: &mut Command<'a>, words: &'a [S]) -> Result<Request<'a>, Error>
    requires is { IsCommand program command.old }
    ensures asked { IfOk result (λ request. asks_for (map S.text words.entry.now) ≡ Some (asked_by request)) }
    ensures refused { FailsBy (refusals (map S.text words.entry.now)) result }
{
    match find_request(command, words)? {
        Some(request) => Ok(request),
        None => Err(command.error(
            ErrorKind::MissingRequiredArgument,
            "a file's name or a number is missing",
        )?),
    }
}

// What the words ask for, as this command reads them, which isn't needed any more then.
fn request_of_program<'a, S: AsStr>(
    mut command: Command<'a>,
    words: &'a [S],
) -> Result<Request<'a>, Error>
    requires is { IsCommand program command }
    ensures asked { IfOk result (λ request. asks_for (map S.text words.entry.now) ≡ Some (asked_by request)) }
    ensures refused { FailsBy (refusals (map S.text words.entry.now)) result }
{
    let request = request_by(&mut command, words);
    drop(command);
    request
}

/// What the words ask for; the first is the program's name.
///
/// # Errors
/// An error of the kind `DisplayHelp` where help is asked for, `OutOfMemory` when out of memory, and else one
/// that says what is wrong with the words.
pub fn read_words<'a, S: AsStr>(alloc: Global, words: &'a [S]) -> Result<Request<'a>, Error>
    ensures asked { IfOk result (λ request. asks_for (map S.text words.entry.now) ≡ Some (asked_by request)) }
    ensures refused { FailsBy (refusals (map S.text words.entry.now)) result }
{
    request_of_program(command(alloc)?, words)
}

// Whether a word asks for a command that is given a file.
fn takes_file(word: &str) -> bool {
    matches!(word, SHOW | COMPILE | CORES | CHART | HEADER)
}

/// What stands behind words that are refused: where `exec` is given a file, and where a file stands in a command's place,
/// how a script comes in.
pub fn hint<S: AsStr>(words: &[S]) -> &'static str {
    let Some(first) = words.get(1) else {
        return "";
    };
    let file = match first.as_str() {
        EXEC => words.get(2),
        word if takes_file(word) => None,
        _ => Some(first),
    };
    match file {
        Some(word) if !word.as_str().starts_with('-') => HINT_SCRIPT,
        _ => "",
    }
}
