//! Laws on the words of the command line, as the contract of a function that does nothing.

ghost use Rattle.flounder_args.specs.Words.{ExecIsAsked, ShowIsAsked, CompileIsAsked, CoresIsAsked, ChartIsAsked};
ghost use Rattle.flounder_args.specs.Words.{HeaderIsAsked, TurnsAreWanted, HelpIsAsked, VersionIsAsked};

/// What words ask for, whatever the program is called: no word and `exec` run a script, also with `--explain`
/// and `--strict`; `show FILE`, also with `--names`, `compile FILE OUT`, `cores FILE --turns N`,
/// also with `--script OUT`, `chart FILE`, also with `--lines A-B`, and `header FILE` do that with these files, this number and
/// these lines; `--help`, also behind a command, asks for help, and `--version` for the version. Without `--turns`, and with a word
/// that is no such number, the words are refused.
pub fn law_what_words_ask()
    ensures exec { ExecIsAsked }
    ensures show { ShowIsAsked }
    ensures compile { CompileIsAsked }
    ensures cores { CoresIsAsked }
    ensures turns { TurnsAreWanted }
    ensures chart { ChartIsAsked }
    ensures header { HeaderIsAsked }
    ensures help { HelpIsAsked }
    ensures version { VersionIsAsked }
{}
