//! The laws: a script has a transcript, and one alone, and what `exec` leaves on a fault is a prefix of it.

ghost use Rattle.fl_script_exec.specs.Transcript.{HasTranscript, OneTranscript};
ghost use Rattle.fl_script_exec.specs.CutShort.{LeavesAPrefix};
ghost use Rattle.fl_script_exec.specs.Handled.{ScriptsHandlePrefixes};
ghost use Rattle.fl_script_exec.specs.Standing.{ScriptsNameWhatStands, ScriptsAskOfWhatStands};

/// Each byte string has a transcript, also one that is no script.
pub fn law_has_transcript()
    ensures some { HasTranscript }
{}

/// And no other: interfaces' texts and calls' texts are told by relations, and none of them leaves a choice. So what
/// `exec` writes is the transcript.
pub fn law_one_transcript()
    ensures one { OneTranscript }
{}

/// What [`exec`](crate::exec) leaves written on a fault is a prefix of the script's transcript.
pub fn law_prefix_of_the_transcript()
    ensures prefix { LeavesAPrefix }
{}

/// What a script's items ask of the machine is a run of it, and the handlers that run at each end run a prefix of the calls
/// accepted at the other, however far the script is run. (A script over the limit asks nothing: its transcript is one line.)
pub fn law_handlers_run_a_prefix()
    ensures handled { ScriptsHandlePrefixes }
{
    fl_model_laws::law_handled_is_a_prefix();
    fl_model_laws::law_all_accepted();
}

/// The names that a script has given are those of the machine's things: wherever it gets to, each name stands for the thing
/// at its place, no two names of a kind are the same, and each thing that can be named has a name.
pub fn law_names_stand()
    ensures stand { ScriptsNameWhatStands }
{
    fl_model_laws::law_runs_are_sound();
}

/// Whatever an item asks of the machine, the dispatchers, interfaces, ends and messages that it asks it of are there.
pub fn law_names_are_there()
    ensures there { ScriptsAskOfWhatStands }
{}
