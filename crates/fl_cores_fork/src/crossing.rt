//! What a core's thread is given may go there, and what came of it may come back. Nothing here does anything.

ghost use denote.Param.Send.{IsSend, IsSync};
ghost use Rattle.fl_value_data.specs.contracts.value.Call as CallRows;
ghost use Rattle.fl_compact_calls.specs.contracts.call.CompactCall as CompactCallRows;
ghost use Rattle.fl_compact_calls.specs.contracts.number_call.NumberCall as NumberCallRows;
ghost use Rattle.fl_compile.specs.contracts.program.Program as ProgramRows;
ghost use Rattle.fl_machine.specs.contracts.reassemblies.Reassemblies as ReassembliesRows;
ghost use Rattle.fl_endpoint.specs.contracts.end.End as EndRows;
ghost use Rattle.fl_core.specs.contracts.one_board.Board as BoardRows;
ghost use Rattle.fl_monitor.specs.contracts.messenger.Messenger as MessengerRows;
ghost use Rattle.fl_monitor.specs.contracts.monitor.Monitor as MonitorRows;
ghost use Rattle.fl_link.specs.contracts.queue.QueueLink as QueueLinkRows;
ghost use Rattle.fl_core.specs.contracts.one_core.Core as CoreRows;
ghost use Rattle.fl_history_sides.specs.contracts.sides.HistorySides as HistorySidesRows;
ghost use Rattle.fl_nameserv.specs.contracts.names.Names as NamesRows;
ghost use Rattle.fl_core_run.specs.contracts.end_progress.EndProgress as ProgressRows;
ghost use Rattle.fl_core.specs.contracts.core_job.BoxedRequest as RequestRows;
ghost use Rattle.fl_core.specs.contracts.core_job.CoreJob as JobRows;
ghost use Rattle.fl_core_run.specs.contracts.running.RunningCore as RunningRows;
ghost use Rattle.fl_cores_fork.specs.contracts.core_thread.CoreThread as CoreThreadRows;
ghost use Rattle.fl_cores_fork.specs.contracts.core_thread.FinishedCore as DoneRows;
ghost use Rattle.fl_cores_fork.specs.contracts.pace.Pace as PaceRows;

use crate::pace::Pace;
use fl_compact_calls::{CompactCall, NumberCall};
use fl_compile::Program;
use fl_core::{BoxedRequest, CoreJob};
use fl_core_run::EndProgress;
use fl_endpoint::End;
use fl_history_sides::HistorySides;
use fl_link::QueueLink;
use fl_monitor::{Messenger, Monitor};
use fl_nameserv::Names;
use fl_value_data::Call;

// What goes to a thread.
fn assert_send<T: Send>()
    ensures sent { IsSend T.row }
{}

// What threads share.
fn assert_sync<T: Sync>()
    ensures shared { IsSync T.row }
{}

fn call_sent()
    ensures sent { IsSend CallRows.the_row }
{
    assert_send::<Call>();
}

fn compact_call_sent()
    ensures sent { IsSend CompactCallRows.the_row }
{
    call_sent();
    assert_send::<CompactCall>();
}

fn number_call_sent()
    ensures sent { IsSend NumberCallRows.the_row }
{
    call_sent();
    assert_send::<NumberCall>();
}

fn program_sent()
    ensures sent { IsSend ProgramRows.the_row }
{
    assert_send::<Program>();
}

fn end_sent()
    ensures sent { IsSend EndRows.the_row }
{
    call_sent();
    program_sent();
    assert_send::<End>();
}

fn calls_sent()
    ensures sent { IsSend ReassembliesRows.the_row }
{
    program_sent();
    call_sent();
    number_call_sent();
}

fn board_sent()
    ensures sent { IsSend BoardRows.the_row }
{
    calls_sent();
    end_sent();
}

fn messenger_sent()
    ensures sent { IsSend MessengerRows.the_row }
{
    assert_send::<Messenger>();
}

fn monitor_sent()
    ensures sent { IsSend MonitorRows.the_row }
{
    messenger_sent();
    assert_send::<Monitor>();
}

fn queue_sent()
    ensures sent { IsSend QueueLinkRows.the_row }
{
    assert_send::<QueueLink>();
}

fn core_sent()
    ensures sent { IsSend CoreRows.the_row }
{
    board_sent();
    monitor_sent();
    queue_sent();
}

fn sides_sent()
    ensures sent { IsSend HistorySidesRows.the_row }
{
    assert_send::<HistorySides>();
}

fn names_sent()
    ensures sent { IsSend NamesRows.the_row }
{
    assert_send::<Names>();
}

fn progress_sent()
    ensures sent { IsSend ProgressRows.the_row }
{
    compact_call_sent();
    assert_send::<EndProgress>();
}

fn compact_call_shared()
    ensures shared { IsSync CompactCallRows.the_row }
{
    assert_sync::<CompactCall>();
}

fn request_shared()
    ensures shared { IsSync RequestRows.the_row }
{
    assert_sync::<BoxedRequest>();
}

// Jobs may be shared.
pub(crate) fn law_job_shared()
    ensures shared { IsSync JobRows.the_row }
{
    compact_call_shared();
    request_shared();
    assert_sync::<CoreJob>();
}

// And so may their pace.
pub(crate) fn law_pace_shared()
    ensures shared { IsSync PaceRows.the_row }
{
    assert_sync::<Pace>();
}

// So may a core with its sides of rings, as a part of a core thread.
fn running_sent()
    ensures sent { IsSend (RunningRows.the_field HistorySidesRows.the_row).row }
{
    core_sent();
    sides_sent();
    queue_sent();
    progress_sent();
    names_sent();
    program_sent();
}

// All that a core's thread is given may, by itself and as a part.
pub(crate) fn core_thread_sent()
    ensures sent { IsSend CoreThreadRows.the_row }
    ensures part { IsSend (CoreThreadRows.the_field).row }
{
    running_sent();
}

// So may what came of it.
pub(crate) fn done_sent()
    ensures sent { IsSend DoneRows.the_row }
    ensures part { IsSend (DoneRows.the_field).row }
{
    running_sent();
}
