//! A handle may go to another thread. Nothing here does anything.

ghost use denote.Param.Send.{IsSend};
ghost use Rattle.fl_value_data.specs.contracts.value.Call as CallRows;
ghost use Rattle.fl_compact_calls.specs.contracts.call.CompactCall as CompactCallRows;
ghost use Rattle.fl_compact_calls.specs.contracts.number_call.NumberCall as NumberCallRows;
ghost use Rattle.fl_codec.specs.contracts.codec.Codec as CodecRows;
ghost use Rattle.fl_compile.specs.contracts.program.Program as ProgramRows;
ghost use Rattle.fl_machine.specs.contracts.reassemblies.Reassemblies as ReassembliesRows;
ghost use Rattle.fl_machine.specs.contracts.send.SendRun as SendRunRows;
ghost use Rattle.fl_machine.specs.contracts.recv.RecvRun as RecvRunRows;
ghost use Rattle.fl_endpoint.specs.contracts.end.End as EndRows;
ghost use Rattle.fl_ring.specs.contracts.shared.duo_sides.SharedSide as SharedSideRows;
ghost use Rattle.fl_c_operations.specs.contracts.transmitting.TransmittingEnd as TransmittingRows;
ghost use Rattle.fl_c_operations.specs.contracts.looked.LookedSide as LookedRows;
ghost use Rattle.fl_c_operations.specs.contracts.unread.UnreadCall as UnreadRows;
ghost use Rattle.fl_c_operations.specs.contracts.end.HeldEnd as HeldRows;
ghost use Rattle.fl_c_operations.specs.contracts.program.HeldProgram as HeldProgramRows;
ghost use Rattle.fl_c_operations.specs.contracts.sender.HeldSender as SenderRows;
ghost use Rattle.fl_c_operations.specs.contracts.receiver.HeldReceiver as ReceiverRows;
ghost use Rattle.fl_c_operations.specs.contracts.handle.Handle as HandleRows;

use crate::program::HeldProgram;
use crate::unread::UnreadCall;
use fl_codec::Codec;
use fl_compact_calls::{CompactCall, NumberCall};
use fl_compile::Program;
use fl_endpoint::End;
use fl_machine::{RecvRun, SendRun};
use fl_ring::SharedSide;
use fl_value_data::Call;

// What goes to a thread.
fn sends<T: Send>()
    ensures sent { IsSend T.row }
{}

fn call_sent()
    ensures sent { IsSend CallRows.the_row }
{
    sends::<Call>();
}

fn compact_call_sent()
    ensures sent { IsSend CompactCallRows.the_row }
{
    call_sent();
    sends::<CompactCall>();
}

fn number_call_sent()
    ensures sent { IsSend NumberCallRows.the_row }
{
    call_sent();
    sends::<NumberCall>();
}

fn program_sent()
    ensures sent { IsSend ProgramRows.the_row }
{
    sends::<Program>();
}

fn codec_sent()
    ensures sent { IsSend CodecRows.the_row }
{
    sends::<Codec>();
}

fn end_sent()
    ensures sent { IsSend EndRows.the_row }
{
    call_sent();
    program_sent();
    sends::<End>();
}

fn transmitting_sent()
    ensures sent { IsSend TransmittingRows.the_row }
{
    end_sent();
    codec_sent();
}

fn calls_sent()
    ensures sent { IsSend ReassembliesRows.the_row }
{
    program_sent();
    call_sent();
    number_call_sent();
}

fn side_sent()
    ensures sent { IsSend SharedSideRows.the_row }
{
    sends::<SharedSide>();
}

fn looked_sent()
    ensures sent { IsSend LookedRows.the_row }
{
    side_sent();
}

fn unread_sent()
    ensures sent { IsSend UnreadRows.the_row }
{
    compact_call_sent();
    sends::<UnreadCall>();
}

fn held_sent()
    ensures sent { IsSend HeldRows.the_row }
{
    transmitting_sent();
    looked_sent();
    calls_sent();
    unread_sent();
}

fn send_run_sent()
    ensures sent { IsSend SendRunRows.the_row }
{
    sends::<SendRun>();
}

fn receive_run_sent()
    ensures sent { IsSend RecvRunRows.the_row }
{
    program_sent();
    sends::<RecvRun>();
}

fn held_program_sent()
    ensures sent { IsSend HeldProgramRows.the_row }
{
    program_sent();
    sends::<HeldProgram>();
}

fn sender_sent()
    ensures sent { IsSend SenderRows.the_row }
{
    program_sent();
    send_run_sent();
}

fn receiver_sent()
    ensures sent { IsSend ReceiverRows.the_row }
{
    receive_run_sent();
}

/// A handle may go to another thread: asked here, since C's threads ask nothing.
pub fn law_handles_go_to_threads()
    ensures sent { IsSend HandleRows.the_row }
{
    held_sent();
    side_sent();
    held_program_sent();
    sender_sent();
    receiver_sent();
}
