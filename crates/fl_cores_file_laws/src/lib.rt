//! The laws of cores files: a line is refused as the machine refuses what it sets up, or as the job that it asks
//! for is refused where jobs are joined; so nothing of a file is refused.
//!
//! [`law_set_ups_are_the_machines`], by `specs/SetUps.antt`, knows the machine (`fl_model`) and no world;
//! [`law_files_join`], by `specs/JobsJoin.antt`, the parts of a world that shows it (`fl_world_refines`) and the
//! joining of jobs (`fl_cores_jobs`); [`law_drafts_are_of_their_lines`], by `specs/OfLines.antt`, lines alone;
//! [`law_ends_refuse_alike`], by `specs/AtEnds.antt`, calls and reply rules beside those of the machine.
#![tactic(auto)]

ghost use Rattle.fl_cores_file_laws.specs.SetUps.{SetUpsAreTheMachines, FilesPass};
ghost use Rattle.fl_cores_file_laws.specs.JobsJoin.{SetUpsJoin, LinesJoin, FilesJoin, NoFileIsRefused};
ghost use Rattle.fl_cores_file_laws.specs.OfLines.{DraftsAreOfTheirLines};
ghost use Rattle.fl_cores_file_laws.specs.AtEnds.{EndsRefuseAlike};

use fl_cores_jobs::law_one_refusal;

/// Whatever lines of a cores file were accepted, the machine refuses nothing that they set up. A line that comes
/// next and sets something up is refused with the number that the machine answers, and accepted where the machine
/// doesn't refuse it; but E94 counts bindings by `hop` too, which the machine doesn't have yet, so a further
/// binding may be refused as one too many that the machine takes. A `cores` line, where it may still stand, is
/// refused with the machine's number for so many cores, or accepted. So the machine refuses nothing of the set-up
/// of a text that is a cores file.
pub fn law_set_ups_are_the_machines()
    ensures machines { SetUpsAreTheMachines }
    ensures files { FilesPass }
{}

/// Whatever lines of a cores file were accepted, take the parts of a world that shows what the machine makes of
/// them. A line that comes next and asks for a job (a call, a reply rule, a binding by `hop`) is refused with the
/// number for which that job is refused where it is joined to these parts, behind the jobs of the lines; where it
/// isn't, the line is accepted. So no job of a text that is a cores file has a fault there. Nor has a binding of its
/// set-up, or of any that the machine accepts; and of a file joining tells no refusal.
pub fn law_files_join()
    ensures set_ups { SetUpsJoin }
    ensures lines { LinesJoin }
    ensures files { FilesJoin }
    ensures none { NoFileIsRefused }
{
    law_one_refusal();
}

/// Whatever lines of a cores file were accepted, what they came to is of just these: it has, in their order, the
/// events of the lines that set something up, the jobs of those that ask for one, and each `bind` line's binding.
/// The number of cores is that of the one `cores` line, or 1 without one; behind any line but an interface a
/// `cores` line is refused (E93). The two laws above speak of this.
pub fn law_drafts_are_of_their_lines()
    ensures drafts { DraftsAreOfTheirLines }
{}

/// Whatever lines of a cores file were accepted, a call or a reply rule at an end that is set up, or at none, is
/// refused with the number that the machine answers for just that, behind what the lines set up. But a call isn't
/// refused where it has to wait (E40, E43), and a line may be refused since an end would have rules and make calls,
/// or both ends would have rules (E44), which the machine takes.
pub fn law_ends_refuse_alike()
    ensures alike { EndsRefuseAlike }
{}
