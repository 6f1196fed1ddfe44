//! What is bound.

ghost use Rattle.fl_world_refines.specs.Laws.{BindsAgree};

/// A binding that is made in a world, by queues, by a ring or by a circuit, is the machine's.
pub fn law_binds_agree()
    ensures agree { BindsAgree }
{}
