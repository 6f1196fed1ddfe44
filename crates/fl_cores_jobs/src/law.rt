//! What follows of what is told of jobs.

ghost use Rattle.fl_cores_jobs.specs.Whole.{OneRefusal, NoRefusal};

/// Of the same parts and jobs one refusal is told and no other: of the first that has a fault; and none of a job where no job has one.
pub fn law_one_refusal()
    ensures one { OneRefusal }
    ensures none { NoRefusal }
{}
