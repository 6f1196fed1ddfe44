//! What the limit on payloads is looked at for.

ghost use Rattle.fl_layout.specs.Limit.{GreatestIsOfPlanOne, TooLongHasLongCall};

/// Two laws on the limit (E21), of refused messages as well as of accepted ones. The greatest payload that `check` looks at
/// is, under plan 1, the greatest of the message's payloads, which one of its calls has. So a message is refused for it
/// exactly where one of its calls has a payload over 32,768 bytes under plan 1.
pub fn law_limit_is_of_plan_one()
    ensures greatest { GreatestIsOfPlanOne }
    ensures too_long { TooLongHasLongCall }
{}
