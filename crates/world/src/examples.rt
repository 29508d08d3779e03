//! There and back, on a ring of two components.

ghost use Rattle.world.specs.Examples.{EqualMessageIsDoneAgain, StepsAreTold, StragglerIsUndone};

/// The message comes as a straggler: the turn at 7 is taken back and done again. And where an equal message was done, the antimessage that
/// comes first takes that input back with the turn after it, which had sent a message of its own; both are done again, and that message meets.
/// The steps of both are those that the world before tells.
pub fn there_and_back_example()
    ensures straggler { StragglerIsUndone }
    ensures sent_again { EqualMessageIsDoneAgain }
    ensures told { StepsAreTold }
{}
