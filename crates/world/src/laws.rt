//! What holds of each list of steps. Each function does nothing but cite the theory: its contract is the law.

ghost use Rattle.world.specs.Laws.{AntimessageFirstIsAWay, AntimessageFirstLeaves, BackAndThereIsSame, BackIsSame, LeavingIsMeeting, MeetingIsAWay, MeetingsLeadBack, MessageFirstIsAWay, MeetingsSetOut, MessageFirstLeaves, RunsAreDetermined, RunsWithMemoryAreOne, SecondAntimessageTakesNothing, SecondMessageTakesNothing, SettingOutLeadsBack, StepsReach};
ghost use Rattle.world.specs.Theory.{Theory};

use virtual_time::rolling_back::{any_order_law, delivered_law, inverse_law, record_law};
use virtual_time::worlds::{committed_is_reference, virtual_time_rises};

/// The laws of the theory of virtual time that the laws here cite.
fn cited_theory<S, A>()
    ensures { Theory S A }
{
    committed_is_reference::<S, A>();
    inverse_law::<S, A>();
    delivered_law::<S, A>();
    any_order_law::<S, A>();
    record_law::<S, A>();
    virtual_time_rises::<S, A>();
}

/// There and back: a component that does its next entry and takes it back stands again in the same world, once each message that the
/// entry sent has left the flight with its antimessage, in whichever way and in any order of the receivers. By meetings it can be done in
/// each world, with these replies. What steps reach from a world that is reached is reached.
///
/// Of the replies little has to be known: where the steps are those of there and back, the first was done, and no processing lacked memory, all
/// of them are done and lead there and back. By meetings alone nothing else is processed, so that only the first reply is asked.
pub fn there_and_back_law<S, A>()
    ensures back { BackIsSame S A }
    ensures by_meetings { MeetingsLeadBack S A }
    ensures set_out { SettingOutLeadsBack S A }
    ensures meetings_set_out { MeetingsSetOut S A }
    ensures reached { StepsReach S A }
{
    cited_theory::<S, A>();
}

/// Replies and world are determined, but for want of memory: runs of the same steps from one world, in which the same steps lacked memory or
/// none did, have the same replies and end in one world.
pub fn determined_law<S, A>()
    ensures alike { RunsAreDetermined S A }
    ensures had { RunsWithMemoryAreOne S A }
{
    cited_theory::<S, A>();
}

/// A message that left the flight with its antimessage could meet it, and the world is the one that their meeting leads to, whichever way
/// they left. Where both deliveries took nothing back, these two steps are a way. The second delivery never takes anything back.
pub fn leaving_law<S, A>()
    ensures met { LeavingIsMeeting S A }
    ensures message_first { MessageFirstLeaves S A }
    ensures antimessage_first { AntimessageFirstLeaves S A }
    ensures second_antimessage { SecondAntimessageTakesNothing S A }
    ensures second_message { SecondMessageTakesNothing S A }
{
    cited_theory::<S, A>();
}

/// Back and there: a component that rolls entries back and processes as often stands again in the same world, once all messages that these
/// entries had sent have met their antimessages, in any order.
pub fn back_and_there_law<S, A>()
    ensures { BackAndThereIsSame S A }
{
    cited_theory::<S, A>();
}

/// Each way is open where both are in flight: the meeting, and both deliveries in either order, after which the receiver can process as often as
/// the first of them took entries back, and all that these had sent can meet in any order. These steps are answered so, unless memory is lacking.
pub fn ways_law<S, A>()
    ensures meet { MeetingIsAWay S A }
    ensures message_first { MessageFirstIsAWay S A }
    ensures antimessage_first { AntimessageFirstIsAWay S A }
{
    cited_theory::<S, A>();
}
