//! Rolling back is the inverse of processing.

ghost use Rattle.std.specs.Prelude.{List, Some, length, true, [], ◌+◌, ◌++◌, ◌<◌, ◌∷◌, ◌≡◌, ◌≤◌, ℕ};
ghost use Rattle.virtual_time.specs.Bags.{IsSorted, times};
ghost use Rattle.virtual_time.specs.Entries.{Entry, Item, Own, entry_key};
ghost use Rattle.virtual_time.specs.Inverses.{AllSent, ArePairs, AreReceivers, AreSent, IsOrdered, Pair, Redone, Sending, again_replies, again_steps, all_met, entries_of, meet_pairs, meet_sent, meetings_of, processes, receivers_of, roll_backs};
ghost use Rattle.virtual_time.specs.Machine.{HasCount, Lawful, Machine};
ghost use Rattle.virtual_time.specs.Records.{Processes, Record, after_entry, antimessage_comes, cut_of, message_comes, roll_back_of, back_by_antimessage, back_by_message, next_of, roll_back_times, sent_all, unsent};
ghost use Rattle.virtual_time.specs.Replies.{Delivered, IsReached, Processed, Reply, RolledBack, Runs};
ghost use Rattle.virtual_time.specs.Rules.{IsDone, IsWorld};
ghost use Rattle.virtual_time.specs.Worlds.{DeliverAntimessage, DeliverMessage, Process, RollBack, World, can_meet, deliver_antimessage, deliver_message, meet, process, record_of, roll_back};

/// Processing a component's next entry, rolling it back and meeting what it sent, in any order, gives back the same world; so does
/// rolling back, processing again and meeting. As steps: they are answered, and whatever is answered leads to the same world.
pub fn inverse_law<S, A>()
    ensures back { (machine : Machine S A) (world : World S A) (i : ℕ) (entry : Entry A)
        (receivers : List ℕ) → Lawful machine → IsWorld machine world
        → next_of machine i (record_of (world.part i)) ≡ Some entry
        → AreSent machine i entry receivers
        → meet_sent machine entry receivers (roll_back machine i (process machine i world))
        ≡ world }
    ensures again { (machine : Machine S A) (world : World S A) (i : ℕ) (entry : Entry A)
        (entries : List (Entry A)) (receivers : List ℕ) → Lawful machine → IsWorld machine world
        → (world.part i).done ≡ entry ∷ entries → AreSent machine i entry receivers
        → meet_sent machine entry receivers (process machine i (roll_back machine i world))
        ≡ world }
    ensures answered { (machine : Machine S A) (count : ℕ) (world next_world : World S A) (i k : ℕ)
        (entry : Entry A) (receivers : List ℕ) (replies : List Reply) → Lawful machine
        → IsWorld machine world → next_of machine i (record_of (world.part i)) ≡ Some entry
        → AreSent machine i entry receivers
        → Runs machine count world (Process i ∷ RollBack i ∷ meetings_of entry receivers)
        (Processed k ∷ replies) next_world → next_world ≡ world }
    ensures met { (machine : Machine S A) (count : ℕ) (world : World S A) (i : ℕ) (entry : Entry A)
        (receivers : List ℕ) → Lawful machine → IsWorld machine world → i < count
        → next_of machine i (record_of (world.part i)) ≡ Some entry
        → AreSent machine i entry receivers
        → Runs machine count world (Process i ∷ RollBack i ∷ meetings_of entry receivers)
        (Processed (entry_key entry) ∷ RolledBack (entry_key entry)
        ∷ all_met entry receivers) world }
{}

/// Where there are so many components, an action's receivers are a list.
pub fn receivers_law<S, A>()
    ensures one { (machine : Machine S A) (i count : ℕ) (action : A) → HasCount machine count
        → AreReceivers machine i action (receivers_of machine i action count) }
    ensures sent { (machine : Machine S A) (i count k : ℕ) (action : A) → HasCount machine count
        → AreSent machine i (Own k (Some action)) (receivers_of machine i action count) }
{}

/// A message and its antimessage, both in flight and both delivered in either order, leave what their meeting leaves where the receiver
/// was rolled back by as many entries as the first delivery took back: where that is none, exactly what their meeting leaves.
pub fn delivered_law<S, A>()
    ensures message_first { (machine : Machine S A) (world : World S A) (j : ℕ) (message : Item A)
        → Lawful machine → IsWorld machine world → can_meet machine j message world ≡ true
        → back_by_message machine message (record_of (world.part j)) ≡ []
        → deliver_antimessage machine j message (deliver_message machine j message world)
        ≡ meet machine j message world }
    ensures antimessage_first { (machine : Machine S A) (world : World S A) (j : ℕ)
        (message : Item A) → Lawful machine → IsWorld machine world
        → back_by_antimessage machine message (record_of (world.part j)) ≡ []
        → deliver_message machine j message (deliver_antimessage machine j message world)
        ≡ meet machine j message world }
    ensures message_back { (machine : Machine S A) (count k l : ℕ) (world next_world : World S A)
        (j : ℕ) (message : Item A) → Lawful machine → IsWorld machine world
        → Runs machine count world (DeliverMessage j message ∷ DeliverAntimessage j message ∷ [])
        (Delivered k ∷ Delivered l ∷ []) next_world
        → next_world ≡ meet machine j message (roll_backs machine j k world) }
    ensures antimessage_back { (machine : Machine S A) (count k l : ℕ)
        (world next_world : World S A) (j : ℕ) (message : Item A) → Lawful machine
        → IsWorld machine world
        → Runs machine count world (DeliverAntimessage j message ∷ DeliverMessage j message ∷ [])
        (Delivered k ∷ Delivered l ∷ []) next_world
        → next_world ≡ meet machine j message (roll_backs machine j k world) }
{}

/// Where both deliveries rolled entries back, the receiver that does these entries again, each followed by the meetings of what it
/// sent, stands in the world that a meeting leaves. So does a component that was rolled back several times. As steps with their replies,
/// processing the entries and meeting what they sent is doing them again.
pub fn redone_law<S, A>()
    ensures message_first { (machine : Machine S A) (world next_world : World S A) (j : ℕ)
        (message : Item A) → Lawful machine → IsWorld machine world
        → can_meet machine j message world ≡ true
        → Redone machine j
        (deliver_antimessage machine j message (deliver_message machine j message world))
        (back_by_message machine message (record_of (world.part j))) next_world
        → next_world ≡ meet machine j message world }
    ensures antimessage_first { (machine : Machine S A) (world next_world : World S A) (j : ℕ)
        (message : Item A) → Lawful machine → IsWorld machine world
        → can_meet machine j message world ≡ true
        → Redone machine j
        (deliver_message machine j message (deliver_antimessage machine j message world))
        (back_by_antimessage machine message (record_of (world.part j))) next_world
        → next_world ≡ meet machine j message world }
    ensures rolled_back { (machine : Machine S A) (world next_world : World S A) (j : ℕ)
        (entries rest : List (Entry A)) → Lawful machine → IsWorld machine world
        → (world.part j).done ≡ entries ++ rest
        → Redone machine j (roll_backs machine j (length entries) world) entries next_world
        → next_world ≡ world }
    ensures steps { (machine : Machine S A) (count i : ℕ) (sendings : List (Sending A))
        (world next_world : World S A) → Lawful machine → AllSent machine i sendings
        → Runs machine count world (again_steps i sendings) (again_replies sendings) next_world
        → Redone machine i world (entries_of sendings) next_world }
{}

/// Where entries were processed, rolling as many back and then meeting all that they sent, in any order, gives the world back. Where entries
/// were rolled back, processing as many and then meeting all that they sent, in any order, gives the world back: after
/// roll-backs unasked, and after those that a message and its antimessage, both delivered, caused. For worlds whose flight is in order,
/// as that of each world is that steps reach.
pub fn any_order_law<S, A>()
    ensures ordered { (machine : Machine S A) (count : ℕ) (world : World S A) → Lawful machine
        → IsReached machine count world → IsOrdered machine world }
    ensures processed { (machine : Machine S A) (i : ℕ) (entries : List (Entry A))
        (new_record : Record S A) (pairs : List (Pair A)) (world : World S A) → Lawful machine
        → IsWorld machine world → IsOrdered machine world
        → Processes machine i (record_of (world.part i)) entries new_record
        → ArePairs machine i entries pairs
        → meet_pairs machine pairs
        (roll_backs machine i (length entries) (processes machine i (length entries) world))
        ≡ world }
    ensures rolled_back { (machine : Machine S A) (i : ℕ) (entries rest : List (Entry A))
        (pairs : List (Pair A)) (world : World S A) → Lawful machine → IsWorld machine world
        → IsOrdered machine world → (world.part i).done ≡ entries ++ rest
        → ArePairs machine i entries pairs
        → meet_pairs machine pairs
        (processes machine i (length entries) (roll_backs machine i (length entries) world))
        ≡ world }
    ensures message_first { (machine : Machine S A) (j : ℕ) (message : Item A)
        (pairs : List (Pair A)) (world : World S A) → Lawful machine → IsWorld machine world
        → IsOrdered machine world → can_meet machine j message world ≡ true
        → ArePairs machine j (back_by_message machine message (record_of (world.part j))) pairs
        → meet_pairs machine pairs
        (processes machine j (length (back_by_message machine message (record_of (world.part j))))
        (deliver_antimessage machine j message (deliver_message machine j message world)))
        ≡ meet machine j message world }
    ensures antimessage_first { (machine : Machine S A) (j : ℕ) (message : Item A)
        (pairs : List (Pair A)) (world : World S A) → Lawful machine → IsWorld machine world
        → IsOrdered machine world → can_meet machine j message world ≡ true
        → ArePairs machine j (back_by_antimessage machine message (record_of (world.part j))) pairs
        → meet_pairs machine pairs
        (processes machine j
        (length (back_by_antimessage machine message (record_of (world.part j))))
        (deliver_message machine j message (deliver_antimessage machine j message world)))
        ≡ meet machine j message world }
{}

/// On one record: where entries were done one after the other, as many roll-backs give it back, they are the last done entries, and
/// taking them back adds as many antimessages in flight as doing them added messages.
pub fn record_law<S, A>()
    ensures undone { (machine : Machine S A) (i : ℕ) (entries : List (Entry A))
        (own_record new_record : Record S A) → IsSorted machine own_record.pending
        → Processes machine i own_record entries new_record
        → roll_back_times machine (length entries) new_record ≡ own_record }
    ensures done { (machine : Machine S A) (i : ℕ) (entries : List (Entry A))
        (own_record new_record : Record S A) → Processes machine i own_record entries new_record
        → new_record.done ≡ entries ++ own_record.done }
    ensures signs { (machine : Machine S A) (i : ℕ) (entries : List (Entry A)) (j k : ℕ)
        (action : A) (messages antimessages : List (Item A)) → Lawful machine
        → times machine (sent_all machine i entries j messages) k action
        + times machine antimessages k action
        ≡ times machine (unsent machine i entries j antimessages) k action
        + times machine messages k action }
{}

/// A record whose entries below a bound are dropped takes the same steps: its next entry is the same; doing an entry at or above the
/// bound, taking one back, and the coming of a message or antimessage at or above the bound give the cut of what they gave.
pub fn cut_law<S, A>()
    ensures next { (machine : Machine S A) (i b : ℕ) (own_record : Record S A) → Lawful machine
        → next_of machine i (cut_of machine i b own_record) ≡ next_of machine i own_record }
    ensures process { (machine : Machine S A) (i b : ℕ) (entry : Entry A) (own_record : Record S A)
        → Lawful machine → b ≤ entry_key entry
        → after_entry entry (cut_of machine i b own_record)
        ≡ cut_of machine i b (after_entry entry own_record) }
    ensures roll_back { (machine : Machine S A) (i b : ℕ) (entry : Entry A)
        (entries : List (Entry A)) (own_record : Record S A) → Lawful machine
        → own_record.done ≡ entry ∷ entries → b ≤ entry_key entry
        → roll_back_of machine (cut_of machine i b own_record)
        ≡ cut_of machine i b (roll_back_of machine own_record) }
    ensures message { (machine : Machine S A) (i b : ℕ) (message : Item A) (own_record : Record S A)
        → Lawful machine → b ≤ message.key
        → message_comes machine message (cut_of machine i b own_record)
        ≡ cut_of machine i b (message_comes machine message own_record) }
    ensures antimessage { (machine : Machine S A) (i g b : ℕ) (message : Item A)
        (own_record : Record S A) → Lawful machine
        → IsDone machine i g own_record.first own_record.base own_record.done → b ≤ message.key
        → antimessage_comes machine message (cut_of machine i b own_record)
        ≡ cut_of machine i b (antimessage_comes machine message own_record) }
{}
