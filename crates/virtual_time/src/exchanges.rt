//! The exchange of several workers, and the leases that they hold.
ghost use Rattle.std.specs.Prelude.{List, None, Option, Some, [], length, ◌*◌, ◌+◌, ◌++◌, ◌-◌, ◌<◌, ◌∷◌, ◌≡◌, ◌≤◌, ◌⊎◌, ℕ};
ghost use Rattle.virtual_time.specs.Inverses.{meets_of};
ghost use Rattle.virtual_time.specs.Bags.{inputs, times};
ghost use Rattle.virtual_time.specs.Entries.{Entry, Item, Own, below};
ghost use Rattle.virtual_time.specs.Exchange.Calls.{Call, CallMeet, Called, Calls, IsShared, Shared, start_shared};
ghost use Rattle.virtual_time.specs.Exchange.WindowCalls.{CallsWithin, IsWindowed};
ghost use Rattle.virtual_time.specs.Exchange.Windows.{HasRoom, IsExchangeWithin, IsWithin, inboxes, own_turns};
ghost use Rattle.virtual_time.specs.Exchange.Progress.{CanGoOn, HasNextTurn, HaveAllMet};
ghost use Rattle.virtual_time.specs.Records.{Record, after_entry, antimessage_comes, back_by_antimessage, back_by_message, cut_of, message_comes, next_of, sent_by, turns_among, unsent};
ghost use Rattle.virtual_time.specs.Exchange.Stubs.{Exchange, IsSound, start_exchange};
ghost use Rattle.virtual_time.specs.Exchange.Leases.{Does, IsLease, Lease, Matches, alone, lease_after, lease_of, start_lease};
ghost use Rattle.virtual_time.specs.Worlds.{Commit, Part, Reaches, Step, World, deliver_antimessage, deliver_message, process, put_back, record_of, same, start_world, taken_at};
ghost use Rattle.virtual_time.specs.Rules.{IsWorld};
ghost use Rattle.virtual_time.specs.Reference.{Falls, IsReference, Turn, outcome_at, reference_below};
ghost use Rattle.virtual_time.specs.Exchange.Meetings.{IsChunk, IsCommit, Met};
ghost use Rattle.virtual_time.specs.Exchange.Moved.{IsMoved};
ghost use Rattle.virtual_time.specs.Exchange.Wholes.{IsWholeWorld, put_lease};
ghost use Rattle.virtual_time.specs.Machine.{HasCount, Lawful, Machine};

/// The exchange stays sound. What a component has taken after a meeting is what its senders have standing, so it is never below none.
///
/// `count` is the number of components that a chunk asks for their bases. A chunk is the reference's where no other component has
/// turns.
pub fn exchange_is_sound<S, A>()
    ensures start { (machine : Machine S A) (count : ℕ) → Lawful machine
        → IsSound machine count (start_exchange machine)
        × ((i : ℕ) → IsLease machine i (start_lease machine i)
        × Matches machine i ((start_exchange machine).stub i) (start_lease machine i)) }
    ensures commit { (machine : Machine S A) (count : ℕ) (exchange new_exchange : Exchange A)
        → Lawful machine → IsSound machine count exchange → IsCommit machine exchange new_exchange
        → IsSound machine count new_exchange }
    ensures meet { (machine : Machine S A) (count i : ℕ) (exchange new_exchange : Exchange A)
        (lease new_lease : Lease S A) → Lawful machine → IsSound machine count exchange
        → IsLease machine i lease → Matches machine i (exchange.stub i) lease
        → Met machine i exchange lease new_exchange new_lease → IsSound machine count new_exchange
        × IsLease machine i new_lease }
    ensures chunk { (machine : Machine S A) (count : ℕ) (exchange new_exchange : Exchange A) (b : ℕ)
        (turns : List (Turn A)) → Lawful machine → HasCount machine count
        → IsSound machine count exchange → IsChunk machine count exchange b new_exchange turns
        → IsSound machine count new_exchange × (g : ℕ)
        × (exchange.given ≡ length (reference_below machine g))
        × (reference_below machine b ≡ turns ++ reference_below machine g) }
    ensures alone { (machine : Machine S A) (i : ℕ) (exchange : Exchange A) (lease : Lease S A)
        (steps : List (Step A)) (next_world : World S A) → Lawful machine → IsLease machine i lease
        → Matches machine i (exchange.stub i) lease
        → Does machine i (alone machine i lease) steps next_world
        → IsLease machine i (lease_of i lease.floor next_world)
        × Matches machine i (exchange.stub i) (lease_of i lease.floor next_world) }
    ensures net { (machine : Machine S A) (count i k : ℕ) (action : A) (exchange : Exchange A)
        (lease : Lease S A) → Lawful machine → IsSound machine count exchange
        → Matches machine i (exchange.stub i) lease → exchange.bound ≤ k
        → (exchange.stub (machine.owner k)).standing k action i
        + times machine lease.part.owed k action
        + (times machine lease.part.minus k action + times machine (exchange.stub i).minus k action)
        ≡ inputs machine lease.part.done k action + times machine lease.part.pending k action
        + (times machine lease.part.plus k action + times machine (exchange.stub i).plus k action) }
    ensures reference { (machine : Machine S A) (b : ℕ) → Lawful machine → b ≤ machine.top
        → IsReference machine b (reference_below machine b) }
{}

/// Each lease that matches a sound exchange can meet, where beyond the components nobody has messages in an inbox or from the lease; so
/// after any list of calls each component can meet.
pub fn meeting_exists<S, A>()
    ensures met { (machine : Machine S A) (count i : ℕ) (exchange : Exchange A) (lease : Lease S A)
        → Lawful machine → HasCount machine count → IsSound machine count exchange
        → IsLease machine i lease → Matches machine i (exchange.stub i) lease
        → ((j : ℕ) → count ≤ j → (exchange.stub j).plus ≡ [])
        → ((j : ℕ) → count ≤ j → lease.out_plus j ≡ []) → (new_exchange : Exchange A)
        × (new_lease : Lease S A) × Met machine i exchange lease new_exchange new_lease }
    ensures always { (machine : Machine S A) (count i : ℕ) (calls : List (Call A))
        (shared : Shared S A) → Lawful machine → HasCount machine count
        → Calls machine count (start_shared machine) calls shared → (new_shared : Shared S A)
        × Called machine count shared (CallMeet i) new_shared }
    ensures first { (machine : Machine S A) (i : ℕ) → Lawful machine
        → Met machine i (start_exchange machine) (start_lease machine i) (start_exchange machine)
        (start_lease machine i) }
{}

/// What a meeting moves, told by counts, is a meeting: where beyond the components nobody has a message in an inbox or from the lease.
/// The turns that it takes in fall, and none of their keys is held.
pub fn meeting_law<S, A>()
    ensures met { (machine : Machine S A) (count i : ℕ) (exchange new_exchange : Exchange A)
        (lease new_lease : Lease S A) → Lawful machine → IsSound machine count exchange
        → IsLease machine i lease → Matches machine i (exchange.stub i) lease
        → ((j : ℕ) → count ≤ j → (exchange.stub j).plus ≡ [])
        → ((j : ℕ) → count ≤ j → lease.out_plus j ≡ [])
        → IsMoved machine i exchange lease new_exchange new_lease
        → Met machine i exchange lease new_exchange new_lease }
    ensures falls { (machine : Machine S A) (count i : ℕ) (exchange : Exchange A)
        (lease : Lease S A) → Lawful machine → IsSound machine count exchange
        → IsLease machine i lease → Matches machine i (exchange.stub i) lease
        → Falls (turns_among (below exchange.bound lease.part.done)) }
    ensures apart { (machine : Machine S A) (count i : ℕ) (exchange : Exchange A)
        (lease : Lease S A) → Lawful machine → IsSound machine count exchange
        → IsLease machine i lease → Matches machine i (exchange.stub i) lease
        → (k : ℕ) (o : Option A)
        → outcome_at k (turns_among (below exchange.bound lease.part.done)) ≡ Some o
        → outcome_at k exchange.held ≡ None }
    ensures between { (machine : Machine S A) (count i : ℕ) (exchange : Exchange A)
        (lease : Lease S A) → Lawful machine → IsSound machine count exchange
        → IsLease machine i lease → Matches machine i (exchange.stub i) lease
        → (lease.base ≤ exchange.bound) × (exchange.bound ≤ lease.floor) }
{}

/// A lease's own step is that of its record, put back, with its tray and its outgoing bag changed; and the lease so changed, alone, is
/// where the step led.
pub fn lease_law<S, A>()
    ensures alone { (machine : Machine S A) (i : ℕ) (lease : Lease S A) (own_record : Record S A)
        (plus minus : ℕ → List (Item A) → List (Item A))
        → alone machine i (lease_after i lease own_record plus minus)
        ≡ put_back i own_record plus minus (alone machine i lease) }
    ensures process { (machine : Machine S A) (i : ℕ) (lease : Lease S A) (entry : Entry A)
        → next_of machine i (record_of lease.part) ≡ Some entry
        → lease_of i lease.floor (process machine i (alone machine i lease))
        ≡ lease_after i lease (after_entry entry (record_of lease.part))
        (sent_by machine i entry) same }
    ensures message { (machine : Machine S A) (i : ℕ) (lease : Lease S A) (message : Item A)
        → lease_of i lease.floor (deliver_message machine i message (alone machine i lease))
        ≡ lease_after i lease (message_comes machine message (record_of lease.part))
        (taken_at machine i message)
        (unsent machine i (back_by_message machine message (record_of lease.part))) }
    ensures antimessage { (machine : Machine S A) (i : ℕ) (lease : Lease S A) (message : Item A)
        → lease_of i lease.floor (deliver_antimessage machine i message (alone machine i lease))
        ≡ lease_after i lease (antimessage_comes machine message (record_of lease.part)) same
        (λ j xs. taken_at machine i message j
        (unsent machine i (back_by_antimessage machine message (record_of lease.part)) j xs)) }
{}

/// What the exchange and its leases do are steps of the whole world.
pub fn exchange_is_core<S, A>()
    ensures commit { (machine : Machine S A) (count : ℕ) (exchange new_exchange : Exchange A)
        (leases : ℕ → Lease S A) (world : World S A) → Lawful machine
        → IsSound machine count exchange → ((j : ℕ) → IsLease machine j (leases j))
        → ((j : ℕ) → Matches machine j (exchange.stub j) (leases j))
        → IsWholeWorld machine exchange leases world → IsWorld machine world
        → IsCommit machine exchange new_exchange → (next_world : World S A)
        × Reaches machine world (Commit new_exchange.bound ∷ []) next_world
        × IsWholeWorld machine new_exchange leases next_world }
    ensures meet { (machine : Machine S A) (i : ℕ) (exchange new_exchange : Exchange A)
        (leases : ℕ → Lease S A) (new_lease : Lease S A) (world : World S A) → Lawful machine
        → ((j : ℕ) → IsLease machine j (leases j)) → IsWholeWorld machine exchange leases world
        → (met : Met machine i exchange (leases i) new_exchange new_lease)
        → (next_world : World S A) × Reaches machine world (meets_of met.gone) next_world
        × IsWholeWorld machine new_exchange (put_lease i new_lease leases) next_world }
    ensures alone { (machine : Machine S A) (count i : ℕ) (exchange : Exchange A)
        (leases : ℕ → Lease S A) (steps : List (Step A)) (alone_world world : World S A)
        → Lawful machine → IsSound machine count exchange → IsLease machine i (leases i)
        → Matches machine i (exchange.stub i) (leases i)
        → IsWholeWorld machine exchange leases world → IsWorld machine world
        → Does machine i (alone machine i (leases i)) steps alone_world → (next_world : World S A)
        × Reaches machine world steps next_world
        × IsWholeWorld machine exchange
        (put_lease i (lease_of i (leases i).floor alone_world) leases) next_world }
    ensures start { (machine : Machine S A) → Lawful machine
        → IsWholeWorld machine (start_exchange machine) (start_lease machine)
        (start_world machine) }
    ensures world { (machine : Machine S A) (steps : List (Step A)) (world next_world : World S A)
        → Lawful machine → IsWorld machine world → Reaches machine world steps next_world
        → IsWorld machine next_world }
{}

/// After any list of calls, by whoever holds the leases and in any order, where chunks ask all components that have turns, the exchange
/// is sound, each lease matches its stub, and the whole is a world that core steps reach from the start. So its committed list is the
/// reference below the exchange's bound.
pub fn calls_are_core_steps<S, A>()
    ensures start { (machine : Machine S A) (count : ℕ) → Lawful machine
        → IsShared machine count (start_shared machine) }
    ensures calls { (machine : Machine S A) (count : ℕ) (calls : List (Call A))
        (shared new_shared : Shared S A) → Lawful machine → HasCount machine count
        → IsShared machine count shared → Calls machine count shared calls new_shared
        → IsShared machine count new_shared }
{}

/// A window of so many own turns keeps the records, and with them the inboxes, short. It holds at the start; commit, chunk and meeting keep it;
/// processing keeps it where there is room for the entry; no delivery adds an own turn; and a lease whose tray is empty has no more
/// inputs than its stub has taken. So after any list of calls within the window all is within it. All inboxes together hold at most
/// 2 · window · count · (count - 1) messages and antimessages.
pub fn window_law<S, A>()
    ensures start { (machine : Machine S A) (window count : ℕ) → Lawful machine
        → IsExchangeWithin machine window count (start_exchange machine)
        × ((i : ℕ) → IsWithin window count (record_of (start_lease machine i).part)) }
    ensures commit { (machine : Machine S A) (window count : ℕ) (exchange new_exchange : Exchange A)
        → IsExchangeWithin machine window count exchange → IsCommit machine exchange new_exchange
        → IsExchangeWithin machine window count new_exchange }
    ensures chunk { (machine : Machine S A) (window count b : ℕ)
        (exchange new_exchange : Exchange A) (turns : List (Turn A))
        → IsExchangeWithin machine window count exchange
        → IsChunk machine count exchange b new_exchange turns
        → IsExchangeWithin machine window count new_exchange }
    ensures meet { (machine : Machine S A) (window count i : ℕ) (exchange new_exchange : Exchange A)
        (lease new_lease : Lease S A) → Lawful machine → IsSound machine count exchange
        → IsLease machine i lease → Matches machine i (exchange.stub i) lease
        → Met machine i exchange lease new_exchange new_lease → i < count
        → IsExchangeWithin machine window count exchange
        → IsWithin window count (record_of lease.part)
        → IsExchangeWithin machine window count new_exchange
        × IsWithin window count (record_of new_lease.part) }
    ensures process { (machine : Machine S A) (window count i : ℕ) (entry : Entry A)
        (own_record : Record S A) → Lawful machine → next_of machine i own_record ≡ Some entry
        → HasRoom window own_record entry → IsWithin window count own_record
        → IsWithin window count (after_entry entry own_record) }
    ensures message { (machine : Machine S A) (message : Item A) (own_record : Record S A)
        → Lawful machine
        → own_turns (message_comes machine message own_record).done ≤ own_turns own_record.done }
    ensures antimessage { (machine : Machine S A) (message : Item A) (own_record : Record S A)
        → Lawful machine
        → own_turns (antimessage_comes machine message own_record).done
        ≤ own_turns own_record.done }
    ensures settled { (machine : Machine S A) (window count i : ℕ) (exchange : Exchange A)
        (lease : Lease S A) → Lawful machine → IsExchangeWithin machine window count exchange
        → IsLease machine i lease → Matches machine i (exchange.stub i) lease → lease.part.plus ≡ []
        → lease.part.minus ≡ [] → own_turns lease.part.done ≤ window
        → IsWithin window count (record_of lease.part) }
    ensures inboxes { (machine : Machine S A) (window count : ℕ) (exchange : Exchange A)
        → Lawful machine → IsSound machine count exchange
        → IsExchangeWithin machine window count exchange
        → inboxes exchange count ≤ 2 * (window * (count - 1)) * count }
    ensures first { (machine : Machine S A) (window count : ℕ) → Lawful machine
        → IsWindowed machine window count (start_shared machine) }
    ensures calls { (machine : Machine S A) (window count : ℕ) (calls : List (Call A))
        (shared new_shared : Shared S A) → Lawful machine → HasCount machine count
        → IsWindowed machine window count shared
        → CallsWithin machine window count shared calls new_shared
        → IsWindowed machine window count new_shared }
{}

/// A run with small windows does not stand still. Where every lease has met the exchange, no inbox has anything, and the bound was raised
/// as far as it goes, the bound is the end, or one of the components has something to do at the bound. What waits in its tray and an
/// input need no room in a window; an own turn finds room in each, once what is below the bound is given up.
pub fn progress_law<S, A>()
    ensures goes_on { (machine : Machine S A) (count : ℕ) (exchange new_exchange : Exchange A)
        (leases : ℕ → Lease S A) → Lawful machine → HaveAllMet machine count exchange leases
        → IsCommit machine exchange new_exchange → (new_exchange.bound ≡ machine.top)
        ⊎ ((i : ℕ) × (i < count) × CanGoOn machine i new_exchange.bound (leases i).part) }
    ensures room { (machine : Machine S A) (window i g : ℕ) (part : Part S A) → 0 < window
        → (turn : HasNextTurn machine i g part)
        → HasRoom window (cut_of machine i g (record_of part)) (Own g turn.outcome) }
{}
