//! The exchange of several workers who hold components in groups.
ghost use Rattle.std.specs.Prelude.{List, None, Option, Some, [], length, ◌*◌, ◌+◌, ◌++◌, ◌-◌, ◌<◌, ◌∷◌, ◌≡◌, ◌≤◌, ◌⊎◌, ℕ};
ghost use Rattle.virtual_time.specs.Inverses.{meets_of};
ghost use Rattle.virtual_time.specs.Bags.{inputs, sends, times};
ghost use Rattle.virtual_time.specs.Entries.{Entry, Item, below};
ghost use Rattle.virtual_time.specs.Exchange.Calls.{Call, CallMeet};
ghost use Rattle.virtual_time.specs.Exchange.Progress.{CanGoOn};
ghost use Rattle.virtual_time.specs.Exchange.Windows.{IsWithin, inputs_done, own_turns};
ghost use Rattle.virtual_time.specs.Groups.Calls.{Called, Calls, IsShared, Shared, given_by, start_shared};
ghost use Rattle.virtual_time.specs.Groups.Leases.{Does, IsFloor, IsLease, Lease, Matches, alone, lease_after, lease_of, start_lease};
ghost use Rattle.virtual_time.specs.Groups.Meetings.{IsChunk, IsCommit, Met};
ghost use Rattle.virtual_time.specs.Groups.Moved.{IsMoved};
ghost use Rattle.virtual_time.specs.Groups.Progress.{HaveAllMet};
ghost use Rattle.virtual_time.specs.Groups.Stubs.{Exchange, IsSound, start_exchange, within};
ghost use Rattle.virtual_time.specs.Groups.Wholes.{IsWholeWorld, put_lease};
ghost use Rattle.virtual_time.specs.Groups.WindowCalls.{CallsWithin, IsWindowed};
ghost use Rattle.virtual_time.specs.Groups.Windows.{AreAmong, IsExchangeWithin, crossings, inboxes};
ghost use Rattle.virtual_time.specs.Machine.{HasCount, Lawful, Machine};
ghost use Rattle.virtual_time.specs.Records.{Record, after_entry, antimessage_comes, back_by_antimessage, back_by_message, message_comes, next_of, sent_by, turns_among, unsent};
ghost use Rattle.virtual_time.specs.Reference.{Falls, Turn, outcome_at, reference_below};
ghost use Rattle.virtual_time.specs.Replies.{IsAt};
ghost use Rattle.virtual_time.specs.Rules.{IsWorld};
ghost use Rattle.virtual_time.specs.Worlds.{Commit, DeliverAntimessage, DeliverMessage, Meet, Part, Process, Reaches, Step, World, deliver_antimessage, deliver_message, meet, process, put_back, record_of, same, start_world, taken_at};

/// The exchange stays sound, and each group's lease stays one that matches its stub.
pub fn group_exchange_is_sound<S, A>()
    ensures start { (machine : Machine S A) (group : ℕ → ℕ) (count : ℕ) → Lawful machine
        → HasCount machine count
        → IsSound machine group count (start_exchange machine group count)
        × ((g : ℕ) → IsLease machine group g (start_lease machine group count g)
        × Matches machine group g ((start_exchange machine group count).stub g)
        (start_lease machine group count g)) }
    ensures commit { (machine : Machine S A) (group : ℕ → ℕ) (count : ℕ)
        (exchange new_exchange : Exchange A) → Lawful machine
        → IsSound machine group count exchange → IsCommit machine exchange new_exchange
        → IsSound machine group count new_exchange }
    ensures meet { (machine : Machine S A) (group : ℕ → ℕ) (count g : ℕ)
        (exchange new_exchange : Exchange A) (lease new_lease : Lease S A) → Lawful machine
        → IsSound machine group count exchange → IsLease machine group g lease
        → Matches machine group g (exchange.stub g) lease
        → Met machine group g exchange lease new_exchange new_lease
        → IsSound machine group count new_exchange × IsLease machine group g new_lease }
    ensures chunk { (machine : Machine S A) (group : ℕ → ℕ) (count : ℕ)
        (exchange new_exchange : Exchange A) (b : ℕ) (turns : List (Turn A)) → Lawful machine
        → HasCount machine count → IsSound machine group count exchange
        → IsChunk machine group count exchange b new_exchange turns
        → IsSound machine group count new_exchange × (g : ℕ)
        × (exchange.given ≡ length (reference_below machine g))
        × (reference_below machine b ≡ turns ++ reference_below machine g) }
    ensures alone { (machine : Machine S A) (group : ℕ → ℕ) (g : ℕ) (exchange : Exchange A)
        (lease : Lease S A) (steps : List (Step A)) (next_world : World S A) → Lawful machine
        → IsLease machine group g lease → Matches machine group g (exchange.stub g) lease
        → Does machine group g (alone machine group g lease) steps next_world
        → IsLease machine group g (lease_of group g lease next_world)
        × Matches machine group g (exchange.stub g) (lease_of group g lease next_world) }
    ensures net { (machine : Machine S A) (group : ℕ → ℕ) (count g i k : ℕ) (action : A)
        (exchange : Exchange A) (lease : Lease S A) → Lawful machine
        → IsSound machine group count exchange → Matches machine group g (exchange.stub g) lease
        → group i ≡ g → exchange.bound ≤ k
        → (exchange.stub (group (machine.owner k))).standing k action i
        + within machine group k i (sends machine (lease.part (machine.owner k)).done k action i)
        + times machine (lease.part i).owed k action
        + (times machine (lease.part i).minus k action + times machine (exchange.minus i) k action)
        ≡ inputs machine (lease.part i).done k action + times machine (lease.part i).pending k action
        + (times machine (lease.part i).plus k action + times machine (exchange.plus i) k action) }
{}

/// Each lease that matches a sound exchange can meet, where its group's components are among the first, and beyond these nobody has
/// messages in an inbox or from the lease; so after any list of calls each such group can meet.
pub fn group_meeting_exists<S, A>()
    ensures met { (machine : Machine S A) (group : ℕ → ℕ) (count g : ℕ) (exchange : Exchange A)
        (lease : Lease S A) → Lawful machine → HasCount machine count → AreAmong group count g
        → IsSound machine group count exchange → IsLease machine group g lease
        → Matches machine group g (exchange.stub g) lease
        → ((j : ℕ) → count ≤ j → exchange.plus j ≡ [])
        → ((j : ℕ) → count ≤ j → lease.out_plus j ≡ []) → (new_exchange : Exchange A)
        × (new_lease : Lease S A) × Met machine group g exchange lease new_exchange new_lease }
    ensures always { (machine : Machine S A) (group : ℕ → ℕ) (count g : ℕ) (calls : List (Call A))
        (shared : Shared S A) → Lawful machine → HasCount machine count → AreAmong group count g
        → Calls machine group count (start_shared machine group count) calls shared
        → (new_shared : Shared S A) × Called machine group count shared (CallMeet g) new_shared }
    ensures first { (machine : Machine S A) (group : ℕ → ℕ) (count g : ℕ) → Lawful machine
        → HasCount machine count
        → Met machine group g (start_exchange machine group count)
        (start_lease machine group count g) (start_exchange machine group count)
        (start_lease machine group count g) }
{}

/// What a meeting of a group moves, told by counts, is a meeting: where beyond the components nobody has a message in an inbox or from
/// the lease. The turns that it takes in of each component fall, and none of their keys is held.
pub fn group_meeting_law<S, A>()
    ensures met { (machine : Machine S A) (group : ℕ → ℕ) (count g : ℕ)
        (exchange new_exchange : Exchange A) (lease new_lease : Lease S A) → Lawful machine
        → IsSound machine group count exchange → IsLease machine group g lease
        → Matches machine group g (exchange.stub g) lease
        → ((j : ℕ) → count ≤ j → exchange.plus j ≡ [])
        → ((j : ℕ) → count ≤ j → lease.out_plus j ≡ [])
        → IsMoved machine group g exchange lease new_exchange new_lease
        → Met machine group g exchange lease new_exchange new_lease }
    ensures falls { (machine : Machine S A) (group : ℕ → ℕ) (count g i : ℕ) (exchange : Exchange A)
        (lease : Lease S A) → Lawful machine → IsSound machine group count exchange
        → IsLease machine group g lease → Matches machine group g (exchange.stub g) lease
        → group i ≡ g → Falls (turns_among (below exchange.bound (lease.part i).done)) }
    ensures apart { (machine : Machine S A) (group : ℕ → ℕ) (count g i : ℕ) (exchange : Exchange A)
        (lease : Lease S A) → Lawful machine → IsSound machine group count exchange
        → IsLease machine group g lease → Matches machine group g (exchange.stub g) lease
        → group i ≡ g → (k : ℕ) (o : Option A)
        → outcome_at k (turns_among (below exchange.bound (lease.part i).done)) ≡ Some o
        → outcome_at k exchange.held ≡ None }
    ensures between { (machine : Machine S A) (group : ℕ → ℕ) (count g : ℕ) (exchange : Exchange A)
        (lease : Lease S A) → Lawful machine → IsSound machine group count exchange
        → IsLease machine group g lease → Matches machine group g (exchange.stub g) lease
        → (lease.base ≤ exchange.bound) × (exchange.bound ≤ lease.floor) }
{}

/// A step of a group's own is that of the record of one of its components, put back, with what is in flight within the group and its
/// outgoing bag changed; and the lease so changed, alone, is where the step led. So lists of steps lead from lease to lease.
pub fn group_lease_law<S, A>()
    ensures alone { (machine : Machine S A) (group : ℕ → ℕ) (g i : ℕ) (lease : Lease S A)
        (own_record : Record S A) (plus minus : ℕ → List (Item A) → List (Item A)) → group i ≡ g
        → alone machine group g (lease_after group g i lease own_record plus minus)
        ≡ put_back i own_record plus minus (alone machine group g lease) }
    ensures process { (machine : Machine S A) (group : ℕ → ℕ) (g i : ℕ) (lease : Lease S A)
        (entry : Entry A) → group i ≡ g
        → next_of machine i (record_of (lease.part i)) ≡ Some entry
        → lease_of group g lease (process machine i (alone machine group g lease))
        ≡ lease_after group g i lease (after_entry entry (record_of (lease.part i)))
        (sent_by machine i entry) same }
    ensures message { (machine : Machine S A) (group : ℕ → ℕ) (g i : ℕ) (lease : Lease S A)
        (message : Item A) → group i ≡ g
        → lease_of group g lease (deliver_message machine i message (alone machine group g lease))
        ≡ lease_after group g i lease (message_comes machine message (record_of (lease.part i)))
        (taken_at machine i message)
        (unsent machine i (back_by_message machine message (record_of (lease.part i)))) }
    ensures antimessage { (machine : Machine S A) (group : ℕ → ℕ) (g i : ℕ) (lease : Lease S A)
        (message : Item A) → group i ≡ g
        → lease_of group g lease
        (deliver_antimessage machine i message (alone machine group g lease))
        ≡ lease_after group g i lease (antimessage_comes machine message (record_of (lease.part i)))
        same (λ j xs. taken_at machine i message j
        (unsent machine i (back_by_antimessage machine message (record_of (lease.part i))) j xs)) }
    ensures meet { (machine : Machine S A) (group : ℕ → ℕ) (g i : ℕ) (lease : Lease S A)
        (message : Item A) → group i ≡ g
        → lease_of group g lease (meet machine i message (alone machine group g lease))
        ≡ lease_after group g i lease (record_of (lease.part i)) (taken_at machine i message)
        (taken_at machine i message) }
    ensures does_process { (machine : Machine S A) (group : ℕ → ℕ) (g i : ℕ) (lease : Lease S A)
        (entry : Entry A) → group i ≡ g
        → next_of machine i (record_of (lease.part i)) ≡ Some entry
        → Does machine group g (alone machine group g lease) (Process i ∷ [])
        (alone machine group g (lease_after group g i lease
        (after_entry entry (record_of (lease.part i))) (sent_by machine i entry) same)) }
    ensures does_message { (machine : Machine S A) (group : ℕ → ℕ) (g i : ℕ) (lease : Lease S A)
        (message : Item A) → group i ≡ g
        → 0 < times machine (lease.part i).plus message.key message.action
        → Does machine group g (alone machine group g lease) (DeliverMessage i message ∷ [])
        (alone machine group g (lease_after group g i lease
        (message_comes machine message (record_of (lease.part i))) (taken_at machine i message)
        (unsent machine i (back_by_message machine message (record_of (lease.part i)))))) }
    ensures does_antimessage { (machine : Machine S A) (group : ℕ → ℕ) (g i : ℕ)
        (lease : Lease S A) (message : Item A) → group i ≡ g
        → 0 < times machine (lease.part i).minus message.key message.action
        → Does machine group g (alone machine group g lease) (DeliverAntimessage i message ∷ [])
        (alone machine group g (lease_after group g i lease
        (antimessage_comes machine message (record_of (lease.part i))) same
        (λ j xs. taken_at machine i message j
        (unsent machine i (back_by_antimessage machine message (record_of (lease.part i))) j xs)))) }
    ensures does_meet { (machine : Machine S A) (group : ℕ → ℕ) (g i : ℕ) (lease : Lease S A)
        (message : Item A) → group i ≡ g
        → 0 < times machine (lease.part i).plus message.key message.action
        → 0 < times machine (lease.part i).minus message.key message.action
        → Does machine group g (alone machine group g lease) (Meet i message ∷ [])
        (alone machine group g (lease_after group g i lease (record_of (lease.part i))
        (taken_at machine i message) (taken_at machine i message))) }
    ensures does_both { (machine : Machine S A) (group : ℕ → ℕ) (g : ℕ)
        (steps more : List (Step A)) (world middle next_world : World S A)
        → Does machine group g world steps middle → Does machine group g middle more next_world
        → Does machine group g world (steps ++ more) next_world }
    ensures is { (machine : Machine S A) (group : ℕ → ℕ) (g : ℕ) (lease new_lease : Lease S A)
        → new_lease.floor ≡ lease.floor
        → ((j : ℕ) → (group j ≡ g → ⊥) → new_lease.part j ≡ lease.part j)
        → ((i : ℕ) → group i ≡ g → new_lease.out_plus i ≡ [])
        → ((i : ℕ) → group i ≡ g → new_lease.out_minus i ≡ [])
        → lease_of group g lease (alone machine group g new_lease) ≡ new_lease }
{}

/// What the exchange and the leases of groups do are steps of the whole world.
pub fn group_exchange_is_core<S, A>()
    ensures commit { (machine : Machine S A) (group : ℕ → ℕ) (count : ℕ)
        (exchange new_exchange : Exchange A) (leases : ℕ → Lease S A) (world : World S A)
        → Lawful machine → IsSound machine group count exchange
        → ((g : ℕ) → IsLease machine group g (leases g))
        → ((g : ℕ) → Matches machine group g (exchange.stub g) (leases g))
        → IsWholeWorld machine group exchange leases world → IsWorld machine world
        → IsCommit machine exchange new_exchange → (next_world : World S A)
        × Reaches machine world (Commit new_exchange.bound ∷ []) next_world
        × IsWholeWorld machine group new_exchange leases next_world }
    ensures meet { (machine : Machine S A) (group : ℕ → ℕ) (g : ℕ)
        (exchange new_exchange : Exchange A) (leases : ℕ → Lease S A) (new_lease : Lease S A)
        (world : World S A) → Lawful machine → IsLease machine group g (leases g)
        → IsWholeWorld machine group exchange leases world
        → (met : Met machine group g exchange (leases g) new_exchange new_lease)
        → (next_world : World S A) × Reaches machine world (meets_of met.gone) next_world
        × IsWholeWorld machine group new_exchange (put_lease g new_lease leases) next_world }
    ensures alone { (machine : Machine S A) (group : ℕ → ℕ) (count g : ℕ) (exchange : Exchange A)
        (leases : ℕ → Lease S A) (steps : List (Step A)) (alone_world world : World S A)
        → Lawful machine → IsSound machine group count exchange
        → IsLease machine group g (leases g) → Matches machine group g (exchange.stub g) (leases g)
        → IsWholeWorld machine group exchange leases world → IsWorld machine world
        → Does machine group g (alone machine group g (leases g)) steps alone_world
        → (next_world : World S A) × Reaches machine world steps next_world
        × IsWholeWorld machine group exchange
        (put_lease g (lease_of group g (leases g) alone_world) leases) next_world }
    ensures start { (machine : Machine S A) (group : ℕ → ℕ) (count : ℕ) → Lawful machine
        → HasCount machine count
        → IsWholeWorld machine group (start_exchange machine group count)
        (start_lease machine group count) (start_world machine) }
{}

/// After any list of calls of groups, in any order, where chunks ask all components that have turns, the exchange is sound, each lease
/// matches its stub, and the whole is a world that core steps reach from the start. All that chunks gave is the reference below a bound.
pub fn group_calls_are_core_steps<S, A>()
    ensures start { (machine : Machine S A) (group : ℕ → ℕ) (count : ℕ) → Lawful machine
        → HasCount machine count → IsShared machine group count (start_shared machine group count) }
    ensures calls { (machine : Machine S A) (group : ℕ → ℕ) (count : ℕ) (calls : List (Call A))
        (shared new_shared : Shared S A) → Lawful machine → HasCount machine count
        → IsShared machine group count shared → Calls machine group count shared calls new_shared
        → IsShared machine group count new_shared }
    ensures given { (machine : Machine S A) (group : ℕ → ℕ) (count : ℕ) (calls : List (Call A))
        (shared : Shared S A) → Lawful machine → HasCount machine count
        → (called : Calls machine group count (start_shared machine group count) calls shared)
        → (b : ℕ) × (given_by machine group count (start_shared machine group count) calls shared called
        ≡ reference_below machine b) }
{}

/// A window of so many own turns keeps the records of groups' components, and with them the inboxes, short. It holds at the start, and
/// each call within it keeps it. All inboxes together hold at most 2 · window messages and antimessages for each pair of a sender and a
/// receiver that are of two groups.
pub fn group_window_law<S, A>()
    ensures start { (machine : Machine S A) (group : ℕ → ℕ) (window count : ℕ) → Lawful machine
        → IsExchangeWithin machine group window count (start_exchange machine group count) }
    ensures commit { (machine : Machine S A) (group : ℕ → ℕ) (window count : ℕ)
        (exchange new_exchange : Exchange A)
        → IsExchangeWithin machine group window count exchange
        → IsCommit machine exchange new_exchange
        → IsExchangeWithin machine group window count new_exchange }
    ensures chunk { (machine : Machine S A) (group : ℕ → ℕ) (window count b : ℕ)
        (exchange new_exchange : Exchange A) (turns : List (Turn A))
        → IsExchangeWithin machine group window count exchange
        → IsChunk machine group count exchange b new_exchange turns
        → IsExchangeWithin machine group window count new_exchange }
    ensures meet { (machine : Machine S A) (group : ℕ → ℕ) (window count g : ℕ)
        (exchange new_exchange : Exchange A) (lease new_lease : Lease S A) → Lawful machine
        → AreAmong group count g → IsSound machine group count exchange
        → IsLease machine group g lease → Matches machine group g (exchange.stub g) lease
        → Met machine group g exchange lease new_exchange new_lease
        → IsExchangeWithin machine group window count exchange
        → ((i : ℕ) → group i ≡ g → IsWithin window count (record_of (lease.part i)))
        → IsExchangeWithin machine group window count new_exchange
        × ((i : ℕ) → group i ≡ g → IsWithin window count (record_of (new_lease.part i))) }
    ensures settled { (machine : Machine S A) (group : ℕ → ℕ) (window count g i : ℕ)
        (exchange : Exchange A) (lease : Lease S A) → Lawful machine → AreAmong group count g
        → IsExchangeWithin machine group window count exchange → IsLease machine group g lease
        → Matches machine group g (exchange.stub g) lease
        → ((n : ℕ) → group n ≡ g → own_turns (lease.part n).done ≤ window) → group i ≡ g
        → (lease.part i).plus ≡ [] → (lease.part i).minus ≡ []
        → IsWithin window count (record_of (lease.part i)) }
    ensures inboxes { (machine : Machine S A) (group : ℕ → ℕ) (window count : ℕ)
        (exchange : Exchange A) → Lawful machine → IsSound machine group count exchange
        → IsExchangeWithin machine group window count exchange
        → inboxes exchange count ≤ 2 * (window * crossings group count count) }
    ensures first { (machine : Machine S A) (group : ℕ → ℕ) (window count : ℕ) → Lawful machine
        → HasCount machine count
        → IsWindowed machine group window count (start_shared machine group count) }
    ensures calls { (machine : Machine S A) (group : ℕ → ℕ) (window count : ℕ)
        (calls : List (Call A)) (shared new_shared : Shared S A) → Lawful machine
        → HasCount machine count → IsWindowed machine group window count shared
        → CallsWithin machine group window count shared calls new_shared
        → IsWindowed machine group window count new_shared }
{}

/// Where the lease of every group has met the exchange, no inbox has anything, and the bound was raised as far as it goes, the bound is
/// the end, or one of the components has something to do at the bound. A group's floor is the end, or what one of its components has to do.
pub fn group_progress_law<S, A>()
    ensures goes_on { (machine : Machine S A) (group : ℕ → ℕ) (groups count : ℕ)
        (exchange new_exchange : Exchange A) (leases : ℕ → Lease S A) → Lawful machine
        → HasCount machine count → HaveAllMet machine group groups count exchange leases
        → IsCommit machine exchange new_exchange → (new_exchange.bound ≡ machine.top)
        ⊎ ((g : ℕ) × (i : ℕ) × (g < groups) × (i < count) × (group i ≡ g)
        × CanGoOn machine i new_exchange.bound ((leases g).part i)) }
    ensures floor { (machine : Machine S A) (group : ℕ → ℕ) (count g b : ℕ) (parts : ℕ → Part S A)
        → Lawful machine → HasCount machine count → AreAmong group count g
        → IsFloor machine group g b parts → (b ≡ machine.top)
        ⊎ ((i : ℕ) × (i < count) × (group i ≡ g) × IsAt machine b i (parts i)) }
{}
