//! Groups of one component: each definition of groups is then that of components.
ghost use Rattle.std.specs.Prelude.{List, ◌*◌, ◌-◌, ◌<◌, ◌≡◌, ℕ};
ghost use Rattle.virtual_time.specs.Exchange.Calls.{Call, Called, Calls, IsShared, Shared, start_shared};
ghost use Rattle.virtual_time.specs.Exchange.Leases.{Does, IsFloor, IsLease, Lease, Matches, alone, lease_of};
ghost use Rattle.virtual_time.specs.Exchange.Meetings.{IsChunk, IsCommit, Met};
ghost use Rattle.virtual_time.specs.Exchange.Stubs.{Exchange, IsSound, Stub};
ghost use Rattle.virtual_time.specs.Exchange.Wholes.{IsWholeWorld};
ghost use Rattle.virtual_time.specs.Exchange.Windows.{IsExchangeWithin, inboxes};
ghost use Rattle.virtual_time.specs.Groups.Calls.{Called as GroupCalled, Calls as GroupCalls, IsShared as IsGroupShared, start_shared as start_group_shared};
ghost use Rattle.virtual_time.specs.Groups.Leases.{Does as GroupDoes, IsFloor as IsGroupFloor, IsLease as IsGroupLease, Matches as GroupMatches, alone as group_alone, lease_of as group_lease_of};
ghost use Rattle.virtual_time.specs.Groups.Meetings.{IsChunk as IsGroupChunk, IsCommit as IsGroupCommit, Met as GroupMet};
ghost use Rattle.virtual_time.specs.Groups.Singles.{CallMeetsNothing, MeetsNothing, ones, single_exchange, single_lease, single_shared, single_stub};
ghost use Rattle.virtual_time.specs.Groups.Stubs.{IsSound as IsGroupSound};
ghost use Rattle.virtual_time.specs.Groups.Wholes.{IsWholeWorld as IsGroupWhole};
ghost use Rattle.virtual_time.specs.Groups.Windows.{IsExchangeWithin as IsGroupExchangeWithin, crossings, inboxes as group_inboxes};
ghost use Rattle.virtual_time.specs.Machine.{HasCount, Lawful, Machine};
ghost use Rattle.virtual_time.specs.Reference.{Turn};
ghost use Rattle.virtual_time.specs.Worlds.{Step, World};

/// Where each component is a group of its own, leases, meetings and all that is said of them are those of components. A group may also
/// let a message and its antimessage meet in its flight; where it lets none meet, its steps are a component's.
pub fn groups_of_one<S, A>()
    ensures partition { (group : ℕ → ℕ) → ((j : ℕ) → group j ≡ j) → group ≡ ones }
    ensures lease { (machine : Machine S A) (i : ℕ) (lease : Lease S A)
        → (IsLease machine i lease → IsGroupLease machine ones i (single_lease machine i lease))
        × (IsGroupLease machine ones i (single_lease machine i lease) → IsLease machine i lease) }
    ensures matches { (machine : Machine S A) (i : ℕ) (stub : Stub A) (lease : Lease S A)
        → Lawful machine
        → (Matches machine i stub lease
        → GroupMatches machine ones i (single_stub stub) (single_lease machine i lease))
        × (GroupMatches machine ones i (single_stub stub) (single_lease machine i lease)
        → Matches machine i stub lease) }
    ensures floor { (machine : Machine S A) (i b : ℕ) (lease : Lease S A) → Lawful machine
        → (IsFloor machine i b lease.part
        → IsGroupFloor machine ones i b (single_lease machine i lease).part)
        × (IsGroupFloor machine ones i b (single_lease machine i lease).part
        → IsFloor machine i b lease.part) }
    ensures alone { (machine : Machine S A) (i : ℕ) (lease : Lease S A)
        → group_alone machine ones i (single_lease machine i lease) ≡ alone machine i lease }
    ensures steps { (machine : Machine S A) (i : ℕ) (world next_world : World S A)
        (steps : List (Step A))
        → (Does machine i world steps next_world
        → GroupDoes machine ones i world steps next_world × MeetsNothing steps)
        × (GroupDoes machine ones i world steps next_world → MeetsNothing steps
        → Does machine i world steps next_world) }
    ensures leased { (machine : Machine S A) (i : ℕ) (lease : Lease S A) (world : World S A)
        → group_lease_of ones i (single_lease machine i lease) world
        ≡ single_lease machine i (lease_of i lease.floor world) }
    ensures met { (machine : Machine S A) (i : ℕ) (exchange new_exchange : Exchange A)
        (lease new_lease : Lease S A) → Lawful machine
        → (Met machine i exchange lease new_exchange new_lease
        → GroupMet machine ones i (single_exchange exchange) (single_lease machine i lease)
        (single_exchange new_exchange) (single_lease machine i new_lease))
        × (GroupMet machine ones i (single_exchange exchange) (single_lease machine i lease)
        (single_exchange new_exchange) (single_lease machine i new_lease)
        → Met machine i exchange lease new_exchange new_lease) }
    ensures commit { (machine : Machine S A) (exchange new_exchange : Exchange A)
        → (IsCommit machine exchange new_exchange
        → IsGroupCommit machine (single_exchange exchange) (single_exchange new_exchange))
        × (IsGroupCommit machine (single_exchange exchange) (single_exchange new_exchange)
        → IsCommit machine exchange new_exchange) }
    ensures chunk { (machine : Machine S A) (count b : ℕ) (exchange new_exchange : Exchange A)
        (turns : List (Turn A))
        → (IsChunk machine count exchange b new_exchange turns
        → IsGroupChunk machine ones count (single_exchange exchange) b
        (single_exchange new_exchange) turns)
        × (IsGroupChunk machine ones count (single_exchange exchange) b
        (single_exchange new_exchange) turns
        → IsChunk machine count exchange b new_exchange turns) }
    ensures sound { (machine : Machine S A) (count : ℕ) (exchange : Exchange A) → Lawful machine
        → (IsSound machine count exchange
        → IsGroupSound machine ones count (single_exchange exchange))
        × (IsGroupSound machine ones count (single_exchange exchange)
        → IsSound machine count exchange) }
    ensures whole { (machine : Machine S A) (exchange : Exchange A) (leases : ℕ → Lease S A)
        (world : World S A)
        → (IsWholeWorld machine exchange leases world
        → IsGroupWhole machine ones (single_exchange exchange)
        (λ j. single_lease machine j (leases j)) world)
        × (IsGroupWhole machine ones (single_exchange exchange)
        (λ j. single_lease machine j (leases j)) world
        → IsWholeWorld machine exchange leases world) }
    ensures start { (machine : Machine S A) (count : ℕ) → Lawful machine → HasCount machine count
        → start_group_shared machine ones count
        ≡ single_shared machine (start_shared machine) }
    ensures called { (machine : Machine S A) (count : ℕ) (shared new_shared : Shared S A)
        (call : Call A) → Lawful machine
        → (Called machine count shared call new_shared
        → GroupCalled machine ones count (single_shared machine shared) call
        (single_shared machine new_shared))
        × (CallMeetsNothing call
        → GroupCalled machine ones count (single_shared machine shared) call
        (single_shared machine new_shared)
        → Called machine count shared call new_shared) }
    ensures calls { (machine : Machine S A) (count : ℕ) (shared new_shared : Shared S A)
        (calls : List (Call A)) → Lawful machine
        → Calls machine count shared calls new_shared
        → GroupCalls machine ones count (single_shared machine shared) calls
        (single_shared machine new_shared) }
    ensures shared { (machine : Machine S A) (count : ℕ) (shared : Shared S A) → Lawful machine
        → (IsShared machine count shared
        → IsGroupShared machine ones count (single_shared machine shared))
        × (IsGroupShared machine ones count (single_shared machine shared)
        → IsShared machine count shared) }
    ensures window { (machine : Machine S A) (window count : ℕ) (exchange : Exchange A)
        → Lawful machine → IsExchangeWithin machine window count exchange
        → IsGroupExchangeWithin machine ones window count (single_exchange exchange) }
    ensures inboxes { (exchange : Exchange A) (window count : ℕ)
        → (group_inboxes (single_exchange exchange) count ≡ inboxes exchange count)
        × (2 * (window * crossings ones count count) ≡ 2 * (window * (count - 1)) * count) }
{}
