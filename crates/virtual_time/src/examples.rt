//! The definitions at work, on a ring of two components.

ghost use Rattle.std.specs.Prelude.{None, Some, [], ◌∷◌, ◌≡◌};
ghost use Rattle.virtual_time.specs.Entries.{Input, Own};
ghost use Rattle.virtual_time.specs.Groups.Leases.{Does, lease_of};
ghost use Rattle.virtual_time.specs.Groups.Pair.{pair, pair_lease, pair_world};
ghost use Rattle.virtual_time.specs.Groups.Windows.{AreAmong};
ghost use Rattle.virtual_time.specs.Machine.{HasCount, Lawful};
ghost use Rattle.virtual_time.specs.Records.{next_of};
ghost use Rattle.virtual_time.specs.Replies.{Committed, Delivered, Met, Processed, Refused, RolledBack, Runs};
ghost use Rattle.virtual_time.specs.Ring.{AreAlike, led, pass_2, pass_3, pass_4, ring};
ghost use Rattle.virtual_time.specs.Worlds.{Commit, DeliverAntimessage, DeliverMessage, Meet, Process, RollBack, record_of, start_world};

/// The ring meets the laws of a machine, with two components.
pub fn ring_is_lawful()
    ensures lawful { Lawful ring }
    ensures counted { HasCount ring 2 }
{}

/// A straggler undoes the turn at tick 3, and its antimessage takes it away again.
pub fn straggler_example()
    ensures runs { Runs ring 2 (start_world ring)
        (Process 1 ∷ Process 1 ∷ Process 0 ∷ DeliverMessage 1 pass_2 ∷ [])
        (Processed 3 ∷ Processed 7 ∷ Processed 4 ∷ Delivered 1 ∷ [])
        (led (start_world ring)
        (Process 1 ∷ Process 1 ∷ Process 0 ∷ DeliverMessage 1 pass_2 ∷ [])) }
    ensures done { ((led (start_world ring)
        (Process 1 ∷ Process 1 ∷ Process 0 ∷ DeliverMessage 1 pass_2 ∷ [])).part 1).done
        ≡ Own 3 None ∷ [] }
    ensures pending { ((led (start_world ring)
        (Process 1 ∷ Process 1 ∷ Process 0 ∷ DeliverMessage 1 pass_2 ∷ [])).part 1).pending ≡ pass_2
        ∷ [] }
    ensures next { next_of ring 1
        (record_of ((led (start_world ring)
        (Process 1 ∷ Process 1 ∷ Process 0 ∷ DeliverMessage 1 pass_2 ∷ [])).part 1))
        ≡ Some (Input pass_2) }
    ensures taken_away { Runs ring 2 (led (start_world ring)
        (Process 1 ∷ Process 1 ∷ Process 0 ∷ DeliverMessage 1 pass_2 ∷ []))
        (RollBack 0 ∷ DeliverAntimessage 1 pass_2 ∷ []) (RolledBack 4 ∷ Delivered 0 ∷ [])
        (led (start_world ring)
        (Process 1 ∷ Process 1 ∷ Process 0 ∷ DeliverMessage 1 pass_2 ∷ RollBack 0
        ∷ DeliverAntimessage 1 pass_2 ∷ [])) }
    ensures earlier { ((led (start_world ring)
        (Process 1 ∷ Process 1 ∷ Process 0 ∷ DeliverMessage 1 pass_2 ∷ RollBack 0
        ∷ DeliverAntimessage 1 pass_2 ∷ [])).part 1).done ≡ Own 3 None ∷ [] }
    ensures again { AreAlike (led (start_world ring)
        (Process 1 ∷ Process 1 ∷ Process 0 ∷ DeliverMessage 1 pass_2 ∷ RollBack 0
        ∷ DeliverAntimessage 1 pass_2 ∷ Process 1 ∷ []))
        (led (start_world ring) (Process 1 ∷ Process 1 ∷ [])) }
{}

/// A turn is taken back, and its message and antimessage meet in flight, or are delivered with the antimessage first.
pub fn inverse_example()
    ensures met { Runs ring 2 (start_world ring) (Process 0 ∷ RollBack 0 ∷ Meet 1 pass_2 ∷ [])
        (Processed 4 ∷ RolledBack 4 ∷ Met ∷ [])
        (led (start_world ring) (Process 0 ∷ RollBack 0 ∷ Meet 1 pass_2 ∷ [])) }
    ensures met_start { AreAlike (led (start_world ring)
        (Process 0 ∷ RollBack 0 ∷ Meet 1 pass_2 ∷ [])) (start_world ring) }
    ensures delivered { Runs ring 2 (start_world ring)
        (Process 0 ∷ RollBack 0 ∷ DeliverAntimessage 1 pass_2 ∷ DeliverMessage 1 pass_2 ∷ [])
        (Processed 4 ∷ RolledBack 4 ∷ Delivered 0 ∷ Delivered 0 ∷ [])
        (led (start_world ring)
        (Process 0 ∷ RollBack 0 ∷ DeliverAntimessage 1 pass_2 ∷ DeliverMessage 1 pass_2 ∷ [])) }
    ensures owed { ((led (start_world ring)
        (Process 0 ∷ RollBack 0 ∷ DeliverAntimessage 1 pass_2 ∷ [])).part 1).owed ≡ pass_2 ∷ [] }
    ensures delivered_start { AreAlike (led (start_world ring)
        (Process 0 ∷ RollBack 0 ∷ DeliverAntimessage 1 pass_2 ∷ DeliverMessage 1 pass_2 ∷ []))
        (start_world ring) }
    ensures twice_plus { ((led (start_world ring)
        (Process 0 ∷ RollBack 0 ∷ Process 0 ∷ [])).part 1).plus ≡ pass_2 ∷ pass_2 ∷ [] }
    ensures twice_minus { ((led (start_world ring)
        (Process 0 ∷ RollBack 0 ∷ Process 0 ∷ [])).part 1).minus ≡ pass_2 ∷ [] }
    ensures once { ((led (start_world ring)
        (Process 0 ∷ RollBack 0 ∷ Process 0 ∷ DeliverMessage 1 pass_2 ∷ DeliverMessage 1 pass_2
        ∷ DeliverAntimessage 1 pass_2 ∷ [])).part 1).pending ≡ pass_2 ∷ [] }
    ensures once_like { AreAlike (led (start_world ring)
        (Process 0 ∷ RollBack 0 ∷ Process 0 ∷ DeliverMessage 1 pass_2 ∷ DeliverMessage 1 pass_2
        ∷ DeliverAntimessage 1 pass_2 ∷ []))
        (led (start_world ring) (Process 0 ∷ DeliverMessage 1 pass_2 ∷ [])) }
{}

/// A commit is bounded by what is in flight, and what it leaves behind is refused.
pub fn commit_example()
    ensures ahead { Runs ring 2 (start_world ring) (Process 1 ∷ Process 0 ∷ Commit 7 ∷ [])
        (Processed 3 ∷ Processed 4 ∷ Refused 34 ∷ [])
        (led (start_world ring) (Process 1 ∷ Process 0 ∷ [])) }
    ensures accepted { Runs ring 2 (led (start_world ring) (Process 1 ∷ Process 0 ∷ []))
        (Commit 4 ∷ []) (Committed 1 ∷ [])
        (led (start_world ring) (Process 1 ∷ Process 0 ∷ Commit 4 ∷ [])) }
    ensures committed { (led (start_world ring) (Process 1 ∷ Process 0 ∷ Commit 4 ∷ [])).committed
        ≡ record { key = 3; outcome = None } ∷ [] }
    ensures refused { Runs ring 2 (led (start_world ring) (Process 1 ∷ Process 0 ∷ Commit 4 ∷ []))
        (Commit 3 ∷ RollBack 1 ∷ Process 2 ∷ Meet 1 pass_2 ∷ [])
        (Refused 35 ∷ Refused 33 ∷ Refused 30 ∷ Refused 32 ∷ [])
        (led (start_world ring) (Process 1 ∷ Process 0 ∷ Commit 4 ∷ [])) }
    ensures again { Runs ring 2 (led (start_world ring) (Process 1 ∷ Process 0 ∷ Commit 4 ∷ []))
        (Commit 4 ∷ []) (Committed 0 ∷ [])
        (led (start_world ring) (Process 1 ∷ Process 0 ∷ Commit 4 ∷ Commit 4 ∷ [])) }
    ensures again_like { AreAlike (led (start_world ring)
        (Process 1 ∷ Process 0 ∷ Commit 4 ∷ Commit 4 ∷ []))
        (led (start_world ring) (Process 1 ∷ Process 0 ∷ Commit 4 ∷ [])) }
{}

/// The whole ring: each message comes in time, and committing the end commits all four turns, the last one first.
pub fn whole_example()
    ensures runs { Runs ring 2 (start_world ring)
        (Process 1 ∷ Process 0 ∷ DeliverMessage 1 pass_2 ∷ Process 1 ∷ Process 1
        ∷ DeliverMessage 0 pass_3 ∷ Process 0 ∷ Process 0 ∷ DeliverMessage 1 pass_4 ∷ Process 1
        ∷ Commit 100 ∷ Process 0 ∷ [])
        (Processed 3 ∷ Processed 4 ∷ Delivered 0 ∷ Processed 4 ∷ Processed 7 ∷ Delivered 0
        ∷ Processed 7 ∷ Processed 8 ∷ Delivered 0 ∷ Processed 8 ∷ Committed 4 ∷ Refused 31 ∷ [])
        (led (start_world ring)
        (Process 1 ∷ Process 0 ∷ DeliverMessage 1 pass_2 ∷ Process 1 ∷ Process 1
        ∷ DeliverMessage 0 pass_3 ∷ Process 0 ∷ Process 0 ∷ DeliverMessage 1 pass_4 ∷ Process 1
        ∷ Commit 100 ∷ [])) }
    ensures committed { (led (start_world ring)
        (Process 1 ∷ Process 0 ∷ DeliverMessage 1 pass_2 ∷ Process 1 ∷ Process 1
        ∷ DeliverMessage 0 pass_3 ∷ Process 0 ∷ Process 0 ∷ DeliverMessage 1 pass_4 ∷ Process 1
        ∷ Commit 100 ∷ [])).committed ≡ record { key = 8; outcome = Some 1 }
        ∷ record { key = 7; outcome = Some 0 } ∷ record { key = 4; outcome = Some 1 }
        ∷ record { key = 3; outcome = None } ∷ [] }
{}

/// The ring as one group: the token passes within it, and a straggler takes a turn back there. Nothing is in its outgoing bag, and its
/// floor at the start is the first turn of the two.
pub fn group_example()
    ensures among { AreAmong pair 2 0 }
    ensures floor { pair_lease.floor ≡ 3 }
    ensures steps { Does ring pair 0 pair_world
        (Process 1 ∷ Process 1 ∷ Process 0 ∷ DeliverMessage 1 pass_2 ∷ [])
        (led pair_world (Process 1 ∷ Process 1 ∷ Process 0 ∷ DeliverMessage 1 pass_2 ∷ [])) }
    ensures flight { ((lease_of pair 0 pair_lease
        (led pair_world (Process 1 ∷ Process 1 ∷ Process 0 ∷ []))).part 1).plus ≡ pass_2 ∷ [] }
    ensures done { ((lease_of pair 0 pair_lease
        (led pair_world (Process 1 ∷ Process 1 ∷ Process 0 ∷ DeliverMessage 1 pass_2 ∷ []))).part 1).done
        ≡ Own 3 None ∷ [] }
    ensures pending { ((lease_of pair 0 pair_lease
        (led pair_world (Process 1 ∷ Process 1 ∷ Process 0 ∷ DeliverMessage 1 pass_2 ∷ []))).part 1).pending
        ≡ pass_2 ∷ [] }
    ensures bag { (lease_of pair 0 pair_lease
        (led pair_world (Process 1 ∷ Process 1 ∷ Process 0 ∷ DeliverMessage 1 pass_2 ∷ []))).out_plus 1
        ≡ [] }
{}
