//! What holds after any list of steps.

ghost use Rattle.std.specs.Prelude.{List, Some, ◌++◌, ◌<◌, ◌≡◌, ◌≤◌, ℕ};
ghost use Rattle.virtual_time.specs.Entries.{Entry, below, turn_at};
ghost use Rattle.virtual_time.specs.Records.{turns_among};
ghost use Rattle.virtual_time.specs.Machine.{HasCount, Lawful, Machine};
ghost use Rattle.virtual_time.specs.Reference.{Falls, IsAmong, IsReference, Turn};
ghost use Rattle.virtual_time.specs.Replies.{Answers, Committed, Refused, IsAtRest, IsReached, IsVirtualTime, Reply, Runs, virtual_time};
ghost use Rattle.virtual_time.specs.Rules.{IsDone, IsRollBack, IsWorld};
ghost use Rattle.virtual_time.specs.Worlds.{CanCommit, Commit, IsToCommit, Past, Reaches, Step, World, commit, start_world};

/// After any list of steps the committed list is the simulator's, as far as the committed bound. Each world that steps reach has
/// proper and grounded records and is in balance, each step keeps that, and what was committed stays.
pub fn committed_is_reference<S, A>()
    ensures committed { (machine : Machine S A) (count : ℕ) (world : World S A) → Lawful machine
        → IsReached machine count world → IsReference machine world.bound world.committed }
    ensures sound { (machine : Machine S A) (count : ℕ) (world : World S A) → Lawful machine
        → IsReached machine count world → IsWorld machine world }
    ensures kept { (machine : Machine S A) (count : ℕ) (world next_world : World S A)
        (step : Step A) (reply : Reply) → Lawful machine → IsWorld machine world
        → Answers machine count world step reply next_world → IsWorld machine next_world }
    ensures stays { (machine : Machine S A) (count : ℕ) (world next_world : World S A)
        (steps : List (Step A)) (replies : List Reply)
        → Runs machine count world steps replies next_world → (extra : List (Turn A))
        × (next_world.committed ≡ extra ++ world.committed) }
{}

/// Global virtual time is one number, the greatest that no next key and no key in flight is below. It is at least the committed
/// bound, and no step but a roll-back lowers it.
pub fn virtual_time_rises<S, A>()
    ensures one { (machine : Machine S A) (world : World S A) (g h : ℕ) → Lawful machine
        → IsVirtualTime machine world g → IsVirtualTime machine world h → g ≡ h }
    ensures most { (machine : Machine S A) (world : World S A) (g b : ℕ) → Lawful machine
        → IsVirtualTime machine world g → Past machine b world → b ≤ g }
    ensures bound { (machine : Machine S A) (world : World S A) (g : ℕ) → Lawful machine
        → IsWorld machine world → IsVirtualTime machine world g → world.bound ≤ g }
    ensures rises { (machine : Machine S A) (count : ℕ) (world next_world : World S A)
        (step : Step A) (reply : Reply) (g h : ℕ) → Lawful machine → IsWorld machine world
        → Answers machine count world step reply next_world → (IsRollBack step → ⊥)
        → IsVirtualTime machine world g → IsVirtualTime machine next_world h → g ≤ h }
    ensures exists { (machine : Machine S A) (count : ℕ) (world : World S A) → Lawful machine
        → HasCount machine count → IsReached machine count world
        → IsVirtualTime machine world (virtual_time machine count world) }
{}

/// In each world that steps reach each step has an answer, and a refused step leaves the world.
/// A world that steps reach without their replies is one that they reach with them.
pub fn each_step_is_answered<S, A>()
    ensures answered { (machine : Machine S A) (count : ℕ) (world : World S A) (step : Step A)
        → Lawful machine → HasCount machine count → IsReached machine count world → (reply : Reply)
        × (next_world : World S A) × Answers machine count world step reply next_world }
    ensures refused { (machine : Machine S A) (count refusal : ℕ) (world next_world : World S A)
        (step : Step A) → Answers machine count world step (Refused refusal) next_world
        → next_world ≡ world }
    ensures reached { (machine : Machine S A) (count : ℕ) (world : World S A)
        (steps : List (Step A)) → Lawful machine → HasCount machine count
        → Reaches machine (start_world machine) steps world → IsReached machine count world }
{}

/// A commit is accepted exactly from the committed bound to global virtual time. What it appends is the one list in the order of keys that
/// has just the done turns from the old bound to the new one. Where every next is the end and nothing is in
/// flight that time is the end, and committing it makes the committed list all of the reference.
pub fn commit_is_exact<S, A>()
    ensures can { (machine : Machine S A) (world : World S A) (g b : ℕ) → Lawful machine
        → IsVirtualTime machine world g → world.bound ≤ b → b ≤ g → CanCommit machine world b }
    ensures cannot { (machine : Machine S A) (world : World S A) (g b : ℕ) → Lawful machine
        → IsVirtualTime machine world g → CanCommit machine world b → (world.bound ≤ b) × (b ≤ g) }
    ensures accepted { (machine : Machine S A) (count : ℕ) (world next_world : World S A) (g b : ℕ)
        (reply : Reply) → Lawful machine → IsVirtualTime machine world g → world.bound ≤ b → b ≤ g
        → Answers machine count world (Commit b) reply next_world → (k : ℕ) × (reply ≡ Committed k)
        × (next_world ≡ commit machine b world) }
    ensures refused { (machine : Machine S A) (count : ℕ) (world next_world : World S A) (g b k : ℕ)
        → Lawful machine → IsVirtualTime machine world g
        → Answers machine count world (Commit b) (Committed k) next_world → (world.bound ≤ b)
        × (b ≤ g) }
    ensures appended { (machine : Machine S A) (world : World S A) (b : ℕ) (chunk : List (Turn A))
        → world.bound ≤ b → Falls chunk
        → ((turn : Turn A) → IsAmong turn chunk → IsToCommit machine world b turn)
        → ((turn : Turn A) → IsToCommit machine world b turn → IsAmong turn chunk)
        → (commit machine b world).committed ≡ chunk ++ world.committed }
    ensures rest { (machine : Machine S A) (world : World S A) → Lawful machine
        → IsWorld machine world → IsAtRest machine world → IsVirtualTime machine world machine.top }
    ensures all { (machine : Machine S A) (count : ℕ) (world next_world : World S A) (reply : Reply)
        → Lawful machine → IsWorld machine world → IsAtRest machine world
        → Answers machine count world (Commit machine.top) reply next_world
        → IsReference machine machine.top next_world.committed }
{}

/// The own turns among a component's done entries below a bound, which a commit drops: they stand in the order of keys, each once, and are
/// just the done turns below the bound.
pub fn dropped_law<S, A>()
    ensures falls { (machine : Machine S A) (i g n b : ℕ) (state : S) (entries : List (Entry A))
        → Lawful machine → IsDone machine i g n state entries
        → Falls (turns_among (below b entries)) }
    ensures only { (machine : Machine S A) (i g n b : ℕ) (state : S) (entries : List (Entry A))
        (turn : Turn A) → Lawful machine → IsDone machine i g n state entries
        → IsAmong turn (turns_among (below b entries)) → (turn.key < b)
        × (turn_at turn.key entries ≡ Some turn.outcome) × (machine.owner turn.key ≡ i) }
    ensures all { (machine : Machine S A) (i g n b : ℕ) (state : S) (entries : List (Entry A))
        (turn : Turn A) → Lawful machine → IsDone machine i g n state entries → turn.key < b
        → turn_at turn.key entries ≡ Some turn.outcome
        → IsAmong turn (turns_among (below b entries)) }
{}
