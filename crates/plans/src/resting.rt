//! The tasks of a component that have nothing enabled in its present state, as far as was asked.
//!
//! Most turns are idle, and a component's state mostly hasn't changed since its task was asked last. What was found then needn't
//! be asked again. The contracts say that no note comes from nowhere, and none outlives a change; that notes are kept until then
//! is a matter of time alone, and no clause speaks of it.
ghost use Rattle.std.specs.Prelude.{◌≡◌, ◌⊎◌, ℕ, false, true};
ghost use Rattle.plans.specs.Resting.{rests};

/// For each task of a component, whether it rests. Only the first eight tasks can be noted, so that a note is small; a later
/// one is asked each time.
#[derive(Clone, Copy)]
pub struct Resting {
    tasks: [bool; 8],
}

impl Resting {
    /// Nothing was asked.
    #[inline(always)]
    pub fn new() -> Resting
        ensures { (task : ℕ) → rests result task ≡ false }
    {
        Resting { tasks: [false; 8] }
    }

    /// Whether a task rests.
    #[inline(always)]
    pub fn is_resting(&self, task: u32) -> bool
        ensures { result ≡ rests self.now task }
    {
        match self.tasks.get(task as usize) {
            Some(note) => *note,
            None => false,
        }
    }

    /// A task has nothing enabled.
    #[inline(always)]
    pub fn note(&mut self, task: u32)
        ensures { (t : ℕ) → rests self.new t ≡ true → (rests self.old t ≡ true) ⊎ (t ≡ task) }
    {
        let place = task as usize;
        if place < 8 {
            self.tasks[place] = true;
        }
    }

    /// The component's state changed, so no task rests any more.
    #[inline(always)]
    pub fn wake(&mut self)
        ensures { (task : ℕ) → rests self.new task ≡ false }
    {
        self.tasks = [false; 8];
    }
}
