//! How many turns can be given: those below all bases.
use std::alloc::Global;
use terms::NoMemory;

/// A component's base is the bound at which it met the exchange last. So the turns that were below the bound when that one met it which is furthest
/// behind are below all bases, and a chunk can give them. Who wants turns needn't look at the exchange in vain, which costs the number of the
/// components; no promise rests on it.
#[derive(Drop)]
pub struct Ready {
    // For each component how many turns were below the bound when it met the exchange last.
    met: Vec<u64>,
    // The least of these, and how many components have it.
    least: u64,
    last: usize,
}

impl Ready {
    /// No turn is below any base, of so many components.
    pub fn new(alloc: Global, components: u16) -> Result<Ready, NoMemory> {
        let last = usize::from(components);
        let met: Vec<u64> = vec![in alloc; 0; last]?;
        Ok(Ready {
            met,
            least: 0,
            last,
        })
    }

    /// A component meets the exchange while so many turns are below the bound.
    pub fn meet(&mut self, number: u16, count: u64) {
        let at = usize::from(number);
        if at >= self.met.len() {
            return;
        }
        let before = self.met[at];
        if before == count {
            return;
        }
        self.met[at] = count;
        if before == self.least {
            self.last = self.last.saturating_sub(1);
            if self.last == 0 {
                self.look();
            }
        }
    }

    // Looks for the least anew: no component has it any more.
    fn look(&mut self) {
        let mut least = u64::MAX;
        let mut last: usize = 0;
        for count in &self.met {
            if *count < least {
                least = *count;
                last = 0;
            }
            if *count == least {
                last = last.wrapping_add(1);
            }
        }
        self.least = least;
        self.last = last;
    }

    /// How many turns are below all bases.
    pub fn least(&self) -> u64 {
        self.least
    }
}
