//! Publishing a count and reading it.
ghost use Rattle.std.specs.Prelude.{◌≡◌, ◌<◌, ◌≤◌, max, All, IfOk, length};
ghost use Rattle.gvt.specs.Counts.{known};
ghost use Rattle.gvt.specs.Seats.{IsSeatOf, knowledge};

use crate::rule::{Load, Newcomer, Raise};
use crate::word::{Published, Seat};
use atomic_table::Table;
use std::alloc::Global;
use terms::NoMemory;

impl Published {
    /// A word that is 0, with so many seats; they know nothing yet.
    ///
    /// # Errors
    ///
    /// `NoMemory` where there is none for the word or the list of seats.
    pub fn new(alloc: Global, seats: u16) -> Result<(Published, Vec<Seat>), NoMemory>
        requires { 0 < seats }
        ensures count { IfOk result (λ both. length both.1.items ≡ seats) }
        ensures seats { IfOk result (λ both. All
            (λ seat. IsSeatOf both.0 seat × (knowledge seat ≡ known 0 0)) both.1.items) }
    {
        let mut places = Vec::with_capacity(alloc, usize::from(seats))?;
        let (table, mut first) = Table::of_words(alloc, &[0], &())?;
        for _ in 1..seats {
            let place = table.shared.split_seat::<Newcomer>(&mut first);
            places.push_reserved(Seat { place });
        }
        places.push_reserved(Seat { place: first });
        Ok((Published { table }, places))
    }

    /// Raises the word to a count, where it is less, in one step that nobody can divide. It waits for nobody and takes no memory.
    pub fn publish(&self, seat: &mut Seat, count: u64)
        requires { IsSeatOf self.now seat.old }
        ensures seat { IsSeatOf self.now seat.new }
        ensures raised { knowledge seat.new
            ≡ known (max (knowledge seat.old).published count) (knowledge seat.old).read }
    {
        self.table
            .shared
            .fetch_max::<Raise>(&mut seat.place, 0, count);
    }

    /// The word at one moment of the call: at least what was published with the seat and what was read with it before. It waits for
    /// nobody and takes no memory.
    pub fn read(&self, seat: &mut Seat) -> u64
        requires { IsSeatOf self.now seat.old }
        ensures seat { IsSeatOf self.now seat.new }
        ensures known { knowledge seat.new ≡ known (knowledge seat.old).published result }
        ensures own { (knowledge seat.old).published ≤ result }
        ensures later { (knowledge seat.old).read ≤ result }
    {
        self.table.shared.load::<Load>(&mut seat.place, 0)
    }
}
