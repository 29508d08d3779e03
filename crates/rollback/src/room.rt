//! Whether a window lets a component go on.
ghost use Rattle.std.specs.Prelude.{◌≡◌};
ghost use Rattle.rollback.specs.Room.{has_room};
ghost use Rattle.rollback.specs.Stepped.{next_entry};

use crate::component::Component;
use task_seed::Turns;

impl<T: Turns> Component<T> {
    /// Whether a window of so many own turns has room for the next entry: an own turn has room where fewer are done since the base, and an
    /// input always has. Nothing is counted, so that the time doesn't grow with what is done.
    pub fn has_room(&self, window: u32) -> bool
        ensures { result ≡ has_room window self.now.history.done (next_entry T.turn_of self.now) }
    {
        if self.is_input_next() {
            return true;
        }
        match self.coming {
            None => true,
            Some(key) => key.number - self.first < u64::from(window),
        }
    }
}
