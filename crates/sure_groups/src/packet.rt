//! What goes from one group to another.
use crate::input::Input;
use event_keys::Key;
use terms::NoMemory;

/// All that comes of the turns of the group `from`, from the key `since` on up to the key `until`, to the components of the group `to`. A key that isn't
/// there is the end.
#[derive(Drop)]
pub struct Packet {
    pub from: u16,
    pub to: u16,
    pub since: Option<Key>,
    pub until: Option<Key>,
    pub inputs: Vec<Input>,
}

/// Why a group doesn't hear of a packet.
#[derive(Clone, Copy, PartialEq, Eq)]
pub enum Unheard {
    /// It is for another group, or doesn't begin where what was heard before ends, or ends before it begins.
    OutOfPlace,
    /// Memory was refused; then the group is spent.
    NoMemory,
}

impl From<NoMemory> for Unheard {
    fn from(_refused: NoMemory) -> Unheard {
        Unheard::NoMemory
    }
}
