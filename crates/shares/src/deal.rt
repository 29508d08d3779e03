//! Turns that are dealt to groups as they are drawn.

use crate::share::Share;
use lone_group::Drawn;

/// Turns that were drawn, in order, and of each group its share of them.
#[derive(Drop)]
pub struct Deal {
    pub drawn: Drawn,
    pub shares: Vec<Share>,
}
