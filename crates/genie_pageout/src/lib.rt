//! Pages go to the store until frames are free.
#![tactic(auto)]

pub mod clock;
mod evict;
pub mod puts;
pub mod room;

pub use crate::clock::Clock;
pub use crate::puts::pageout;
pub use crate::room::make_room;
