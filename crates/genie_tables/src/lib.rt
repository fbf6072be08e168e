//! The tables of the plain machine: processes with their regions, what is left of regions, and pending transfers, each
//! buffer as one list of bytes.
#![tactic(auto)]

pub mod change;
pub mod orphan;
pub mod process;
pub mod region;
pub mod table;
pub mod transfer;
pub mod transfers;

pub use crate::change::{Change, Turn};
pub use crate::orphan::Orphan;
pub use crate::process::Process;
pub use crate::region::{Purpose, Region};
pub use crate::transfer::{Call, Target, Transfer};
