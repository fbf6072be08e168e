//! The kernel's receive step: a device takes bytes of a record from its input, and moves them into the input that the record
//! meets.
#![tactic(auto)]

pub mod course;
pub mod early;
pub mod gather;
pub mod land;
pub mod laws;
pub mod payload;
