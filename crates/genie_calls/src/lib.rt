//! The kernel's calls.
#![tactic(auto)]

mod access;
pub mod close;
mod devices;
mod endings;
mod kinds;
mod late;
mod laws;
mod spaces;
pub mod step;
#[cfg(test)]
mod tests;
mod transfers;
