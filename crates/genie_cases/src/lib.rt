//! Worked cases of the memory, as tests.
#![tactic(auto)]

pub mod bench;
#[cfg(test)]
mod ends;
#[cfg(test)]
mod hiding;
#[cfg(test)]
mod kinds;
#[cfg(test)]
mod outputs;
#[cfg(test)]
mod paging;
#[cfg(test)]
mod pools;
