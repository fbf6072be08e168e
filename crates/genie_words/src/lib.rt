//! The words of the program.
#![tactic(auto)]

mod command;
pub mod form;
mod found;
mod numbers;
#[cfg(test)]
mod tests;

pub use crate::form::{Form, WordsError, form_of};
