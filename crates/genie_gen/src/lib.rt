//! A made run: its script and its devices' inputs, produced as they are read, and a summary of its replies.
#![tactic(auto)]

mod draws;
pub mod host;
pub mod laws;
mod opened;
mod reader;
mod rounds;
mod source;
pub mod summary;
mod tally;
#[cfg(test)]
mod tests;
mod written;

pub use crate::draws::Round;
pub use crate::host::GenHost;
pub use crate::laws::made_scripts_are_whole;
pub use crate::opened::Opened;
pub use crate::reader::Reader;
pub use crate::source::Source;
pub use crate::summary::Summary;
pub use crate::written::Written;
