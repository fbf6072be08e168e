//! Plans: the loans of a transfer, and its bytes as devices see them, over the frames that are lent.
#![tactic(auto)]

pub mod buffer;
pub mod give_back;
pub mod landing;
pub mod laws;
pub mod plan;
pub mod source;
pub mod wires;

pub use crate::buffer::lend_fresh;
pub use crate::give_back::{end_input, end_inputs, end_output, end_outputs};
pub use crate::landing::{FrameLanding, Nowhere};
pub use crate::plan::{InPlan, MOST_LOANS, OutPlan, page_count};
pub use crate::source::FrameSource;
pub use crate::wires::{unwire_inputs, unwire_outputs, wire_inputs, wire_outputs};

#[cfg(test)]
mod tests;
