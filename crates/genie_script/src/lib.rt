//! The texts of a script and of its replies, both ways.
#![tactic(auto)]

pub mod boot_part;
mod fields;
mod hex;
pub mod judge;
mod keyword;
pub mod laws;
pub mod line;
pub mod line_buffer;
mod line_text;
pub mod name;
mod numbers;
mod parse;
mod reply_text;
mod word_text;
mod words;

pub use crate::boot_part::BootPart;
pub use crate::judge::{
    BootLine, Ending, Judged, LONGEST_LINE, MOST_LINES, is_device_line, judge_device, judge_event,
    judge_first,
};
pub use crate::laws::lines_have_one_spelling;
pub use crate::line::{BadLine, DeviceLine, Line};
pub use crate::line_buffer::LineBuffer;
pub use crate::line_text::put_line;
pub use crate::name::Name;
pub use crate::parse::parse_line;
pub use crate::reply_text::put_reply;

#[cfg(test)]
mod tests;
