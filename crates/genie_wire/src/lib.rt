//! The header of a record of a device stream, both ways.
#![tactic(auto)]

mod header;

pub use crate::header::{
    BadHeader, Header, header_size, headers_read_back, read_header, write_header,
};

#[cfg(test)]
mod tests;
