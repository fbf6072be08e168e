//! The lines of a script.

use crate::name::Name;
use genie_base::{Event, Kind};
use thiserror::Error;

/// A device of the boot part. The files are those that its input comes from and its output goes to.
#[derive(Drop)]
pub struct DeviceLine {
    pub number: u32,
    pub kind: Kind,
    pub input: Option<Name>,
    pub output: Option<Name>,
    /// How many datagrams may wait in it.
    pub depth: u32,
    /// Where a pooled device's buffers begin in their first page, in bytes.
    pub offset: u32,
}

/// One line of a script.
#[derive(Drop)]
pub enum Line<'a> {
    /// No bytes, or a comment.
    Blank,
    Boot {
        page: u32,
        frames: u32,
        slots: u32,
        cout: u32,
        rcout: u32,
    },
    Device(DeviceLine),
    Event(Event<'a>),
}

/// A text that isn't a script line.
#[derive(Clone, Copy, Debug, PartialEq, Eq, Error)]
#[error("not a script line")]
pub struct BadLine;
