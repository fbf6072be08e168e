//! A type for each kind of number.

/// A process, from 0 to 15.
#[derive(Clone, Copy, Debug, PartialEq, Eq)]
pub struct Pid(pub u32);

/// An address in a process: a number of bytes from the start of its address space.
#[derive(Clone, Copy, Debug, PartialEq, Eq)]
pub struct Addr(pub u32);

/// A page of an address space, from 0 to 1,023.
#[derive(Clone, Copy, Debug, PartialEq, Eq)]
pub struct PageNo(pub u32);

/// A region, or the orphan that is left of it.
#[derive(Clone, Copy, Debug, PartialEq, Eq)]
pub struct RegionId(pub u32);

/// The object that holds a region's pages.
#[derive(Clone, Copy, Debug, PartialEq, Eq)]
pub struct ObjectId(pub u32);

/// A transfer: accepted calls are counted from 1, and no number is used again.
#[derive(Clone, Copy, Debug, PartialEq, Eq)]
pub struct TransferId(pub u32);

/// A device, from 0 to 7.
#[derive(Clone, Copy, Debug, PartialEq, Eq)]
pub struct DevNo(pub u32);

/// A port of a device.
#[derive(Clone, Copy, Debug, PartialEq, Eq)]
pub struct Port(pub u16);
