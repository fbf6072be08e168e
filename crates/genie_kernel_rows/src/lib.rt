//! Scripts by the kernel: what they are judged to be, the files of their devices, the kernel that they boot, and the kernel
//! and the plain machine side by side over their events.
#![tactic(auto)]

pub mod booting;
#[cfg(test)]
mod classes;
#[cfg(test)]
mod failures;
#[cfg(test)]
mod long;
pub mod plain;
pub mod scenes;
pub mod settling;
pub mod stepping;
pub mod templates;
#[cfg(test)]
mod tests;
pub mod wiring;
#[cfg(test)]
mod worked;
