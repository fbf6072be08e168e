//! What the events join: a transfer more, one less, one changed; a region more, one less, one changed; orphans. Each on the
//! state that a kernel stands for, and on the parts of what is true of it. A region that goes is removed here, too.
#![tactic(auto)]

pub mod beginning;
pub mod ends;
pub mod given;
pub mod giving;
pub mod gone;
pub mod guarding;
pub mod hiding;
pub mod making;
pub mod moving_out;
pub mod parts;
pub mod regions;
pub mod released;
pub mod removal;
pub mod settled;
pub mod states;
pub mod turned;
pub mod unnamed;
pub mod work;
