//! The end of a run.
ghost use Rattle.genie_kernel.specs.Good.{IsGood};

use genie_calls::close::close;
use genie_frame::{Counts, FrameId, Frames, Owner};
use genie_kernel::Kernel;

fn is_free_or_paged(owner: Owner) -> bool {
    match owner {
        Owner::Free | Owner::Page(_) => true,
        Owner::System(_) | Owner::Pool(_) | Owner::Nobody => false,
    }
}

// Whether each frame from this one on carries no loan and no wire, and is free or a page's.
fn is_unlent(frames: &Frames, f: u32) -> bool {
    if f >= frames.len() {
        return true;
    }
    let none = Counts {
        strong: 0,
        weak: 0,
        input: 0,
        wires: 0,
    };
    frames.counts(FrameId(f)) == none
        && is_free_or_paged(frames.owner(FrameId(f)))
        && is_unlent(frames, f + 1)
}

/// Gives every loan back, whatever is pending. Answers how many frames are free then, and none where a frame still carries a
/// loan or a wire, or is neither free nor a page's.
pub fn settle(kernel: &mut Kernel) -> Option<u32>
    requires { IsGood kernel.old }
{
    close(kernel);
    if is_unlent(&kernel.memory.frames, 0) {
        Some(kernel.memory.frames.free())
    } else {
        None
    }
}
