//! A range of bytes over frames that are lent for input.
ghost use Rattle.std.specs.Prelude.{◌≡◌, ℕ, ◌+◌, ◌-◌, ◌^◌, ◌<◌, ◌≤◌, List, length, take, drop};
ghost use Rattle.genie_base.specs.Bytes.{overlaid};
ghost use Rattle.genie_plan.specs.Plans.{input_frames, range_bytes, CanLand, OnlyRange};

use genie_device::Landing;
use genie_frame::{Frames, InLoan};

// Stores a front of the bytes in the range, as far as the end of a page.
fn land_piece(
    frames: &mut Frames,
    loans: &[InLoan],
    first: u32,
    len: u32,
    at: u32,
    bytes: &[u8],
) -> usize
    requires ready { CanLand frames.old (input_frames loans.now) first len }
    requires inside { at < len }
    requires some { 0 < length bytes.now }
    requires room { frames.old.landed + length bytes.now < 2 ^ 64 }
    ensures some { 0 < result }
    ensures within { result ≤ length bytes.now }
    ensures inside { at + result ≤ len }
    ensures ready { CanLand frames.new (input_frames loans.now) first len }
    ensures content { range_bytes frames.new (input_frames loans.now) first len ≡ overlaid at (take result bytes.now) (range_bytes frames.old (input_frames loans.now) first len) }
    ensures landed { frames.new.landed ≡ frames.old.landed + result }
    ensures only { OnlyRange (input_frames loans.now) first len frames.old frames.new }
{
    let page = frames.page();
    let place = first + at;
    let index = (place / page) as usize;
    let off = place % page;
    let room = (page - off).min(len - at) as usize;
    let count = room.min(bytes.len());
    frames.dma_in(&loans[index], off, &bytes[..count]);
    count
}

// Stores bytes in the range from a place on. Those past its end are thrown away.
fn land_range(frames: &mut Frames, loans: &[InLoan], first: u32, len: u32, at: u32, bytes: &[u8])
    requires ready { CanLand frames.old (input_frames loans.now) first len }
    requires room { frames.old.landed + length bytes.now < 2 ^ 64 }
    ensures ready { CanLand frames.new (input_frames loans.now) first len }
    ensures content { range_bytes frames.new (input_frames loans.now) first len ≡ overlaid at bytes.now (range_bytes frames.old (input_frames loans.now) first len) }
    ensures later { frames.old.landed ≤ frames.new.landed }
    ensures most { frames.new.landed ≤ frames.old.landed + length bytes.now }
    ensures only { OnlyRange (input_frames loans.now) first len frames.old frames.new }
{
    let mut done = 0usize;
    'pieces: while done < bytes.len() && at as usize + done < len as usize {
        done += land_piece(frames, loans, first, len, at + done as u32, &bytes[done..]);
    }
}

/// The `len` bytes from place `first` of the first frame on, over frames that are lent for input.
#[derive(Drop)]
pub struct FrameLanding<'a> {
    pub frames: &'a mut Frames,
    pub loans: &'a [InLoan],
    pub first: u32,
    pub len: u32,
}

impl<'a> Landing for FrameLanding<'a> {
    ghost use Rattle.genie_plan.specs.Plans.{input_frames, range_bytes, CanLand};
    ghost use Rattle.genie_plan.specs.LandingKept.{LandingKept};
    ghost use Rattle.genie_plan.specs.Laws.{landing_same, landing_more};

    ghost content = { λ a. range_bytes a.frames.now (input_frames a.loans.now) a.first a.len };

    ghost count = { λ a. a.frames.now.landed };

    ghost is_ready = { λ a. CanLand a.frames.now (input_frames a.loans.now) a.first a.len };

    ghost kept = { LandingKept };

    ghost reflexive = { landing_same };

    ghost transitive = { landing_more };

    fn land(&mut self, at: u32, bytes: &[u8]) {
        land_range(self.frames, self.loans, self.first, self.len, at, bytes);
    }
}

/// Nowhere: what lands there is thrown away.
#[derive(Clone, Copy, Debug)]
pub struct Nowhere;

impl Landing for Nowhere {
    ghost use Rattle.std.specs.Prelude.{[]};

    ghost content = { λ _. [] };

    ghost count = { λ _. 0 };

    ghost is_ready = { λ _. Unit {0} };

    ghost kept = { λ _ _. Unit {0} };

    ghost reflexive = { λ _. tt };

    ghost transitive = { λ _ _ _ _ _. tt };

    fn land(&mut self, _at: u32, _bytes: &[u8]) {}
}
