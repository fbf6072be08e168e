//! A page that is sent without a copy.
ghost use Rattle.std.specs.Prelude.{◌≡◌, ◌<◌, ◌≤◌, ◌-◌, ◌^◌, ◌||◌, not, length, IsTrue};
ghost use Rattle.genie_base.specs.Bytes.{part};
ghost use Rattle.genie_frame.specs.FrameTable.{bytes_at, counts_at, is_held, is_owned, is_system, owner_at};

use genie_frame::{FrameId, Frames};

/// Lends a frame to a device, which takes the first bytes of its page through the loan, and ends the loan. No byte is
/// copied by the system: what a device moves isn't metered.
pub fn send_page(frames: &mut Frames, f: FrameId, count: u32, device: &mut [u8])
    requires there { f.0 < length frames.old.owners }
    requires owned { IsTrue (is_owned (owner_at frames.old f.0)) }
    requires unheld { IsTrue (is_system (owner_at frames.old f.0) || not (is_held (counts_at frames.old f.0))) }
    requires room { (counts_at frames.old f.0).strong < 2 ^ 32 - 1 }
    requires range { count ≤ frames.old.page }
    requires device { length device.old ≡ count }
    ensures bytes { device.new ≡ part 0 count (bytes_at frames.old f.0) }
    ensures owner { owner_at frames.new f.0 ≡ owner_at frames.old f.0 }
    ensures loans { counts_at frames.new f.0 ≡ counts_at frames.old f.0 }
    ensures pages { frames.new.bytes ≡ frames.old.bytes }
    ensures meters { frames.new.meters ≡ frames.old.meters }
{
    frames.len();
    let loan = frames.lend_strong(f);
    device.copy_from_slice(frames.dma_out(&loan, 0, count));
    frames.back_out(loan);
}
