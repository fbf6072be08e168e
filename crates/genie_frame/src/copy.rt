//! Bytes that are copied from frame to frame.
ghost use Rattle.std.specs.Prelude.{◌≡◌, ◌+◌, ◌<◌, ◌≤◌, [], length, slice_set, slice_index_or};
ghost use Rattle.genie_base.specs.Bytes.{overlaid, part};

use genie_base::FixedBytes;

/// Copies `n` bytes from one frame to another, or within one, where the ranges may overlap.
pub fn copy_run(
    frames: &mut [FixedBytes],
    from: usize,
    from_off: usize,
    to: usize,
    to_off: usize,
    n: usize,
)
    requires from_there { from < length frames.old }
    requires to_there { to < length frames.old }
    requires from_room { from_off + n ≤ length (slice_index_or frames.old from []) }
    requires to_room { to_off + n ≤ length (slice_index_or frames.old to []) }
    ensures { frames.new ≡ slice_set frames.old to (overlaid to_off (part from_off n (slice_index_or frames.old from [])) (slice_index_or frames.old to [])) }
{
    if from == to {
        let bytes = &mut frames[to];
        bytes.move_run(from_off, to_off, n);
    } else if from < to {
        let (low, high) = frames.split_at_mut(to);
        store_run(&low[from], from_off, n, &mut high[0], to_off);
    } else {
        let (low, high) = frames.split_at_mut(from);
        store_run(&high[0], from_off, n, &mut low[to], to_off);
    }
}

// Stores n bytes of another frame.
fn store_run(source: &FixedBytes, from: usize, n: usize, target: &mut FixedBytes, to: usize)
    requires from_room { from + n ≤ length source.now }
    requires to_room { to + n ≤ length target.old }
    ensures { target.new ≡ overlaid to (part from n source.now) target.old }
{
    target.store(to, source.run(from, n));
}
