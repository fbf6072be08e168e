//! Runs of bytes.
ghost use Rattle.std.specs.Prelude.{◌≡◌, length};
ghost use Rattle.genie_base.specs.Bytes.{overlaid, part as part_of};

/// Stores bytes in the place of others from place `at` on. Those that would pass the end are left out.
pub fn overlay(into: &mut [u8], at: usize, from: &[u8])
    ensures { into.new ≡ overlaid at from.now into.old }
{
    if at >= into.len() {
        return;
    }
    let room = into.len() - at;
    if from.len() <= room {
        into[at..at + from.len()].copy_from_slice(from);
    } else {
        into[at..].copy_from_slice(&from[..room]);
    }
}

/// Lends `n` bytes from place `at` on, as far as they go.
pub fn part(bytes: &[u8], at: usize, n: usize) -> &[u8]
    ensures { result.now ≡ part_of at n bytes.now }
{
    if at >= bytes.len() {
        return &[];
    }
    let left = &bytes[at..];
    if n < left.len() { &left[..n] } else { left }
}
