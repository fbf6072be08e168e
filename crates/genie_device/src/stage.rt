//! The payload of a record, staged in a device before it is sent.
ghost use Rattle.std.specs.Prelude.{◌≡◌, ◌+◌, ◌^◌, ◌<◌, ◌≤◌, ◌++◌, ⊤, length, vec_capacity};
ghost use Rattle.genie_base.specs.Bytes.{part};

use crate::outgoing::Outgoing;

/// Stages the next `budget` bytes of a payload behind those that are staged.
pub(crate) fn stage<O: Outgoing>(staged: &mut Vec<u8>, from: &O, budget: u32)
    requires ready { O.is_ready from.now }
    requires left { length staged.old.items + budget ≤ length (O.payload from.now) }
    requires place { length staged.old.items + budget < 2 ^ 32 }
    requires room { length staged.old.items + budget ≤ vec_capacity staged.old }
    ensures bytes { staged.new.items ≡ staged.old.items ++ part (length staged.old.items) budget (O.payload from.now) }
    ensures room { vec_capacity staged.old ≤ vec_capacity staged.new }
{
    let mut moved = 0u32;
    'pieces: while moved < budget {
        let piece = from.piece(staged.len() as u32);
        let count = piece.len().min((budget - moved) as usize);
        append(staged, &piece[..count]);
        moved += count as u32;
    }
}

fn append(staged: &mut Vec<u8>, bytes: &[u8])
    requires { length staged.old.items + length bytes.now ≤ vec_capacity staged.old }
    ensures bytes { staged.new.items ≡ staged.old.items ++ bytes.now }
    ensures room { vec_capacity staged.old ≤ vec_capacity staged.new }
{
    match staged.extend_from_slice(bytes) {
        Ok(()) => {}
        Err(_) => unreachable!(),
    }
}

/// A payload that is staged, lent as it stands.
#[derive(Drop)]
pub struct Staged<'a> {
    pub bytes: &'a [u8],
}

impl Outgoing for Staged<'_> {
    ghost payload = { λ s. s.bytes.now };

    ghost is_ready = { λ _. ⊤ };

    fn piece(&self, at: u32) -> &[u8] {
        if (at as usize) < self.bytes.len() {
            &self.bytes[at as usize..]
        } else {
            &[]
        }
    }
}
