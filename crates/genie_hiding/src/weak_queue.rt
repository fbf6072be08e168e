//! The weakly moved-out regions of one process.
ghost use Rattle.std.specs.Prelude.{◌≡◌, ◌<◌, [], ◌∷◌, ◌++◌, IsTrue, false, length, position, slice_get};
ghost use Rattle.std.specs.Option.{option_map};
ghost use Rattle.genie_hiding.specs.Queues.{IsWeakQueue, is_in, is_number, without};

use arrayvec::ArrayVec;
use genie_base::RegionId;
use std::marker::Model;

/// The numbers of at most 32 moved-out regions, the oldest first, each once. Contracts see their list.
#[derive(Drop)]
pub struct WeakQueue {
    ids: ArrayVec<u32, 32>,
}

impl Model for WeakQueue {
    ghost use Rattle.std.specs.Prelude.{List, ℕ};
    ghost use Rattle.genie_hiding.specs.Queues.{IsWeakQueue};

    ghost Value = { List ℕ };

    ghost view = { λ q. q.ids.items };

    ghost invariant = { λ q. IsWeakQueue q.ids.items };
}

impl WeakQueue {
    /// No region.
    pub fn new() -> WeakQueue
        ensures { result ≡ [] }
    {
        WeakQueue {
            ids: ArrayVec::new(),
        }
    }

    /// The region at place `i`, counted from the oldest, or `None` exactly where there are no more than `i` regions.
    pub fn at(&self, i: u32) -> Option<RegionId>
        ensures region { option_map (λ (id : RegionId). id.0) result ≡ slice_get self.now i }
        ensures queue { IsWeakQueue self.now }
    {
        let i = i as usize;
        if i < self.ids.len() {
            Some(RegionId(self.ids.as_slice()[i]))
        } else {
            None
        }
    }

    /// Puts a region at the end.
    pub fn push(&mut self, id: RegionId)
        requires room { length self.old < 32 }
        requires new { is_in id.0 self.old ≡ false }
        ensures pushed { self.new ≡ self.old ++ id.0 ∷ [] }
        ensures queue { IsWeakQueue self.new }
    {
        self.ids.push(id.0);
    }

    /// Takes a region out. The others stay in order.
    pub fn remove(&mut self, id: RegionId)
        requires { IsTrue (is_in id.0 self.old) }
        ensures removed { self.new ≡ without id.0 self.old }
        ensures queue { IsWeakQueue self.new }
    {
        let at = place_of(self.ids.as_slice(), id.0).unwrap();
        self.ids.remove(at);
    }
}

/// Where this number is.
fn place_of(ids: &[u32], id: u32) -> Option<usize>
    ensures { result ≡ position (is_number id) ids.now }
{
    ids.iter().position(|n| *n == id)
}

#[cfg(test)]
mod tests {
    use super::*;

    #[test]
    fn oldest_first(rt: HostRuntime) {
        let mut queue = WeakQueue::new();
        assert_eq!(rt; queue.at(0), None);
        queue.push(RegionId(7));
        queue.push(RegionId(3));
        queue.push(RegionId(5));
        queue.remove(RegionId(3));
        queue.push(RegionId(3));
        queue.remove(RegionId(7));
        let table = [(0, Some(5)), (1, Some(3)), (2, None), (u32::MAX, None)];
        for (i, want) in table {
            assert_eq!(rt; queue.at(i).map(|id| id.0), want, "at {i}");
        }
    }
    /// Pushes 32 regions, numbered from 0.
    fn push_all(queue: &mut WeakQueue)
        requires { queue.old ≡ [] }
    {
        for id in 0..32 {
            queue.push(RegionId(id));
        }
    }

    #[test]
    fn the_most_regions(rt: HostRuntime) {
        let mut queue = WeakQueue::new();
        push_all(&mut queue);
        for (i, want) in [(0, Some(0)), (15, Some(15)), (31, Some(31)), (32, None)] {
            assert_eq!(rt; queue.at(i).map(|id| id.0), want, "at {i}");
        }
    }
}
