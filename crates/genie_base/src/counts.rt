//! Counts of pages.
ghost use Rattle.std.specs.Prelude.{◌≡◌, ◌≤◌};
ghost use Rattle.genie_base.specs.Counts.{span as span_of, cost as cost_of};
ghost use Rattle.genie_base.specs.Transfers.{class_of};

use crate::page_size::PageSize;
use crate::semantics::{Class, Direction, Semantics};

/// How many pages the `len` bytes from address `addr` on touch.
pub fn span(addr: u32, len: u32, page: PageSize) -> u32
    ensures { result ≡ span_of page addr len }
{
    if len == 0 {
        return 0;
    }
    let page = u64::from(page.get());
    let first = u64::from(addr) / page;
    let last = (u64::from(addr) + u64::from(len) - 1) / page;
    (last - first + 1) as u32
}

/// How many frames a transfer that touches `span` pages may need at once.
pub fn cost(sem: Semantics, dir: Direction, span: u32) -> u32
    requires { span ≤ 65 }
    ensures { result ≡ cost_of (class_of sem) dir span }
{
    match (sem.class(), dir) {
        (Class::Copy, Direction::Inward) => 2 * span,
        _ => span,
    }
}
