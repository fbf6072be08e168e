//! The end of a datagram in a buffer of a pool: at the input that it meets, or the drop.
ghost use Rattle.std.specs.Prelude.{◌≡◌, Some, IsSome, find};
ghost use Rattle.genie_base.specs.Posted.{first};
ghost use Rattle.genie_demux.specs.Posted.{address, number_of as posted_number};
ghost use Rattle.genie_model.specs.Tables.{entry};
ghost use Rattle.genie_kernel.specs.Calls.{has_number};
ghost use Rattle.genie_kernel.specs.Changes.{changed_by};
ghost use Rattle.genie_kernel.specs.declared.transfer.Transfer.{Transfer as TransferView};
ghost use Rattle.genie_changes.specs.Working.{at_work, worked};
ghost use Rattle.genie_pooling.specs.Buffers.{HasFilling};
ghost use Rattle.genie_pooling.specs.Delivering.{Delivers, IsPending, ready_with};

use crate::buffers::{arrive, release};
use genie_base::{Reply, TransferId};
use genie_kernel::{Change, Kernel, Search, Transfer, Transfers};
use genie_model::Phase;
use genie_receiving::land::note_of;
use genie_wire::Header;

// An input is ready with the bytes that fit it, of `so_far` in a buffer.
fn ready_with(transfer: &Transfer, buffer: u32, so_far: u32, truncated: bool, len: u32) -> Change
    ensures { (t : TransferView) → changed_by result t ≡ at_work (ready_with buffer so_far truncated len transfer.now) t }
{
    Change::Progress {
        phase: Phase::Ready,
        buffer: Some(buffer),
        stored: so_far.min(transfer.len),
        note: note_of(truncated, len, transfer.len),
    }
}

// So it is with input `id`.
fn make_ready(
    transfers: &mut Transfers,
    id: u32,
    buffer: u32,
    so_far: u32,
    truncated: bool,
    len: u32,
)
    requires { IsSome (find (has_number id) transfers.old) }
    ensures { (t : TransferView) → find (has_number id) transfers.old ≡ Some t → transfers.new ≡ worked (has_number id) (ready_with buffer so_far truncated len t) transfers.old }
{
    let change = match transfers.find(Search::Number(id)) {
        Some(transfer) => ready_with(transfer, buffer, so_far, truncated, len),
        None => unreachable!(),
    };
    transfers.change(TransferId(id), change);
}

/// The datagram of a device has ended, `so_far` bytes of which are in the buffer that its pool fills, in a step that moved `n`
/// bytes. The first posted input that it meets is ready, and the buffer is its own until its process is done with it. A
/// datagram that meets none is dropped, and its buffer is free.
pub(crate) fn deliver(
    kernel: &mut Kernel,
    dev: u32,
    header: &Header,
    so_far: u32,
    truncated: bool,
    n: u32,
) -> Reply<'static>
    requires filling { HasFilling (entry kernel.old.pools dev) }
    requires pends { IsPending (posted_number (first address dev header.now.port header.now.flow kernel.old.posted)) kernel.old.transfers }
    ensures { Delivers dev header.now so_far truncated n kernel.old kernel.new result }
{
    let buffer = arrive(&mut kernel.pools, dev);
    match kernel.posted.match_port(dev, header.port, header.flow) {
        Some(id) => {
            make_ready(
                &mut kernel.transfers,
                id,
                buffer,
                so_far,
                truncated,
                header.len,
            );
            Reply::Got { n }
        }
        None => {
            release(&mut kernel.pools, dev, buffer);
            Reply::Dropped {
                port: header.port,
                flow: header.flow,
                len: header.len,
            }
        }
    }
}
