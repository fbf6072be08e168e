//! Why an event is refused.
ghost use Rattle.std.specs.Prelude.{◌≡◌};
ghost use Rattle.genie_model.specs.Refusing.{refuse};

use crate::spaces::{
    refuse_alloc, refuse_exit, refuse_fork, refuse_map, refuse_protect, refuse_read, refuse_spawn,
    refuse_unmap, refuse_write,
};
use crate::tables::Tables;
use crate::transfers::{
    refuse_cancel, refuse_finish, refuse_input, refuse_output, refuse_recv, refuse_send,
};
use genie_base::{Event, Refusal};

/// Why an event is refused at the state for which the tables stand, or `None` exactly where it is accepted.
pub fn refuse<T: Tables>(tables: &T, event: &Event) -> Option<Refusal>
    requires { T.is_sound tables.now }
    ensures { result ≡ refuse (T.state tables.now) event.now }
{
    match event {
        Event::Spawn { pid } => refuse_spawn(tables, *pid),
        Event::Fork { parent, child } => refuse_fork(tables, *parent, *child),
        Event::Exit { pid } => refuse_exit(tables, *pid),
        Event::Map { pid, page, pages } => refuse_map(tables, *pid, *page, *pages),
        Event::Alloc { pid, pages } => refuse_alloc(tables, *pid, *pages),
        Event::Unmap { pid, page } => refuse_unmap(tables, *pid, *page),
        Event::Protect {
            pid,
            page,
            writable,
        } => refuse_protect(tables, *pid, *page, *writable),
        Event::Read { pid, addr, len } => refuse_read(tables, *pid, *addr, *len),
        Event::Write { pid, addr, bytes } => refuse_write(tables, *pid, *addr, bytes.as_slice()),
        Event::Output {
            pid,
            sem,
            dev,
            addr,
            len,
            ..
        } => refuse_output(tables, *pid, *sem, *dev, *addr, *len),
        Event::Input {
            pid,
            sem,
            dev,
            addr,
            len,
            ..
        } => refuse_input(tables, *pid, *sem, *dev, *addr, *len),
        Event::Send { dev, len } => refuse_send(tables, *dev, *len),
        Event::Recv { dev, len } => refuse_recv(tables, *dev, *len),
        Event::Finish { id } => refuse_finish(tables, *id),
        Event::Cancel { id } => refuse_cancel(tables, *id),
        Event::Pageout { .. } => None,
    }
}
