//! A datagram that is received and sent again, by a kernel over any host and any store.
ghost use Rattle.std.specs.Prelude.{◌≡◌, ◌⊎◌, ◌+◌, ℕ, Err, IsTrue, OnOk, All, length};
ghost use Rattle.genie_base.specs.Causes.{Rose};
ghost use Rattle.genie_base.specs.Configs.{config_of, Fits};
ghost use Rattle.genie_host.specs.Host.{Reading, Writing};
ghost use Rattle.genie_embed.specs.Echo.{IsCounted, echo_config, is_ours};
ghost use Rattle.genie_embed.specs.Machines.{HasRoomFor, IsOver};

use crate::machine::{Machine, Stopped};
use crate::packets::{RECEIVED, SENT};
use genie_base::{Config, DeviceConfig, Direction, Event, Kind, PageBuffer, Reply, Semantics};
use genie_host::Host;
use genie_store::{Store, StoreRefused};
use std::alloc::Global;
use thiserror::Error;

/// The most bytes of the datagram, and of the process's buffer.
const LEN: u32 = 16;

/// Why nothing was sent.
#[derive(Clone, Copy, Debug, PartialEq, Eq, Error)]
pub enum EchoError {
    #[error("no memory")]
    Memory,
    /// A read or a write failed.
    #[error("the host failed")]
    Host,
    #[error("the store failed")]
    Store,
    /// No byte came for port 5, or the host took only a part of the record.
    #[error("nothing was sent")]
    Nothing,
}

/// Pages of 16 bytes, 32 frames, and one early device, whose handles are those of the host.
pub fn config() -> Config
    ensures fits { Fits (config_of result) }
    ensures is { result ≡ echo_config }
{
    let device = DeviceConfig {
        kind: Kind::Early,
        input: Some(RECEIVED),
        output: Some(SENT),
        depth: 1,
        offset: 0,
    };
    Config {
        page: 16,
        frames: 32,
        slots: 64,
        cout: 0,
        rcout: 8,
        devices: [Some(device), None, None, None, None, None, None, None],
    }
}

// An input or an output of process 0 by emulated copy, at port 5.
fn call(direction: Direction, len: u32) -> Event<'static>
    ensures { IsTrue (is_ours result) }
{
    match direction {
        Direction::Inward => Event::Input {
            pid: 0,
            sem: Semantics::EmulatedCopy,
            dev: 0,
            port: 5,
            flow: None,
            addr: Some(0),
            len,
        },
        Direction::Outward => Event::Output {
            pid: 0,
            sem: Semantics::EmulatedCopy,
            dev: 0,
            port: 5,
            flow: None,
            addr: 0,
            len,
        },
    }
}

// Steps an event. Answers how many bytes a transfer moved that ended, and 0 for every other reply.
fn step<H: Host, S: Store>(
    machine: &mut Machine,
    host: &mut H,
    store: &mut S,
    event: &Event<'_>,
) -> Result<u32, EchoError>
    requires over { IsOver machine.old (H.view host.old) (S.view store.old) }
    requires config { machine.old.config ≡ echo_config }
    requires ours { IsTrue (is_ours event.now) }
    requires room { HasRoomFor 1 machine.old }
    ensures over { IsOver machine.new (H.view host.new) (S.view store.new) }
    ensures config { machine.new.config ≡ echo_config }
    ensures room { (n : ℕ) → HasRoomFor (n + 1) machine.old → HasRoomFor n machine.new }
    ensures counted { IsCounted (H.view host.old) (H.view host.new) (S.view store.old) (S.view store.new) result }
{
    let mut room = PageBuffer::new();
    match machine.step(host, store, event, &mut room) {
        Ok(Reply::Input { n, .. }) => Ok(n),
        Ok(Reply::Output { n }) => Ok(n),
        Ok(Reply::Fault { .. }) => Err(EchoError::Host),
        Ok(Reply::StoreFault) => Err(EchoError::Store),
        Ok(_) => Ok(0),
        Err(Stopped) => unreachable!(),
    }
}

// Steps events, and answers for the last one.
fn step_all<H: Host, S: Store>(
    machine: &mut Machine,
    host: &mut H,
    store: &mut S,
    events: &[Event<'_>],
    last: u32,
) -> Result<u32, EchoError>
    requires over { IsOver machine.old (H.view host.old) (S.view store.old) }
    requires config { machine.old.config ≡ echo_config }
    requires ours { All (λ e. IsTrue (is_ours e)) events.now }
    requires room { HasRoomFor (length events.now) machine.old }
    ensures over { IsOver machine.new (H.view host.new) (S.view store.new) }
    ensures config { machine.new.config ≡ echo_config }
    ensures room { OnOk result ((n : ℕ) → HasRoomFor (n + length events.now) machine.old → HasRoomFor n machine.new) }
    ensures counted { IsCounted (H.view host.old) (H.view host.new) (S.view store.old) (S.view store.new) result }
{
    match events.split_first() {
        None => Ok(last),
        Some((event, rest)) => {
            let n = step(machine, host, store, event)?;
            step_all(machine, host, store, rest, n)
        }
    }
}

// Steps a machine so that it receives a datagram and sends it again. Answers how many bytes of payload were sent.
fn serve<H: Host, S: Store>(
    machine: &mut Machine,
    host: &mut H,
    store: &mut S,
) -> Result<u32, EchoError>
    requires over { IsOver machine.old (H.view host.old) (S.view store.old) }
    requires config { machine.old.config ≡ echo_config }
    requires room { HasRoomFor 8 machine.old }
    ensures counted { IsCounted (H.view host.old) (H.view host.new) (S.view store.old) (S.view store.new) result }
{
    let receiving = [
        Event::Spawn { pid: 0 },
        Event::Map {
            pid: 0,
            page: 0,
            pages: 1,
        },
        call(Direction::Inward, LEN),
        Event::Recv { dev: 0, len: 65536 },
        Event::Finish { id: 1 },
    ];
    let received = step_all(machine, host, store, &receiving, 0)?;
    if received == 0 {
        return Err(EchoError::Nothing);
    }
    let sending = [
        call(Direction::Outward, received),
        Event::Send { dev: 0, len: 65536 },
        Event::Finish { id: 2 },
    ];
    step_all(machine, host, store, &sending, 0)
}

/// Receives the first datagram for port 5, at most its first 16 bytes, and sends it again. Answers how many bytes of payload
/// were sent. `Host` and `Store` come only where a count of faults rose.
pub fn echo<H: Host, S: Store>(alloc: Global, host: &mut H, store: &mut S) -> Result<u32, EchoError>
    requires received { ((H.view host.old).handle 1).mode ≡ Reading }
    requires sent { ((H.view host.old).handle 2).mode ≡ Writing }
    requires empty { (S.view store.old).count ≡ 0 }
    ensures fault { result ≡ Err EchoError.Host →
        Rose ((H.view host.old).handle 1).faults ((H.view host.new).handle 1).faults
        ⊎ Rose ((H.view host.old).handle 2).faults ((H.view host.new).handle 2).faults }
    ensures store { result ≡ Err EchoError.Store → Rose (S.view store.old).faults (S.view store.new).faults }
{
    let mut machine = match Machine::boot(alloc, &config(), store) {
        Ok(machine) => machine,
        Err(StoreRefused::Memory) => return Err(EchoError::Memory),
        Err(StoreRefused::Failed) => return Err(EchoError::Store),
    };
    let sent = serve(&mut machine, host, store)?;
    machine.close();
    if sent == 0 {
        return Err(EchoError::Nothing);
    }
    Ok(sent)
}
