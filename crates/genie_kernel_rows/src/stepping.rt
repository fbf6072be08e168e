//! A kernel and the plain machine, side by side over one script.
ghost use Rattle.std.specs.Prelude.{◌≡◌, ◌^◌, ◌<◌, IsTrue, OnOk};
ghost use Rattle.genie_base.specs.Events.{is_whole};
ghost use Rattle.genie_object.specs.Costs.{AreBelow};
ghost use Rattle.genie_kernel_rows.specs.Runs.{HasRoom, IsReady};

use crate::booting::{boot, judge_boot};
use crate::plain::Plain;
use crate::scenes::{Scene, host_of};
use crate::settling::settle;
use crate::wiring::Trouble;
use genie_base::{Event, Mark, PageBuffer};
use genie_calls::step::step;
use genie_frame::Meters;
use genie_host::{Host, MemoryHost};
use genie_kernel::Kernel;
use genie_script::{BootPart, Judged, LineBuffer, is_device_line, judge_event, put_reply};
use genie_store::Store;
use std::alloc::Global;

/// How a run goes.
#[derive(Clone, Copy, Debug, PartialEq, Eq)]
pub struct Course {
    /// It ends behind so many events of the script.
    pub events: u32,
    /// `pageout 32` is stepped behind each event.
    pub swept: bool,
    /// An event in which something failed is stepped once more.
    pub again: bool,
}

/// What was answered.
#[derive(Drop)]
pub struct Log {
    /// The replies to the boot part and to the script's events.
    pub replies: Vec<u8>,
    /// How many events of the script were stepped.
    pub events: u32,
    /// How many replies show a failure of a device, and of the store, those to `pageout 32` among them.
    pub device_faults: u32,
    pub store_faults: u32,
}

/// What a run came to.
#[derive(Drop)]
pub struct Ending {
    pub log: Log,
    pub host: MemoryHost,
    /// How many frames are free once the kernel is closed; none where a frame still carries a loan or a wire, or is neither
    /// free nor a page's.
    pub free: Option<u32>,
}

impl Log {
    // The reply to a boot part.
    fn new(alloc: Global) -> Result<Log, Trouble> {
        let mut log = Log {
            replies: Vec::new(alloc),
            events: 0,
            device_faults: 0,
            store_faults: 0,
        };
        log.note(b"ok\n")?;
        Ok(log)
    }

    // Counts the failure that a reply shows.
    fn count(&mut self, mark: &Mark) {
        match mark {
            Mark::NoFault => {}
            Mark::Device { .. } => self.device_faults = self.device_faults.saturating_add(1),
            Mark::Store => self.store_faults = self.store_faults.saturating_add(1),
        }
    }

    // Takes a reply's text.
    fn note(&mut self, text: &[u8]) -> Result<(), Trouble> {
        match self.replies.extend_from_slice(text) {
            Ok(()) => Ok(()),
            Err(_) => Err(Trouble::Memory),
        }
    }
}

// The buffers of a run: what a `read` answers, and the texts of the two replies.
#[derive(Drop)]
struct Buffers {
    answer: PageBuffer,
    reply: LineBuffer,
    plain: LineBuffer,
}

// A meter is far from its end.
fn is_low(meter: u64) -> Result<(), Trouble>
    ensures { OnOk result (meter < 2 ^ 62) }
{
    if meter < 1 << 62 {
        Ok(())
    } else {
        Err(Trouble::Limits)
    }
}

fn are_low(meters: &Meters) -> Result<(), Trouble>
    ensures { OnOk result (AreBelow (2 ^ 63) meters.now) }
{
    is_low(meters.read)?;
    is_low(meters.written)?;
    is_low(meters.copied)?;
    is_low(meters.zeroed)?;
    is_low(meters.puts)?;
    is_low(meters.gets)?;
    is_low(meters.taken)
}

// There is room for what an event counts, and a number for a transfer.
fn room_left(kernel: &Kernel) -> Result<(), Trouble>
    ensures { OnOk result (HasRoom kernel.now) }
{
    are_low(&kernel.memory.frames.meters())?;
    is_low(kernel.memory.frames.landed())?;
    if kernel.next < 1_000_000 {
        Ok(())
    } else {
        Err(Trouble::Limits)
    }
}

// Steps the kernel, and the plain machine under the mark that the kernel's reply shows. The replies have to be the same.
fn step_both<H: Host, S: Store>(
    kernel: &mut Kernel,
    host: &mut H,
    store: &mut S,
    plain: &mut Plain,
    event: &Event,
    answer: &mut PageBuffer,
    text: &mut LineBuffer,
    wanted: &mut LineBuffer,
) -> Result<Mark, Trouble>
    requires ready { IsReady kernel.old (H.view host.old) (S.view store.old) }
    requires whole { IsTrue (is_whole event.now) }
    ensures { IsReady kernel.new (H.view host.new) (S.view store.new) }
{
    match room_left(kernel) {
        Ok(()) => {}
        Err(trouble) => return Err(trouble),
    }
    text.clear();
    wanted.clear();
    let reply = step(kernel, host, store, event, answer);
    let mark = Mark::of(&reply);
    put_reply(&reply, text);
    match plain.step(event, &mark, answer) {
        Ok(reply) => put_reply(&reply, wanted),
        Err(trouble) => return Err(trouble),
    }
    if text.as_slice() == wanted.as_slice() {
        Ok(mark)
    } else {
        Err(Trouble::Replies)
    }
}

// Steps an event of the script, and notes the reply.
fn serve<H: Host, S: Store>(
    kernel: &mut Kernel,
    host: &mut H,
    store: &mut S,
    plain: &mut Plain,
    event: &Event,
    buffers: &mut Buffers,
    log: &mut Log,
) -> Result<Mark, Trouble>
    requires ready { IsReady kernel.old (H.view host.old) (S.view store.old) }
    requires whole { IsTrue (is_whole event.now) }
    ensures { IsReady kernel.new (H.view host.new) (S.view store.new) }
{
    match step_both(
        kernel,
        host,
        store,
        plain,
        event,
        &mut buffers.answer,
        &mut buffers.reply,
        &mut buffers.plain,
    ) {
        Ok(mark) => {
            log.count(&mark);
            log.note(buffers.reply.as_slice())?;
            Ok(mark)
        }
        Err(trouble) => Err(trouble),
    }
}

// Steps `pageout 32`.
fn sweep<H: Host, S: Store>(
    kernel: &mut Kernel,
    host: &mut H,
    store: &mut S,
    plain: &mut Plain,
    buffers: &mut Buffers,
    log: &mut Log,
) -> Result<(), Trouble>
    requires ready { IsReady kernel.old (H.view host.old) (S.view store.old) }
    ensures { IsReady kernel.new (H.view host.new) (S.view store.new) }
{
    match step_both(
        kernel,
        host,
        store,
        plain,
        &Event::Pageout { pages: 32 },
        &mut buffers.answer,
        &mut buffers.reply,
        &mut buffers.plain,
    ) {
        Ok(mark) => {
            log.count(&mark);
            Ok(())
        }
        Err(trouble) => Err(trouble),
    }
}

// Steps an event again that failed, where the course asks for that.
fn serve_again<H: Host, S: Store>(
    kernel: &mut Kernel,
    host: &mut H,
    store: &mut S,
    plain: &mut Plain,
    event: &Event,
    course: &Course,
    mark: &Mark,
    buffers: &mut Buffers,
    log: &mut Log,
) -> Result<(), Trouble>
    requires ready { IsReady kernel.old (H.view host.old) (S.view store.old) }
    requires whole { IsTrue (is_whole event.now) }
    ensures { IsReady kernel.new (H.view host.new) (S.view store.new) }
{
    if !course.again || *mark == Mark::NoFault {
        return Ok(());
    }
    match serve(kernel, host, store, plain, event, buffers, log) {
        Ok(_) => Ok(()),
        Err(trouble) => Err(trouble),
    }
}

// Steps an event of the script, and what else the course asks for.
fn take_event<H: Host, S: Store>(
    kernel: &mut Kernel,
    host: &mut H,
    store: &mut S,
    plain: &mut Plain,
    event: &Event,
    course: &Course,
    buffers: &mut Buffers,
    log: &mut Log,
) -> Result<(), Trouble>
    requires ready { IsReady kernel.old (H.view host.old) (S.view store.old) }
    requires whole { IsTrue (is_whole event.now) }
    ensures { IsReady kernel.new (H.view host.new) (S.view store.new) }
{
    log.events = log.events.saturating_add(1);
    let mark = serve(kernel, host, store, plain, event, buffers, log)?;
    serve_again(
        kernel, host, store, plain, event, course, &mark, buffers, log,
    )?;
    if !course.swept {
        return Ok(());
    }
    sweep(kernel, host, store, plain, buffers, log)
}

// Steps the events of a script. Its first line, and lines that no event can be, are passed over.
fn play<H: Host, S: Store>(
    kernel: &mut Kernel,
    host: &mut H,
    store: &mut S,
    plain: &mut Plain,
    script: &str,
    course: &Course,
    log: &mut Log,
) -> Result<(), Trouble>
    requires { IsReady kernel.old (H.view host.old) (S.view store.old) }
    ensures { IsReady kernel.new (H.view host.new) (S.view store.new) }
{
    let mut said = PageBuffer::new();
    let mut buffers = Buffers {
        answer: PageBuffer::new(),
        reply: LineBuffer::new(),
        plain: LineBuffer::new(),
    };
    let mut lines = script.lines();
    let _boot = lines.next();
    'lines: for line in lines {
        if log.events >= course.events {
            return Ok(());
        }
        if is_device_line(line.as_bytes()) {
            continue;
        }
        match judge_event(0, line.as_bytes(), &mut said) {
            Judged::Passed => {}
            Judged::Ends(_) => return Err(Trouble::Script),
            Judged::Taken(event) => take_event(
                kernel,
                host,
                store,
                plain,
                &event,
                course,
                &mut buffers,
                log,
            )?,
        }
    }
    Ok(())
}

// Steps a kernel that was booted, and closes it. Answers what the run came to, and how many frames are free then.
fn run_booted<H: Host, S: Store>(
    alloc: Global,
    kernel: &mut Kernel,
    host: &mut H,
    store: &mut S,
    plain: &mut Plain,
    script: &str,
    course: &Course,
) -> Result<(Log, Option<u32>), Trouble>
    requires { IsReady kernel.old (H.view host.old) (S.view store.old) }
{
    let mut log = Log::new(alloc)?;
    play(kernel, host, store, plain, script, course, &mut log)?;
    Ok((log, settle(kernel)))
}

// Boots a kernel, steps it, and closes it.
fn run_part<H: Host, S: Store>(
    alloc: Global,
    host: &mut H,
    store: &mut S,
    plain: &mut Plain,
    part: &BootPart,
    script: &str,
    course: &Course,
) -> Result<(Log, Option<u32>), Trouble>
    requires closed { (H.view host.old).opened ≡ 0 }
    requires fresh { (S.view store.old).count ≡ 0 }
{
    let mut kernel = boot(alloc, host, store, part)?;
    run_booted(alloc, &mut kernel, host, store, plain, script, course)
}

/// Steps a scene by a kernel over this store and by the plain machine, under the marks that the kernel's replies show. All
/// replies and outputs have to be the same. The kernel is closed then.
pub fn run<S: Store>(
    alloc: Global,
    scene: &Scene,
    store: &mut S,
    course: &Course,
) -> Result<Ending, Trouble>
    requires { (S.view store.old).count ≡ 0 }
{
    let part = judge_boot(alloc, scene.script)?;
    let mut plain = Plain::boot(alloc, &part, scene.inputs)?;
    let mut host = host_of(alloc, scene, &part)?;
    let (log, free) = run_part(
        alloc,
        &mut host,
        store,
        &mut plain,
        &part,
        scene.script,
        course,
    )?;
    if !plain.has_sent_all(&host, &part) {
        return Err(Trouble::Outputs);
    }
    Ok(Ending { log, host, free })
}
