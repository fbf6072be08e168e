//! One step of the plain machine.
ghost use Rattle.std.specs.Prelude.{◌≡◌, ◌*◌, ◌<◌, ◌≤◌, ◌^◌, None, true, IfOk, OnOk, IsSome, IsTrue, length};
ghost use Rattle.genie_base.specs.declared.reply.Mark.TheVariants as mark;
ghost use Rattle.genie_model.specs.Step.{HasNumber};
ghost use Rattle.genie_model.specs.Inputs.{input};
ghost use Rattle.genie_model.specs.Outputs.{output};
ghost use Rattle.genie_model.specs.Refusing.{refuse, must_make};
ghost use Rattle.genie_model.specs.Regions.{reach_of, regions_at};
ghost use Rattle.genie_model.specs.Space.{bytes_reached};
ghost use Rattle.genie_model.specs.Step.{step, marked, perform, accept, failed, may_fail, with_budget, uses_store};
ghost use Rattle.genie_tables.specs.Targets.{address_of};

use crate::machine::Machine;
use genie_base::{Class, Event, Mark, NoMemory, PageBuffer, Reply};
use genie_tables::Target;

// Whether the store may fail in an event.
fn uses_store(event: &Event) -> bool
    ensures { result ≡ uses_store event.now }
{
    matches!(
        event,
        Event::Read { .. }
            | Event::Write { .. }
            | Event::Fork { .. }
            | Event::Output { .. }
            | Event::Input { .. }
            | Event::Finish { .. }
            | Event::Pageout { .. }
    )
}

impl Machine {
    // The bytes that a read answers, in the buffer.
    fn read<'a>(&self, pid: u32, addr: u32, len: u32, into: &'a mut PageBuffer) -> Reply<'a>
        requires { len ≤ self.now.config.page }
        ensures { result ≡ Reply.Bytes (bytes_reached self.now (reach_of self.now pid addr len) addr len) }
    {
        let _page = self.page.get();
        into.clear();
        into.push_slice(self.bytes(pid, addr, len));
        Reply::Bytes(into.lend())
    }

    // An output, whose number is answered.
    fn perform_output(
        &mut self,
        pid: u32,
        class: Class,
        target: Target,
        addr: u32,
        len: u32,
    ) -> Result<Reply<'static>, NoMemory>
        requires few { length self.old.transfers < 64 }
        requires numbered { self.old.next < 2 ^ 32 }
        requires reached { IsSome (reach_of self.old pid addr len) }
        ensures { IfOk result (λ reply. output self.old pid class (address_of target) addr len ≡ (self.new, reply)) }
    {
        let id = self.next as u32;
        self.output(pid, class, target, addr, len)?;
        Ok(Reply::Id { id })
    }

    // An input, whose number is answered.
    fn perform_input(
        &mut self,
        pid: u32,
        class: Class,
        target: Target,
        addr: Option<u32>,
        len: u32,
    ) -> Result<Reply<'static>, NoMemory>
        requires few { length self.old.transfers < 64 }
        requires numbered { self.old.next < 2 ^ 32 }
        requires short { len ≤ 64 * self.old.config.page }
        requires room { IsTrue (must_make self.old pid class len) → length (regions_at self.old pid) < 32 }
        ensures { IfOk result (λ reply. input self.old pid class (address_of target) addr len ≡ (self.new, reply)) }
    {
        let id = self.next as u32;
        self.input(pid, class, target, addr, len)?;
        Ok(Reply::Id { id })
    }

    // What an accepted event does, where nothing fails.
    fn perform<'a>(
        &mut self,
        event: &Event,
        into: &'a mut PageBuffer,
    ) -> Result<Reply<'a>, NoMemory>
        requires accepted { refuse self.old event.now ≡ None }
        requires numbered { HasNumber self.old }
        ensures { IfOk result (λ reply. perform self.old event.now ≡ (self.new, reply)) }
    {
        match event {
            Event::Spawn { pid } => self.spawn(*pid),
            Event::Map { pid, page, pages } => self.map(*pid, *page, *pages)?,
            Event::Fork { parent, child } => self.fork(*parent, *child)?,
            Event::Exit { pid } => self.exit(*pid)?,
            Event::Alloc { pid, pages } => return self.alloc(*pid, *pages),
            Event::Unmap { pid, page } => self.unmap(*pid, *page)?,
            Event::Protect {
                pid,
                page,
                writable,
            } => self.protect(*pid, *page, *writable),
            Event::Read { pid, addr, len } => {
                return Ok(self.read(*pid, *addr, *len, into));
            }
            Event::Write { pid, addr, bytes } => self.write(*pid, *addr, bytes.as_slice()),
            Event::Output {
                pid,
                sem,
                dev,
                port,
                flow,
                addr,
                len,
            } => {
                let target = Target::new(*dev, *port, *flow);
                return self.perform_output(*pid, sem.class(), target, *addr, *len);
            }
            Event::Input {
                pid,
                sem,
                dev,
                port,
                flow,
                addr,
                len,
            } => {
                let target = Target::new(*dev, *port, *flow);
                return self.perform_input(*pid, sem.class(), target, *addr, *len);
            }
            Event::Send { dev, len } => return self.send(*dev, *len),
            Event::Recv { dev, len } => return self.recv(*dev, *len),
            Event::Finish { id } => return Ok(self.finish(*id)),
            Event::Cancel { id } => self.cancel(*id)?,
            Event::Pageout { .. } => {}
        }
        Ok(Reply::Okay)
    }
}

impl Machine {
    // An accepted event where nothing fails, after which orphans are cut to what is covered.
    fn accept<'a>(&mut self, event: &Event, into: &'a mut PageBuffer) -> Result<Reply<'a>, NoMemory>
        requires accepted { refuse self.old event.now ≡ None }
        requires numbered { HasNumber self.old }
        ensures { IfOk result (λ reply. accept self.old event.now ≡ (self.new, reply)) }
    {
        let reply = self.perform(event, into)?;
        self.tidy();
        Ok(reply)
    }

    // Whether the host of a device may fail after `k` bytes of a step.
    fn may_fail(&self, event: &Event, k: u32) -> Result<bool, NoMemory>
        ensures { IfOk result (λ b. b ≡ may_fail self.now event.now k) }
    {
        match event {
            Event::Send { dev, len } => Ok(k < *len && self.may_fail_sending(*dev, k)),
            Event::Recv { dev, len } if k < *len => self.may_fail_receiving(*dev, k),
            _ => Ok(false),
        }
    }

    // A send or receive step with a smaller budget.
    fn step_less(&mut self, event: &Event, k: u32) -> Result<(), NoMemory>
        requires { may_fail self.old event.now k ≡ true }
        ensures { OnOk result (self.new ≡ (accept self.old (with_budget event.now k)).0) }
    {
        match event {
            Event::Send { dev, .. } => self.send(*dev, k)?,
            Event::Recv { dev, .. } => self.recv(*dev, k)?,
            _ => unreachable!(),
        };
        self.tidy();
        Ok(())
    }

    // A step whose host failed after `k` bytes.
    fn fail(&mut self, event: &Event, k: u32) -> Result<Reply<'static>, NoMemory>
        requires { may_fail self.old event.now k ≡ true }
        ensures { IfOk result (λ reply. failed self.old event.now k ≡ (self.new, reply)) }
    {
        if k == 0 {
            return Ok(Reply::Fault { n: k });
        }
        self.step_less(event, k)?;
        Ok(Reply::Fault { n: k })
    }

    // An accepted event under a mark of a device's host. One that doesn't fit counts as none.
    fn marked_device<'a>(
        &mut self,
        event: &Event,
        k: u32,
        into: &'a mut PageBuffer,
    ) -> Result<Reply<'a>, NoMemory>
        requires accepted { refuse self.old event.now ≡ None }
        requires numbered { HasNumber self.old }
        ensures { IfOk result (λ reply. marked self.old event.now (mark.Device k) ≡ (self.new, reply)) }
    {
        if self.may_fail(event, k)? {
            self.fail(event, k)
        } else {
            self.accept(event, into)
        }
    }

    // An accepted event under a mark. One that doesn't fit counts as none.
    fn marked<'a>(
        &mut self,
        event: &Event,
        mark: &Mark,
        into: &'a mut PageBuffer,
    ) -> Result<Reply<'a>, NoMemory>
        requires accepted { refuse self.old event.now ≡ None }
        requires numbered { HasNumber self.old }
        ensures { IfOk result (λ reply. marked self.old event.now mark.now ≡ (self.new, reply)) }
    {
        match mark {
            Mark::Device { n } => self.marked_device(event, *n, into),
            Mark::Store if uses_store(event) => Ok(Reply::StoreFault),
            _ => self.accept(event, into),
        }
    }

    // One step.
    pub(crate) fn step<'a>(
        &mut self,
        event: &Event,
        mark: &Mark,
        into: &'a mut PageBuffer,
    ) -> Result<Reply<'a>, NoMemory>
        requires numbered { HasNumber self.old }
        ensures { IfOk result (λ reply. step self.old event.now mark.now ≡ (self.new, reply)) }
    {
        match genie_refusal::refuse(self, event) {
            Some(refusal) => Ok(Reply::Err(refusal)),
            None => self.marked(event, mark, into),
        }
    }
}
