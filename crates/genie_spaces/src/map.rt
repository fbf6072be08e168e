//! New regions.
ghost use Rattle.std.specs.Prelude.{◌≡◌, None};
ghost use Rattle.genie_base.specs.declared.event.Event.TheVariants as event;
ghost use Rattle.genie_model.specs.Refusing.{refuse};
ghost use Rattle.genie_kernel.specs.Good.{IsGood};
ghost use Rattle.genie_kernel.specs.View.{outline};
ghost use Rattle.genie_spaces.specs.Serving.{IsServed};

use crate::laws::region_laws;
use crate::number::fresh_number;
use crate::room::{add_region, make_room};
use genie_base::{Area, RegionId, Reply};
use genie_kernel::Kernel;
use genie_room::laws::objects_suffice;

/// Makes a region of zeros in the application area, from page `page` on. It has the least number that no region and no
/// orphan has. Where its pages are not free, or there is no room, the event is refused.
pub fn map(kernel: &mut Kernel, pid: u32, page: u32, pages: u32) -> Reply<'static>
    requires good { IsGood kernel.old }
    requires accepted { refuse (outline kernel.old) (event.Map pid page pages) ≡ None }
    ensures served { IsServed kernel.old (event.Map pid page pages) kernel.new result }
    ensures numbers { kernel.new.next ≡ kernel.old.next }
{
    region_laws();
    objects_suffice();
    let id = RegionId(fresh_number(kernel));
    make_room(kernel, pid);
    let _object = add_region(kernel, pid, id, Area::App, page, pages);
    Reply::Okay
}

/// Makes a region of zeros in the system area, at the lowest page from which on its pages are free, and answers its
/// address. Where there is no such place, or no room, the event is refused.
pub fn alloc(kernel: &mut Kernel, pid: u32, pages: u32) -> Reply<'static>
    requires good { IsGood kernel.old }
    requires accepted { refuse (outline kernel.old) (event.Alloc pid pages) ≡ None }
    ensures served { IsServed kernel.old (event.Alloc pid pages) kernel.new result }
    ensures numbers { kernel.new.next ≡ kernel.old.next }
{
    region_laws();
    objects_suffice();
    let id = RegionId(fresh_number(kernel));
    let page = kernel.spaces.page().get();
    match kernel.spaces.regions(pid).place(pages) {
        Some(start) => {
            make_room(kernel, pid);
            let _object = add_region(kernel, pid, id, Area::Sys, start, pages);
            Reply::At { addr: start * page }
        }
        None => unreachable!(),
    }
}
