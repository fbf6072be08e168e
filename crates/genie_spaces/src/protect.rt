//! Read-only and read-write regions.
ghost use Rattle.std.specs.Prelude.{◌≡◌, ◌≢◌, [], None, IsSome, IsTrue, length};
ghost use Rattle.genie_base.specs.declared.event.Event.TheVariants as event;
ghost use Rattle.genie_object.specs.Objects.{object_at};
ghost use Rattle.genie_region.specs.Layouts.{region_of};
ghost use Rattle.genie_space.specs.Spaces.{is_alive, regions_of};
ghost use Rattle.genie_model.specs.Refusing.{refuse};
ghost use Rattle.genie_kernel.specs.Good.{IsGood};
ghost use Rattle.genie_kernel.specs.View.{outline};
ghost use Rattle.genie_spaces.specs.Permissions.{Forbids, Guards};
ghost use Rattle.genie_spaces.specs.Serving.{IsServed};
ghost use Rattle.genie_spaces.specs.Tables.{moded};

use crate::laws::region_laws;
use genie_base::{ObjectId, Reply};
use genie_kernel::Kernel;
use genie_object::{EntryRef, Objects};
use genie_region::Region;

// Takes the write permission from all entries of an object.
fn forbid_each(objects: &mut Objects, object: ObjectId)
    requires { object_at objects.old object.0 ≢ [] }
    ensures { Forbids object.0 (length (object_at objects.old object.0)) objects.old objects.new }
{
    let pages = objects.pages(object);
    'entries: for index in 0..pages {
        objects.forbid_writing(EntryRef { object, index });
    }
}

/// Takes the write permission from all entries of an object, where that isn't to be written.
pub fn guard(objects: &mut Objects, object: ObjectId, writable: bool)
    requires { object_at objects.old object.0 ≢ [] }
    ensures { Guards object.0 writable objects.old objects.new }
{
    if !writable {
        forbid_each(objects, object);
    }
}

// The region with this mode, and nothing else changed.
fn set_mode(kernel: &mut Kernel, pid: u32, region: Region, writable: bool)
    requires alive { IsTrue (is_alive pid kernel.old.spaces) }
    requires there { IsSome (region_of region.id (regions_of pid kernel.old.spaces)) }
    ensures { kernel.new ≡ moded kernel.old pid region writable }
{
    let regions = kernel.spaces.regions_mut(pid);
    regions.set_writable(region.id, writable);
}

/// Makes the region that starts at page `page` read-only or read-write. What is seen of it stays. Where no region starts
/// there, or it must stay writable, the event is refused.
pub fn protect(kernel: &mut Kernel, pid: u32, page: u32, writable: bool) -> Reply<'static>
    requires good { IsGood kernel.old }
    requires accepted { refuse (outline kernel.old) (event.Protect pid page writable) ≡ None }
    ensures served { IsServed kernel.old (event.Protect pid page writable) kernel.new result }
    ensures numbers { kernel.new.next ≡ kernel.old.next }
{
    region_laws();
    match kernel.spaces.regions(pid).starting_at(page) {
        Some(region) => {
            guard(&mut kernel.memory.objects, region.object, writable);
            set_mode(kernel, pid, region, writable);
            Reply::Okay
        }
        None => unreachable!(),
    }
}
