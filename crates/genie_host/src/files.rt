//! The readable names of a host in memory, and the failures that were asked for.
ghost use Rattle.std.specs.Prelude.{◌≡◌, ◌<◌, ◌≤◌, IfOk, false, slice_get, position};
ghost use Rattle.std.specs.Str.{bytes_eq};
ghost use Rattle.genie_host.specs.MemoryParts.{is_at as is_at_place, cut_at, before_failures, is_failing, used_up, name_in, bytes_in};

use genie_base::NoMemory;
use std::alloc::Global;
use std::marker::Model;

/// A name.
#[derive(Drop)]
pub struct Name {
    bytes: Vec<u8>,
}

impl Model for Name {
    ghost use Rattle.std.specs.Prelude.{List, ℕ};

    ghost Value = { List ℕ };

    ghost view = { λ n. n.bytes.items };
}

impl Name {
    pub(crate) fn new(alloc: Global, name: &[u8]) -> Result<Name, NoMemory>
        ensures { IfOk result (λ made. made ≡ name.now) }
    {
        Ok(Name {
            bytes: name.to_vec(alloc)?,
        })
    }

    pub(crate) fn is(&self, name: &[u8]) -> bool
        ensures { result ≡ bytes_eq self.now name.now }
    {
        self.bytes.as_slice() == name
    }

    pub(crate) fn as_slice(&self) -> &[u8]
        ensures { result.now ≡ self.now }
    {
        self.bytes.as_slice()
    }
}

/// A readable name with its bytes.
#[derive(Drop)]
pub struct File {
    name: Name,
    bytes: Vec<u8>,
}

impl Model for File {
    ghost use Rattle.genie_host.specs.MemoryRecords.{FileView};

    ghost Value = { FileView };

    ghost view = { λ f. record { name = f.name; bytes = f.bytes.items } };
}

impl File {
    pub(crate) fn new(alloc: Global, name: &[u8], bytes: &[u8]) -> Result<File, NoMemory>
        ensures { IfOk result (λ file. file ≡ record { name = name.now; bytes = bytes.now }) }
    {
        let name = Name::new(alloc, name)?;
        let bytes = bytes.to_vec(alloc)?;
        Ok(File { name, bytes })
    }

    pub(crate) fn is_named(&self, name: &[u8]) -> bool
        ensures { result ≡ bytes_eq self.now.name name.now }
    {
        self.name.is(name)
    }

    fn name(&self) -> &[u8]
        ensures { result.now ≡ self.now.name }
    {
        self.name.as_slice()
    }

    fn bytes(&self) -> &[u8]
        ensures { result.now ≡ self.now.bytes }
    {
        self.bytes.as_slice()
    }
}

/// A call that is to fail, at this place of the file of this name.
#[derive(Drop)]
pub struct Failure {
    name: Name,
    at: u64,
}

impl Model for Failure {
    ghost use Rattle.genie_host.specs.MemoryRecords.{FailView};

    ghost Value = { FailView };

    ghost view = { λ f. record { name = f.name; at = f.at } };
}

impl Failure {
    pub(crate) fn new(alloc: Global, name: &[u8], at: u64) -> Result<Failure, NoMemory>
        ensures { IfOk result (λ failure. failure ≡ record { name = name.now; at = at }) }
    {
        let name = Name::new(alloc, name)?;
        Ok(Failure { name, at })
    }

    // Whether it stands at this place.
    fn is_at(&self, name: &[u8], place: u64) -> bool
        ensures { result ≡ is_at_place name.now place self.now }
    {
        self.name.is(name) && self.at == place
    }

    // A number of bytes from this place on, cut where it stands.
    fn cut(&self, name: &[u8], place: u64, count: u64) -> u64
        ensures { result ≡ cut_at name.now place count self.now }
    {
        if self.name.is(name) && place <= self.at {
            count.min(self.at - place)
        } else {
            count
        }
    }
}

// Which failure is the first that stands at this place.
fn failure_at(failing: &[Failure], name: &[u8], place: u64) -> Option<usize>
    ensures { result ≡ position (is_at_place name.now place) failing.now }
{
    failing
        .iter()
        .position(|failure| failure.is_at(name, place))
}

// Whether a failure stands at this place. The first that does is used up.
pub(crate) fn meets_failure(failing: &mut Vec<Failure>, name: &[u8], place: u64) -> bool
    ensures met { result ≡ is_failing failing.old.items name.now place }
    ensures left { failing.new.items ≡ used_up failing.old.items name.now place }
{
    match failure_at(failing, name, place) {
        Some(index) => {
            failing.remove(index);
            true
        }
        None => false,
    }
}

// How many of the bytes from this place on come before each failure.
pub(crate) fn before_failure(failing: &[Failure], name: &[u8], place: u64, count: u64) -> u64
    ensures exact { result ≡ before_failures failing.now name.now place count }
    ensures most { result ≤ count }
    ensures some { is_failing failing.now name.now place ≡ false → 0 < count → 0 < result }
{
    failing
        .iter()
        .fold(count, |count, failure| failure.cut(name, place, count))
}

// The place of the first file of this name.
pub(crate) fn file_named(files: &[File], name: &[u8]) -> Option<usize>
    ensures { result ≡ position (λ file. bytes_eq file.name name.now) files.now }
{
    files.iter().position(|file| file.is_named(name))
}

pub(crate) fn name_at(files: &[File], at: usize) -> &[u8]
    ensures { result.now ≡ name_in (slice_get files.now at) }
{
    match files.get(at) {
        Some(file) => file.name(),
        None => &[],
    }
}

pub(crate) fn bytes_at(files: &[File], at: usize) -> &[u8]
    ensures { result.now ≡ bytes_in (slice_get files.now at) }
{
    match files.get(at) {
        Some(file) => file.bytes(),
        None => &[],
    }
}
