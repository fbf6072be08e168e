//! Why an event was refused.
ghost use Rattle.std.specs.Prelude.{◌≡◌};
ghost use Rattle.genie_base.specs.Refusals.{word_of};

/// Why an event was refused, in the order in which the causes are tried.
#[derive(Clone, Copy, Debug, PartialEq, Eq)]
pub enum Refusal {
    /// A process isn't alive, or its number is above 15.
    Proc,
    /// The process is alive already.
    Exists,
    /// There is no such device, or it has no such direction.
    Dev,
    /// A length is out of its bounds, or the range reaches no region.
    Range,
    /// No region starts there, or the pages aren't free.
    Region,
    /// The region is read-only.
    Denied,
    /// A region or a transfer isn't in the state that the event needs.
    State,
    /// The process has 32 regions.
    Regions,
    /// The system area has no room for the region.
    Space,
    /// The backing pages don't suffice.
    Backing,
    /// 64 transfers are pending.
    Transfers,
    /// The pending transfers would need too many frames.
    Frames,
}

impl Refusal {
    /// The word that a reply has for it.
    pub fn word(self) -> &'static str
        ensures { result.now ≡ word_of self }
    {
        match self {
            Refusal::Proc => "proc",
            Refusal::Exists => "exists",
            Refusal::Dev => "dev",
            Refusal::Range => "range",
            Refusal::Region => "region",
            Refusal::Denied => "denied",
            Refusal::State => "state",
            Refusal::Regions => "regions",
            Refusal::Space => "space",
            Refusal::Backing => "backing",
            Refusal::Transfers => "transfers",
            Refusal::Frames => "frames",
        }
    }
}
