//! What a frame has, and what a loan of it names.
ghost use Rattle.std.specs.Prelude.{◌≡◌, ◌<◌};
ghost use Rattle.genie_frame.specs.FrameTable as table;
ghost use Rattle.genie_frame.specs.Frames as spec;

/// A page frame, by its number.
#[derive(Clone, Copy, Debug, Default, PartialEq, Eq)]
pub struct FrameId(pub u32);

/// Whose a frame is.
#[derive(Clone, Copy, Debug, PartialEq, Eq)]
pub enum Owner {
    Free,
    /// The logical page with this number.
    Page(usize),
    /// The transfer with this number: the frame is part of a system buffer.
    System(u32),
    /// The device with this number: the frame is part of its pool.
    Pool(u32),
    /// Its owner has left it while a loan was out. It is free with its last loan.
    Nobody,
}

/// How many loans of each kind are out on a frame, and how often it is wired.
#[derive(Clone, Copy, Debug, PartialEq, Eq)]
pub struct Counts {
    /// Strong output loans: the page may not be written before they end.
    pub strong: u32,
    /// Weak output loans: the device reads the page as it is when it sends.
    pub weak: u32,
    /// Input loans: the device stores in the page.
    pub input: u32,
    pub wires: u32,
}

/// What was done with the frames since boot.
#[derive(Clone, Copy, Debug, PartialEq, Eq)]
pub struct Meters {
    /// Bytes that were read, written, copied between frames and zeroed, but for those that devices moved.
    pub read: u64,
    pub written: u64,
    pub copied: u64,
    pub zeroed: u64,
    /// Pages that were lent to the backing store, to be put there and to be got from there.
    pub puts: u64,
    pub gets: u64,
    /// Frames that were taken.
    pub taken: u64,
}

/// A loan of a frame to a device that sends it. It is out where the frame's count of this kind is above 0.
#[derive(Clone, Copy, Debug, Default, PartialEq, Eq)]
pub struct OutLoan {
    pub frame: FrameId,
    pub strong: bool,
}

/// A loan of a frame to a device that stores in it. It is out where the frame's count of input loans is above 0.
#[derive(Clone, Copy, Debug, Default, PartialEq, Eq)]
pub struct InLoan {
    pub frame: FrameId,
}

impl Owner {
    pub(crate) fn is_free(self) -> bool
        ensures { result ≡ table.is_free self }
    {
        matches!(self, Owner::Free)
    }

    // Whose the frame is after a loan on it has ended and left these counts.
    pub(crate) fn after_loan(self, left: Counts) -> Owner
        ensures { result ≡ spec.left_to self left }
    {
        match self {
            Owner::Nobody => left.unowned(),
            owner => owner,
        }
    }
}

impl Counts {
    /// Whether a loan is out.
    pub fn is_lent(self) -> bool
        ensures { result ≡ table.is_lent self }
    {
        self.strong > 0 || self.weak > 0 || self.input > 0
    }

    /// Whether a loan is out through which a device reads or writes the page as it is at that moment.
    pub fn is_held(self) -> bool
        ensures { result ≡ table.is_held self }
    {
        self.weak > 0 || self.input > 0
    }

    // Whose a frame with these counts is once its owner has left it.
    pub(crate) fn unowned(self) -> Owner
        ensures { result ≡ spec.unowned self }
    {
        if self.is_lent() {
            Owner::Nobody
        } else {
            Owner::Free
        }
    }

    // One output loan less.
    pub(crate) fn without_output(self, strong: bool) -> Counts
        requires { 0 < spec.outputs strong self }
        ensures { result ≡ spec.one_output_less strong self }
    {
        let mut left = self;
        if strong {
            left.strong -= 1;
        } else {
            left.weak -= 1;
        }
        left
    }
}
