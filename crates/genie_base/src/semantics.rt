//! The eight semantics of a call, by who allocates the buffer, by integrity and by level.
ghost use Rattle.std.specs.Prelude.{◌≡◌};
ghost use Rattle.genie_base.specs.Transfers.{class_of, is_strong as is_strong_class, is_system as is_system_class, is_emulated};

/// Which way a transfer's bytes go.
#[derive(Clone, Copy, Debug, PartialEq, Eq)]
pub enum Direction {
    /// From a process to a device.
    Outward,
    /// From a device to a process.
    Inward,
}

/// How a call passes its buffer (Brustoloni and Steenkiste, OSDI 1996).
#[derive(Clone, Copy, Debug, PartialEq, Eq)]
pub enum Semantics {
    Copy,
    EmulatedCopy,
    Share,
    EmulatedShare,
    Move,
    EmulatedMove,
    WeakMove,
    EmulatedWeakMove,
}

/// A semantics without its level: what a process can see of it.
#[derive(Clone, Copy, Debug, PartialEq, Eq)]
pub enum Class {
    Copy,
    Share,
    Move,
    WeakMove,
}

impl Semantics {
    /// The class, which forgets whether the call is emulated.
    pub fn class(self) -> Class
        ensures { result ≡ class_of self }
    {
        match self {
            Semantics::Copy | Semantics::EmulatedCopy => Class::Copy,
            Semantics::Share | Semantics::EmulatedShare => Class::Share,
            Semantics::Move | Semantics::EmulatedMove => Class::Move,
            Semantics::WeakMove | Semantics::EmulatedWeakMove => Class::WeakMove,
        }
    }

    /// Whether the integrity is strong.
    pub fn strong(self) -> bool
        ensures { result ≡ is_strong_class (class_of self) }
    {
        self.class().is_strong()
    }

    /// Whether the system allocates the buffer.
    pub fn system(self) -> bool
        ensures { result ≡ is_system_class (class_of self) }
    {
        self.class().is_system()
    }

    /// Whether the call is emulated.
    pub fn emulated(self) -> bool
        ensures { result ≡ is_emulated self }
    {
        match self {
            Semantics::Copy | Semantics::Share | Semantics::Move | Semantics::WeakMove => false,
            Semantics::EmulatedCopy
            | Semantics::EmulatedShare
            | Semantics::EmulatedMove
            | Semantics::EmulatedWeakMove => true,
        }
    }
}

impl Class {
    /// Whether the integrity is strong: writes after an output call don't change what is sent, and a process never
    /// sees an input buffer partly filled.
    pub fn is_strong(self) -> bool
        ensures { result ≡ is_strong_class self }
    {
        matches!(self, Class::Copy | Class::Move)
    }

    /// Whether the system, and not the application, allocates the buffer.
    pub fn is_system(self) -> bool
        ensures { result ≡ is_system_class self }
    {
        matches!(self, Class::Move | Class::WeakMove)
    }
}
