//! A law of buffers.
ghost use Rattle.genie_input.specs.Buffers.{BuffersStay};

/// A buffer stays one under any call that keeps loans and changes no count, as the calls that bring pages in.
pub fn buffers_stay()
    ensures { BuffersStay }
{}
