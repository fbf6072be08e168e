//! Laws of the steps.
ghost use Rattle.genie_device.specs.GoingOn.{GoesOn};

/// A step that failed after some bytes, and is called again with the rest of its budget, takes or sends together as many
/// bytes as one step without the failure.
#[tactic(auto, using(crate::proofs::GoingOn::goes_on))]
pub fn failed_steps_go_on()
    ensures { GoesOn }
{}
