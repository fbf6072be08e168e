//! Worked rows.
ghost use Rattle.genie_model.specs.Rows.{WorkedRows};

/// The definitions compute the worked rows: for each class of semantics and each kind of device one script at least,
/// with its replies and the bytes sent.
#[tactic(auto, using(crate::proofs::Rows::worked_rows))]
pub fn worked_rows()
    ensures { WorkedRows }
{}
