//! The table, in a case.
ghost use Rattle.genie_copying.specs.Rows.{TableRows};

/// The definitions give the rows of the table over a kernel that has a page of each kind.
#[tactic(auto, using(crate::proofs::Rows::table_rows))]
pub fn table_rows()
    ensures { TableRows }
{}
