//! What the definitions of placement and order imply.
ghost use Rattle.genie_region.specs.Laws.{NoPlaceIsFull, OrderStays, PlaceIsLowest};

/// A place is free, and the lowest that is.
pub fn placement()
    ensures lowest { PlaceIsLowest }
    ensures full { NoPlaceIsFull }
{}

/// A region where its pages are free overlaps none, and the order stays.
#[tactic(auto, using(crate::proofs::Places::order_stays))]
pub fn order()
    ensures { OrderStays }
{}
