//! Laws of moves, and of what an end costs.
ghost use Rattle.genie_finish.specs.Moves.{EmptyCanStore, ZerosBehind};
ghost use Rattle.genie_finish.specs.Table.{EndsCostLittle};

/// An object without pages takes a buffer whole: every page is swapped, nothing asks the store, and zeros stand behind
/// what was stored.
pub fn moves_end_in_zeros()
    ensures can { EmptyCanStore }
    ensures zeros { ZerosBehind }
{}

/// To make a range's pages ready and to store it costs two pages at most for each page of which it has a part alone, and
/// one for each page that a device holds. Whole pages cost nothing.
pub fn whole_pages_cost_nothing()
    ensures { EndsCostLittle }
{}
