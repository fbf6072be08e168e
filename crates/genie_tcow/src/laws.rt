//! Laws of plans for output.
ghost use Rattle.genie_tcow.specs.Laws.{SendsAsLent, SendsAsIs};

/// The integrity of strong output: calls that keep loans may write to the range's pages, put them out or remove them, and
/// the device still sends the bytes that the range had when the plan was prepared.
pub fn strong_output_sends_what_was_lent()
    ensures { SendsAsLent }
{}

/// The weakness of weak output: after such calls the device sends the bytes that the range's pages have then.
pub fn weak_output_sends_what_is_there()
    ensures { SendsAsIs }
{}
