//! Laws of a memory.
ghost use Rattle.genie_object.specs.Laws.{MovesSoundly, ComesUnseen, GoesUnseen, RenamesSoundly, PartsUnseen, PermitsUnseen, ForbidsUnseen, LendsSoundly, SharesSoundly, DropsSoundly, LeavesSoundly, EmptiesSoundly, RemovesUnseen};
ghost use Rattle.genie_object.specs.Keeping.{ShowsSame, ShowsCounts, ShowsStored, ShowsLanded, ShowsFrame, ShowsSameBytes, ShowsDisowned, ShowsGiven, ShowsTaken, ShowsLent, ShowsEnded, ShowsUnseenEnd, ShowsLastLoan, ShowsUnlent, KeepsSound};

/// A step that leaves bytes, places and entries alone shows what was seen before.
#[tactic(auto, using(crate::specs::Lemmas::Showing::shows_same))]
pub fn unchanged_law()
    ensures { ShowsSame }
{}

/// A weak or input loan that begins or ends on a frame, or a wire, shows what was seen before.
pub fn counts_law()
    ensures { ShowsCounts }
{}

/// Bytes that are stored in a page of one entry, in a frame that isn't strongly lent, show at that entry and nowhere
/// else.
pub fn stored_law()
    ensures { ShowsStored }
{}

/// Bytes that are stored in a frame that no page has show at that frame and nowhere else.
pub fn landed_law()
    ensures { ShowsLanded }
{}

/// A step that changes the owner and the counts of one frame alone shows at that frame and nowhere else: the frame's
/// bytes where it is seen by itself now, and nothing where it isn't. Each entry shows what it showed.
#[tactic(auto, using(crate::specs::Lemmas::Changing::shows_frame))]
pub fn frame_law()
    ensures { ShowsFrame }
{}

/// A frame that shows the bytes that it showed before changes nothing of what is seen.
#[tactic(auto, using(crate::specs::Lemmas::Changing::shows_same_bytes))]
pub fn same_bytes_law()
    ensures { ShowsSameBytes }
{}

/// A frame that `disown` has taken from its owner shows its bytes while a loan is out, for it is nobody's then. Without
/// a loan it is free, and shows nothing.
#[tactic(auto, using(crate::specs::Lemmas::Changing::shows_disowned))]
pub fn disowned_law()
    ensures { ShowsDisowned }
{}

/// A frame that `give` has given to a page shows nothing by itself. One given to a system buffer or a pool shows its
/// bytes.
#[tactic(auto, using(crate::specs::Lemmas::Changing::shows_given))]
pub fn given_law()
    ensures { ShowsGiven }
{}

/// A frame that `take` has taken for a page shows nothing by itself. One taken for another owner shows its bytes.
pub fn taken_law()
    ensures { ShowsTaken }
{}

/// A frame that `lend_strong` has lent shows its bytes by itself, even where a page has it.
pub fn lent_law()
    ensures { ShowsLent }
{}

/// A loan that `back_out` or `back_in` ends shows at its frame and nowhere else: the frame's bytes where it is seen by
/// itself with the owner and the loans that are left, and nothing where it isn't.
pub fn ended_law()
    ensures { ShowsEnded }
{}

/// A loan that ends shows what was seen before where it doesn't change whether its frame is seen by itself: on a frame
/// of a system buffer or a pool, on one of nobody while another loan is out, and on a page's frame unless it was the
/// last strong loan.
pub fn unseen_end_law()
    ensures { ShowsUnseenEnd }
{}

/// The last loan on a frame of nobody takes the frame's bytes away as it ends: the frame is free.
pub fn last_loan_law()
    ensures { ShowsLastLoan }
{}

/// The last strong loan on a page's frame takes the frame's bytes away as it ends. The page's entries show them still.
pub fn unlent_law()
    ensures { ShowsUnlent }
{}

/// Stored bytes leave the memory sound.
#[tactic(auto, using(crate::specs::Lemmas::Showing::keeps_sound))]
pub fn sound_law()
    ensures { KeepsSound }
{}

/// A page that goes to another place, which no other page has, leaves the memory sound.
pub fn moved_page_law()
    ensures { MovesSoundly }
{}

/// A page that comes into a free frame with its bytes leaves the memory sound, and shows what was seen before.
pub fn coming_page_law()
    ensures { ComesUnseen }
{}

/// An entry that gets an untouched page of its own leaves the memory sound. The page that it named stays with those that
/// share it.
pub fn fresh_page_law()
    ensures { RenamesSoundly }
{}

/// An entry that permits more leaves the memory sound, and shows what was seen before.
pub fn permitted_entry_law()
    ensures { PermitsUnseen }
{}

/// A page that goes to a slot, where the slot has its bytes, shows what was seen before.
pub fn going_page_law()
    ensures { GoesUnseen }
{}

/// An entry that gets a page of its own in a free frame leaves the memory sound. It shows what was seen before where the
/// frame has the bytes of the page that it shared (a copy), or zeros where it named none (a page that is touched first).
pub fn parted_page_law()
    ensures { PartsUnseen }
{}

/// An empty entry that comes to name a page which others name leaves the memory sound and keeps all loans. It shows what
/// they show, and nothing else changes.
pub fn shared_page_law()
    ensures { SharesSoundly }
{}

/// A page that goes with its last holder leaves the memory sound. The entry shows zeros; a frame that is lent is
/// nobody's, and shows its bytes by itself.
pub fn last_holder_law()
    ensures { DropsSoundly }
{}

/// An entry that leaves its page to those that share it leaves the memory sound, and shows zeros.
pub fn left_page_law()
    ensures { LeavesSoundly }
{}

/// An entry that is emptied, whatever page it named, leaves the memory sound and every other entry as it was, and shows
/// zeros. A frame that is lent and goes with it shows its bytes by itself.
pub fn emptied_entry_law()
    ensures { EmptiesSoundly }
{}

/// An object of empty entries that is taken away leaves the memory sound, and shows what was seen before.
pub fn removed_object_law()
    ensures { RemovesUnseen }
{}

/// An entry that loses its permission to be written leaves the memory sound, keeps all loans, and shows what was seen
/// before.
pub fn forbidden_entry_law()
    ensures { ForbidsUnseen }
{}

/// A strong loan that begins or ends on the frame of a page which no device holds, and which no entry may write, leaves
/// the memory sound.
pub fn strong_loan_law()
    ensures { LendsSoundly }
{}
