//! What holds of the grammar and the spelling of lines, and of whole scripts.
ghost use Rattle.genie_script.specs.Laws.{LinesAreReadAgain, LinesAreSpelledSo, SpellingsAreLines, SpellingsAreShort};
ghost use Rattle.genie_script.specs.Limits.{ScriptsKeepLimits};

/// Each line has one spelling, and no text has two meanings: a line is read from its spelling, and a text that is read
/// as a line other than a blank one is that line's spelling.
pub fn lines_have_one_spelling()
    ensures again { LinesAreReadAgain }
    ensures spelled { LinesAreSpelledSo }
{}

/// The spelling of a line has no line end, and isn't too long for a script: with a line end behind it, it is the first
/// line of a text.
pub fn spellings_are_lines()
    ensures lines { SpellingsAreLines }
    ensures short { SpellingsAreShort }
{}

/// The boot part of a script keeps every limit, and its events are whole.
pub fn scripts_keep_limits()
    ensures { ScriptsKeepLimits }
{}
