//! What holds of every made script.
ghost use Rattle.genie_gen.specs.Scripts.{MadeScriptsAreWhole};

use genie_script::laws::{lines_have_one_spelling, spellings_are_lines};

/// Every made script is whole: it is the spelling of a boot line, of three device lines that keep every limit, and of
/// the made events, one a line, and it ends behind them.
pub fn made_scripts_are_whole()
    ensures { MadeScriptsAreWhole }
{
    lines_have_one_spelling();
    spellings_are_lines();
}
