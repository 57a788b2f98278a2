//! The law of the command. The function here does nothing; its contract is the law.
ghost use Rattle.drc_commands.specs.OneEffect.{DrcMeansOneEffect};

use drc_check::violations_are_unique;

/// `drc` does one thing to a cell of a library, for each number of its line, files and words.
pub fn drc_means_one_effect()
    ensures { DrcMeansOneEffect }
{
    violations_are_unique();
}
