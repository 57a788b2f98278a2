//! The law of the commands on a library. The function here does nothing; its contract is the law.
ghost use Rattle.library_commands.specs.OneEffects.{CheckMeansOneEffect, EditMeansOneEffect, LoadMeansOneEffect, LookMeansOneEffect};
ghost use Rattle.library_commands.specs.OneEffects.{ReturnMeansOneEffect, TechMeansOneEffect, WriteMeansOneEffect};

use cif_commands::cif_commands_mean_one_effect;
use drc_commands::drc_means_one_effect;
use uniqueness::unclean_cells_are_unique;

/// Each command on a library has one effect, for each number of its line, state and files.
pub fn library_lines_have_one_effect()
    ensures tech { TechMeansOneEffect }
    ensures load { LoadMeansOneEffect }
    ensures edits { EditMeansOneEffect }
    ensures returns { ReturnMeansOneEffect }
    ensures looks { LookMeansOneEffect }
    ensures checks { CheckMeansOneEffect }
    ensures writes { WriteMeansOneEffect }
{
    unclean_cells_are_unique();
    drc_means_one_effect();
    cif_commands_mean_one_effect();
}
