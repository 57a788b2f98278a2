//! The law of the commands. The function here does nothing; its contract is the law.
ghost use Rattle.cif_commands.specs.OneEffects.{CifMeansOneEffect, CifstatMeansOneEffect};

use use_orders::library_order_law;

/// Each of the two commands does one thing, for each number of its line, cell or files, and name.
pub fn cif_commands_mean_one_effect()
    ensures cif { CifMeansOneEffect }
    ensures cifstat { CifstatMeansOneEffect }
{
    library_order_law();
}
