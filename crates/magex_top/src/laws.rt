//! Laws of whole runs. The functions here do nothing; their contracts are the laws.
ghost use Rattle.session_model.specs.Scripts.{HasOneEffect, MeansInSound};
ghost use Rattle.magex_top.specs.Runs.{SessionsAreMadeGood};
ghost use Rattle.magex_top.specs.Sessions.{IsRunSession, RunLineMeans, run_state_of};

use extract_commands::extracting_lines_have_one_effect;
use extract_commands::uniqueness::{ext2sim_means_one_effect, simrun_means_one_effect};
use library_commands::cif_commands::cif_commands_mean_one_effect;
use library_commands::library_lines_have_one_effect;

/// A session that fetches no name that it stores is the same one over the files that are left after a first few of its stores, with the same
/// report, the same stores and the same status, and it leaves the same files in the end.
pub fn sessions_are_made_good()
    ensures { SessionsAreMadeGood }
{}

/// Each line of a script has one effect where a run is sound: what the line is seen to do is all that it can mean.
pub fn lines_have_one_effect()
    ensures { HasOneEffect (MeansInSound run_state_of IsRunSession RunLineMeans) RunLineMeans }
{
    library_lines_have_one_effect();
    extracting_lines_have_one_effect();
    ext2sim_means_one_effect();
    simrun_means_one_effect();
    cif_commands_mean_one_effect();
}
