//! Laws of sessions. The functions here do nothing; their contracts are the laws.
ghost use Rattle.session_model.specs.Laws.{AreCountedTogether, BeginsWhole};
ghost use Rattle.session_model.specs.Reruns.{IsMadeGood, IsMadeGoodAgain, RestsOnFetched};

use crate::session::Session;

/// What a run has reported that was cut short is the beginning of its session's report, and the files that it left are those after a
/// first few of its session's stores, but for the name of the one that failed.
pub fn what_is_cut_short_begins_the_whole()
    ensures { BeginsWhole }
{}

/// A session that fetches no name that it stores is the same over the files that are left after some of its stores.
pub fn session_is_the_same_again<S: Session>()
    requires { RestsOnFetched S.means }
    ensures { IsMadeGood S.means }
{}

/// A run that was cut short is made good by another over the files that it left, where no name that its script fetches is one that it
/// stores.
pub fn cut_short_is_made_good<S: Session>()
    requires { RestsOnFetched S.means }
    ensures { IsMadeGoodAgain S.means }
{}

/// The refusals of two scripts are counted together.
pub fn refusals_are_counted_together()
    ensures { AreCountedTogether }
{}
