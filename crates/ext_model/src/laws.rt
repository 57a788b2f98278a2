//! Laws of names and of records. The functions here do nothing: the contract of each is a law that the definitions have to keep to
//! be worth believing.
ghost use Rattle.ext_model.specs.NameOrder.{StandsNoLater};
ghost use Rattle.ext_model.specs.NameLaws.{NameOrderIsTotal, NameOrderIsAntisymmetric, NameOrderIsExact, RanksTellNamesApart};
ghost use Rattle.ext_model.specs.NameLaws.{PathsKeepTheOrder, PathsNameBelow, KindsTellGlobalNames};
ghost use Rattle.ext_model.specs.NameParts.{PathsCompareByParts};
ghost use Rattle.ext_model.specs.RecordLaws.{PathsWithoutSlashNameNodes, PathsWithSlashLeadIntoElements};
ghost use Rattle.geo_core.specs.FiniteSets.Laws.{IsReflexive, IsTransitive};

/// The name order is a total order of all names, and tells any two of them apart.
pub fn name_order_is_total()
    ensures reflexive { IsReflexive StandsNoLater }
    ensures antisymmetric { NameOrderIsAntisymmetric }
    ensures transitive { IsTransitive StandsNoLater }
    ensures total { NameOrderIsTotal }
    ensures exact { NameOrderIsExact }
    ensures ranks { RanksTellNamesApart }
{}

/// Kinds tell which names of nodes are global.
pub fn kinds_tell_global_names()
    ensures { KindsTellGlobalNames }
{}

/// Full names without their being written out: paths are in the order of their parts, so that below the same elements they are in the
/// order of what follows, and a path is taken from an element to an element.
pub fn full_names_go_by_parts()
    ensures parts { PathsCompareByParts }
    ensures order { PathsKeepTheOrder }
    ensures below { PathsNameBelow }
{}

/// A path of a lawful record is a name of one of its nodes where it has no slash, and begins with the name of one of its elements
/// where it has one.
pub fn paths_name_nodes_or_lead_into_elements()
    ensures whole { PathsWithoutSlashNameNodes }
    ensures slashed { PathsWithSlashLeadIntoElements }
{}
