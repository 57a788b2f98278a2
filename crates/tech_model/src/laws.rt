//! Laws of technologies, as the contracts of calls that do nothing.
ghost use Rattle.tech_model.specs.Laws.{RulesAreExact, ConnectsBothWays, ConnectsTypes, WithinIsAnOrder, SpaceIsAlone};
ghost use Rattle.tech_model.specs.Laws.{SetsNameTypes, JoinedHasSet, FetsAreNoTerminals, LayersAreLinked, MarksAreBits, ColumnsStayWhole, ColumnsAreLocal};

/// The first broken rule is none exactly where all rules are kept.
pub fn rules_are_exact()
    ensures { RulesAreExact }
{}

/// Connecting goes both ways.
pub fn connects_both_ways()
    ensures { ConnectsBothWays }
{}

/// Types alone connect, and each to itself.
pub fn connects_types()
    ensures { ConnectsTypes }
{}

/// Being within is reflexive, transitive and antisymmetric.
pub fn within_is_an_order()
    ensures { WithinIsAnOrder }
{}

/// Space is within space alone, and nothing else is within space.
pub fn space_is_alone()
    ensures { SpaceIsAlone }
{}

/// A type is the one with its set on its plane.
pub fn sets_name_types()
    ensures { SetsNameTypes }
{}

/// The type of a plane with a set has that set.
pub fn joined_has_set()
    ensures { JoinedHasSet }
{}

/// No transistor's type is one of its own terminals.
pub fn fets_are_no_terminals()
    ensures { FetsAreNoTerminals }
{}

/// Two types of one layer connect, and on one plane they are one type.
pub fn layers_are_linked()
    ensures { LayersAreLinked }
{}

/// What the images of a contact have in common is its mark's bit alone.
pub fn marks_are_bits()
    ensures { MarksAreBits }
{}

/// Paint and erasing leave columns in which each contact stands whole.
pub fn columns_stay_whole()
    ensures { ColumnsStayWhole }
{}

/// What paint and erasing leave on a plane depends on that plane alone.
pub fn columns_are_local()
    ensures { ColumnsAreLocal }
{}
