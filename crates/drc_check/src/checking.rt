//! The strips of squares of a cell that violate rules.
ghost use Rattle.std.specs.Prelude.{◌≡◌, ◌==◌, ◌<◌, ◌≤◌, ◌≤ℤ◌, ◌++◌, pos, All, IfOk, OnOk, length, map};
ghost use Rattle.std.specs.List.{list_any};
ghost use Rattle.geo_core.specs.Strips.{IsStrips};
ghost use Rattle.cell_library.specs.Libraries.{seen};
ghost use Rattle.cell_library.specs.LayoutTrees.{tree_at};
ghost use Rattle.drc_rules.specs.LawfulRules.{IsLawfulRule};
ghost use Rattle.drc_rules.specs.declared.limits.TheConstants.{LARGEST_DISTANCE, MOST_RULES};
ghost use Rattle.drc_check.specs.steps.Checks.{areas_of_list, is_of_list, IsSoundPiece, ViolatesIn};
ghost use Rattle.drc_check.specs.Violations.{violation_of, AreRuleStripsFrom, AreViolations};

use crate::cell_pieces::cell_pieces;
use crate::pieces::ListedPiece;
use crate::violations::Violation;
use cell_library::{Opened, Reader};
use drc_rules::{Rule, RuleKind, Rules};
use ext_model::CellKey;
use geo_core::Rect;
use square_sets::{narrow, near, tight};
use std::alloc::{AllocError, Global};
use std::sync::ledger::Ledger;
use tech_model::TypeId;

/// Whether the type is one of those.
fn lists(kinds: &[TypeId], kind: TypeId) -> bool
    ensures { result ≡ list_any (λ k. k.0 == kind.0) kinds.now }
{
    kinds.iter().any(|other| other.0 == kind.0)
}

/// Whether the piece is of the plane, and the list has its type.
fn is_of_list(piece: &ListedPiece, kinds: &[TypeId], plane: u8) -> bool
    ensures { result ≡ is_of_list plane kinds.now piece.now }
{
    piece.plane == plane && lists(kinds, piece.kind)
}

/// The areas of the pieces of the plane whose types are of the list.
fn areas_of_list(
    alloc: Global,
    pieces: &[ListedPiece],
    kinds: &[TypeId],
    plane: u8,
) -> Result<Vec<Rect>, AllocError>
    ensures { IfOk result (λ areas. areas.items ≡ areas_of_list plane kinds.now pieces.now) }
{
    pieces
        .iter()
        .filter(|piece| is_of_list(piece, kinds, plane))
        .map(|piece| piece.area)
        .collect(alloc)
}

/// The strips of the squares that violate the rule, where these are the pieces of its lists.
fn strips_of(alloc: Global, pieces: &[ListedPiece], rule: &Rule) -> Result<Vec<Rect>, AllocError>
    requires sound { All IsSoundPiece pieces.now }
    requires d { (pos 1 ≤ℤ rule.now.d) × (rule.now.d ≤ℤ LARGEST_DISTANCE) }
    ensures { IfOk result (λ strips. IsStrips (ViolatesIn pieces.now rule.now) strips.items) }
{
    let first = areas_of_list(alloc, pieces, rule.first.items(), rule.first_plane)?;
    match rule.kind {
        RuleKind::Width => narrow(alloc, first.as_slice(), rule.d),
        RuleKind::Spacing => tight(alloc, first.as_slice(), rule.d),
        RuleKind::Separation => {
            let second = areas_of_list(alloc, pieces, rule.second.items(), rule.second_plane)?;
            near(alloc, first.as_slice(), second.as_slice(), rule.d)
        }
    }
}

/// Adds strips that violate the rule of this number.
fn add_strips(
    found: &mut Vec<Violation>,
    number: u32,
    plane: u8,
    strips: &[Rect],
) -> Result<(), AllocError>
    ensures { OnOk result (found.new.items ≡ found.old.items ++ map (violation_of number plane) strips.now) }
{
    for area in strips {
        found.push(Violation {
            rule: number,
            plane,
            area: *area,
        })?;
    }
    Ok(())
}

/// The strips of the squares that violate rules, rule by rule, where these are the pieces of their lists.
fn violations_of(
    alloc: Global,
    pieces: &[ListedPiece],
    rules: &[Rule],
) -> Result<Vec<Violation>, AllocError>
    requires sound { All IsSoundPiece pieces.now }
    requires few { length rules.now ≤ MOST_RULES }
    requires d { All (λ rule. (pos 1 ≤ℤ rule.d) × (rule.d ≤ℤ LARGEST_DISTANCE)) rules.now }
    ensures { IfOk result (λ found. AreRuleStripsFrom (ViolatesIn pieces.now) 1 rules.now found.items) }
{
    let mut found = Vec::new(alloc);
    for (place, rule) in rules.iter().enumerate() {
        let strips = strips_of(alloc, pieces, rule)?;
        add_strips(
            &mut found,
            place as u32 + 1,
            rule.first_plane,
            strips.as_slice(),
        )?;
    }
    Ok(found)
}

/// The strips of the squares of the cell's flat layout that violate rules, rule by rule, clean or not. The rules are numbered from 1.
///
/// The cell's hull is visited band by band, for a step each tile. Want of memory alone refuses.
pub fn check_drc<L: Ledger>(
    alloc: Global,
    library: &Reader<'_>,
    cell: CellKey,
    rules: &Rules,
    steps: &mut Opened<L>,
) -> Result<Vec<Violation>, AllocError>
    requires cell { cell.0 < length library.now.contents }
    requires few { length rules.now.rules ≤ MOST_RULES }
    requires lawful { All (IsLawfulRule library.now.tech) rules.now.rules }
    ensures violations { IfOk result (λ found. AreViolations library.now.tech (tree_at (seen library.now) cell.0) rules.now.rules found.items) }
    ensures rules { IfOk result (λ found. All (λ violation. violation.rule ≤ MOST_RULES) found.items) }
    ensures planes { IfOk result (λ found. All (λ violation. violation.plane < length library.now.tech.planes) found.items) }
    ensures steps { steps.old ≤ steps.new }
{
    let pieces = cell_pieces(alloc, library, cell, rules.rules.items(), steps)?;
    violations_of(alloc, pieces.as_slice(), rules.rules.items())
}
