//! Names among those that are known.
ghost use Rattle.std.specs.Prelude.{◌≡◌, Some};
ghost use Rattle.std.specs.List.{list_all, list_any, before_first};
ghost use Rattle.ext_reading.specs.Parts.{is_slash};
ghost use Rattle.element_index.specs.GivenNames.{is_among, names_in};
ghost use Rattle.ext_reading.specs.declared.lines.ElementRange.{ElementRange as IsRange};
ghost use Rattle.ext_reading.specs.Drafts.{has_its_nodes, leads, all_lead, second_of, count_of, IsElementRange};

use crate::lines::ElementRange;
use crate::parts::slash_at;
use element_index::KnownElements;
use ext_model::{FetRec, SLASH, TermRec};
use name_index::NameIndex;

pub fn is_among(name: &[u8], names: &NameIndex) -> bool
    ensures { result ≡ is_among name.now names.now }
{
    names.find(name).is_some()
}

fn are_named(names: &NameIndex, terminals: &[TermRec]) -> bool
    ensures { result ≡ list_all (λ side. is_among side.node names.now) terminals.now }
{
    terminals
        .iter()
        .all(|side| is_among(side.node.bytes(), names))
}

pub fn has_its_nodes(names: &NameIndex, fet: &FetRec) -> bool
    ensures { result ≡ has_its_nodes names.now fet.now }
{
    is_among(fet.gate.node.bytes(), names) && are_named(names, fet.terminals.items())
}

fn is_slashed(path: &[u8]) -> bool
    ensures { result ≡ list_any is_slash path.now }
{
    path.iter().any(|byte| *byte == SLASH)
}

// The name before the first slash of a path.
fn first_name(path: &[u8]) -> &[u8]
    ensures { result.now ≡ before_first is_slash path.now }
{
    match slash_at(path) {
        Some(end) => &path[..end],
        None => path,
    }
}

pub fn leads(elements: &KnownElements, names: &NameIndex, path: &[u8]) -> bool
    ensures { result ≡ leads (names_in elements.now) names.now path.now }
{
    if is_slashed(path) {
        elements.has(first_name(path))
    } else {
        is_among(path, names)
    }
}

/// Whether the second paths of all merges of a row lead.
pub fn seconds_lead(
    elements: &KnownElements,
    names: &NameIndex,
    second: &[u8],
    range: &Option<ElementRange>,
) -> bool
    requires { (one : IsRange) → range.now ≡ Some one → IsElementRange one }
    ensures { result ≡ all_lead (names_in elements.now) names.now (second_of second.now range.now) (count_of range.now) }
{
    match range {
        Some(range) => elements.has_row(range.id.bytes(), range.lo, range.hi, range.j),
        None => leads(elements, names, second),
    }
}
