//! Types and planes that rules name.
ghost use Rattle.std.specs.Prelude.{◌≡◌, ℕ, IfOk, vec_len};
ghost use Rattle.std.specs.List.{list_any};
ghost use Rattle.finite_sets.specs.Lists.{In};
ghost use Rattle.tech_model.specs.declared.raw.TypeId.{TypeId as Kind};
ghost use Rattle.drc_check.specs.steps.Listed.{has_plane, IsListedType, IsMarkedType};

use drc_rules::Rule;
use std::alloc::{AllocError, Global};
use tech_model::TypeId;

/// The numbers of types are below this.
pub const TYPE_NUMBERS: usize = 256;

/// Marks the types of a list.
fn mark_all(marks: &mut Vec<bool>, kinds: &[TypeId])
    requires { vec_len marks.old ≡ TYPE_NUMBERS }
    ensures long { vec_len marks.new ≡ TYPE_NUMBERS }
    ensures marked { (kind : Kind) → In kind kinds.now → IsMarkedType marks.new.items kind.0 }
    ensures kept { (number : ℕ) → IsMarkedType marks.old.items number → IsMarkedType marks.new.items number }
{
    for kind in kinds {
        marks[usize::from(kind.0)] = true;
    }
}

/// A mark for each type number: each type that some rule lists has one.
pub fn listed_types(alloc: Global, rules: &[Rule]) -> Result<Vec<bool>, AllocError>
    ensures long { IfOk result (λ marks. vec_len marks ≡ TYPE_NUMBERS) }
    ensures marked { IfOk result (λ marks. (plane : ℕ) (kind : Kind) → IsListedType rules.now plane kind → IsMarkedType marks.items kind.0) }
{
    let mut marks = vec![in alloc; false; TYPE_NUMBERS]?;
    for rule in rules {
        mark_all(&mut marks, rule.first.items());
        mark_all(&mut marks, rule.second.items());
    }
    Ok(marks)
}

/// Whether a list of some rule is of types of the plane.
pub fn names_plane(rules: &[Rule], plane: u8) -> bool
    ensures { result ≡ list_any (has_plane plane) rules.now }
{
    rules.iter().any(|rule| rule.first_plane == plane || rule.second_plane == plane)
}
