//! Types of pieces in a class.
ghost use Rattle.std.specs.Prelude.{◌≡◌, ◌<◌, ◌≤◌, ◌&&◌, length, take, drop, All};
ghost use Rattle.offences.specs.LayoutModel.Technologies.{class_of};
ghost use Rattle.offences.specs.TypedStacks.{AreByPart, kind_in};
ghost use Rattle.meeting_sums.specs.steps.Counts.{flat_kind};

use offences::{PartKind, TypedStack};
use tech_model::{ClassRec, TypeId};

/// Whether the type is of the class.
pub fn is_of(class: &ClassRec, kind: TypeId) -> bool
    ensures { result ≡ (class_of class.now).contains kind.0 }
{
    class.types.items().iter().any(|member| member.0 == kind.0)
}

/// Whether the flat type of the piece is of the class: space where it is undefined.
pub fn is_flat_of(class: &ClassRec, stack: &TypedStack) -> bool
    ensures { result ≡ (class_of class.now).contains (flat_kind stack.now) }
{
    is_of(class, stack.flat.unwrap_or(TypeId(0)))
}

/// How many entries are of parts before this one.
fn parts_before(kinds: &[PartKind], part: usize) -> usize
    requires { AreByPart kinds.now }
    ensures within { result ≤ length kinds.now }
    ensures before { All (λ entry. entry.part < part) (take result kinds.now) }
    ensures after { All (λ entry. part ≤ entry.part) (drop result kinds.now) }
{
    kinds.partition_point(|entry| entry.part < part)
}

/// The type of a part in a list of types: space where it is not listed.
fn kind_in(kinds: &[PartKind], part: usize) -> TypeId
    requires { AreByPart kinds.now }
    ensures { result.0 ≡ kind_in kinds.now part }
{
    let place = parts_before(kinds, part);
    if place < kinds.len() && kinds[place].part == part {
        kinds[place].kind
    } else {
        TypeId(0)
    }
}

/// Whether the flat types of both pieces are of the class.
pub fn are_flat_of(class: &ClassRec, first: &TypedStack, second: &TypedStack) -> bool
    ensures { result ≡ ((class_of class.now).contains (flat_kind first.now) && (class_of class.now).contains (flat_kind second.now)) }
{
    is_flat_of(class, first) && is_flat_of(class, second)
}

/// Whether the part has types of the class in this entry and in the other piece.
pub fn is_shared(class: &ClassRec, entry: PartKind, other: &TypedStack) -> bool
    requires { AreByPart other.now.kinds }
    ensures { result ≡ ((class_of class.now).contains entry.kind.0 && (class_of class.now).contains (kind_in other.now.kinds entry.part)) }
{
    is_of(class, entry.kind) && is_of(class, kind_in(other.kinds.items(), entry.part))
}
