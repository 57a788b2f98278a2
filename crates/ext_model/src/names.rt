//! The order in which names of nodes stand.
ghost use Rattle.std.specs.Prelude.{◌≡◌};
ghost use Rattle.ext_model.specs.NodeNames.{ends_in, name_kind, slashes_in};
ghost use Rattle.ext_model.specs.NameOrder.{order_within_kind, name_cmp};

use std::cmp::Ordering;

/// What a path has between two names.
pub const SLASH: u8 = b'/';

/// The last byte of a global name.
pub const GLOBAL_MARK: u8 = b'!';

/// The last byte of a generated name.
pub const GENERATED_MARK: u8 = b'#';

/// What a node has its name from. In the name order those of an earlier kind come first.
#[derive(Clone, Copy, Debug, PartialEq, Eq, PartialOrd, Ord)]
pub enum NameKind {
    /// A label whose nodes are one in all cells: its last byte is `!`.
    Global,
    /// Any other label.
    Label,
    /// The type and the place of a node without a label: its last byte is `#`.
    Generated,
}

// whether this is the last byte of the name
fn ends_in(name: &[u8], byte: u8) -> bool
    ensures { result ≡ ends_in byte name.now }
{
    match name.last() {
        Some(last) => *last == byte,
        None => false,
    }
}

/// The kind of a name of a node, or of the last name of a path. It takes no memory.
pub fn kind_of_name(name: &[u8]) -> NameKind
    ensures { result ≡ name_kind name.now }
{
    if ends_in(name, GLOBAL_MARK) {
        NameKind::Global
    } else if ends_in(name, GENERATED_MARK) {
        NameKind::Generated
    } else {
        NameKind::Label
    }
}

// how many slashes a path has
fn slashes_in(path: &[u8]) -> usize
    ensures { result ≡ slashes_in path.now }
{
    path.iter().filter(|byte| **byte == SLASH).count()
}

// the order of two names of one kind
fn compare_within_kind(first: &[u8], second: &[u8]) -> Ordering
    ensures { result ≡ order_within_kind first.now second.now }
{
    slashes_in(first)
        .cmp(&slashes_in(second))
        .then(first.len().cmp(&second.len()))
        .then_with(|| first.cmp(second))
}

/// Which of two names stands first in the name order: by the kind of the last name, global ones first and generated ones last,
/// then by the number of slashes, then by the length, then by the bytes. It takes no memory.
pub fn compare_names(first: &[u8], second: &[u8]) -> Ordering
    ensures { result ≡ name_cmp first.now second.now }
{
    kind_of_name(first)
        .cmp(&kind_of_name(second))
        .then_with(|| compare_within_kind(first, second))
}
