//! The record of a root.
ghost use Rattle.std.specs.Prelude.{◌≡◌, ◌<◌, length, slice_get, IsSome};
ghost use Rattle.circuit_model.specs.Elements.{ext_of};

use ext_model::CellExt;
use names_lists::Name;

/// The number of the first record of the cell, which has one. It takes no memory.
pub fn root_number(exts: &[CellExt], root: &Name) -> usize
    requires { IsSome (ext_of exts.now root.now) }
    ensures within { result < length exts.now }
    ensures found { slice_get exts.now result ≡ ext_of exts.now root.now }
{
    for (number, ext) in exts.iter().enumerate() {
        if ext.cell.bytes() == root.bytes() {
            return number;
        }
    }
    unreachable!()
}
