//! Making the cells.
ghost use Rattle.std.specs.Prelude.{◌≡◌, ◌⊎◌, ◌+◌, ◌≤◌, None, length, IfErr, IfOk, OnErr, OnOk};
ghost use Rattle.cell_library.specs.Libraries.{IsSame, edits_of, seen};
ghost use Rattle.layout_gen.specs.Generated.{CameAtOnce, IsGenerated};
ghost use Rattle.layout_gen.specs.Refusals.{IsFaultOrMemory, generate_fault};

use crate::bodies::cells_for;
use crate::checks::check;
use crate::faults::GenerateFault;
use crate::limits::MOST_TILES;
use cell_library::{LibFault, Library, LibraryLimit};
use ext_model::CellKey;
use std::alloc::Global;

/// Adds the cells that are made from n, as one edit, and answers the key of the last, `gen`: a stack of n rows of n tiles. A refusal
/// changes nothing.
///
/// # Errors
///
/// `CellExists` with the first of `gtile`, `grow` and `gen` that there is; else `NoLayer` with the first of `poly` and `diff` that the
/// technology lacks; else `TooMany(Cells)` or `TooMany(Edits)`.
pub fn generate(alloc: Global, library: &mut Library, n: u32) -> Result<CellKey, GenerateFault>
    requires some { 1 ≤ n }
    requires few { n ≤ MOST_TILES }
    ensures generated { OnOk result (IsGenerated (seen library.old) n (seen library.new)) }
    ensures key { IfOk result (λ key. key.0 ≡ length library.old.contents + 2) }
    ensures edit { OnOk result (CameAtOnce library.old library.new) }
    ensures unrefused { OnOk result (generate_fault (seen library.old) (edits_of library.old) ≡ None) }
    ensures told { IfErr result (IsFaultOrMemory (generate_fault (seen library.old) (edits_of library.old))) }
    ensures refused { OnErr result (IsSame library.old library.new) }
{
    library.lawful();
    let layers = check(alloc, library)?;
    let cells = cells_for(alloc, library, &layers, n)?;
    let key = CellKey(library.cell_count() + 2);
    match library.add_all(cells) {
        Ok(()) => Ok(key),
        Err(fault) => Err(fault_of(fault)),
    }
}

// Why nothing is made, where a library refuses the cells: it does so for want of memory, or since it had all the edits that it may have.
fn fault_of(fault: LibFault) -> GenerateFault
    requires { (fault ≡ LibFault.Memory) ⊎ (fault ≡ LibFault.TooMany LibraryLimit.Edits) }
    ensures memory { fault ≡ LibFault.Memory → result ≡ GenerateFault.Memory }
    ensures edits { fault ≡ LibFault.TooMany LibraryLimit.Edits → result ≡ GenerateFault.TooMany LibraryLimit.Edits }
{
    match fault {
        LibFault::TooMany(limit) => GenerateFault::TooMany(limit),
        LibFault::Memory => GenerateFault::Memory,
        _ => unreachable!(),
    }
}
