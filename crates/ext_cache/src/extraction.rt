//! Extraction of what is dirty.
ghost use Rattle.std.specs.Prelude.{◌≡◌, ◌<◌, ◌+◌, ◌≤◌, ◌*◌, ◌++◌, ◌∷◌, ℕ, [], length, map, IfErr, IfOk, OnErr, OnOk, vec_capacity, vec_len};
ghost use Rattle.use_orders.specs.LibraryOrder.{IsLibraryOrder};
ghost use Rattle.tree_merges.specs.Names.Attachments.{AreUnattached};
ghost use Rattle.hierarchy_model.specs.CleanCells.{IsCleanBelow};
ghost use Rattle.hierarchy_model.specs.Laws.{KeepsWhatItHas};
ghost use Rattle.tree_merges.specs.CellLibrary.Additions.{children_in};
ghost use Rattle.tree_merges.specs.CellLibrary.LayoutTrees.{tree_at};
ghost use Rattle.tree_merges.specs.CellLibrary.Libraries.{seen};
ghost use Rattle.tree_merges.specs.CellLibrary.Views.{view_at};
ghost use Rattle.tree_merges.specs.ElementPaths.LibraryTrees.KeptRecords.{HaveKeptRecordsBelow};
ghost use Rattle.tree_merges.specs.HierMerge.Interactions.{IsWork};
ghost use Rattle.ext_cache.specs.Caches.{Agrees, Extracts, HasNewSerials, HasSerialsFor, IsCounted, IsRecordNow, IsWorkOfAll, IsWorkOfExtraction};
ghost use Rattle.ext_cache.specs.Caches.{MakesRecords, dirty_cells, record_in};
ghost use Rattle.ext_cache.specs.steps.MadeRecords.{IsMadeOf};
ghost use Rattle.ext_cache.specs.Refusals.{IsUncleanFault, IsUncleanIn, IsUncleanCell};
ghost use Rattle.ext_cache.specs.steps.Undoing.{IsLogOf};
ghost use Rattle.ext_cache.specs.declared.faults.ExtractFault.TheVariants.{Memory};

use crate::caches::Cache;
use crate::faults::{ExtractFault, Unclean};
use crate::undo::Undo;
use cell_records::{CellRecord, cell_record};
use ext_model::{ArrayExt, CellExt, CellKey};
use hierarchy_model::clean_cells_keep_what_they_have;
use lawful_trees::record_is_lawful;
use names_lists::{List, Name};
use std::alloc::{AllocError, Global};
use std::sync::ledger::Ledger;
use tree_merges::cell_library::{Opened, Reader};
use tree_merges::element_paths::use_records;
use tree_merges::{Related, relate};
use use_orders::library_order_law;

/// A cell of which a new record was made, and the texts of its labels that name none of its nodes, in the order of the labels.
#[derive(Debug, Drop)]
pub struct Extracted {
    pub cell: CellKey,
    pub unattached: List<Name>,
}

/// The record that is made of a cell, and the texts of its labels that name none of its nodes, in the order of the labels.
#[derive(Debug, Drop)]
pub struct MadeRecord {
    pub ext: ArrayExt,
    pub unattached: List<Name>,
}

/// Makes a new record of each dirty cell at and below the root, in library order, and tells of each. The count of records rises by the number of
/// cells that are told, which have the serials that follow it, and no record had before. Where a cell at or below the root is not clean, the
/// first such is told with the squares that offend. A refusal leaves the records as they were.
pub fn extract_dirty<L: Ledger>(
    cache: &mut Cache,
    library: &Reader<'_>,
    root: CellKey,
    steps: &mut Opened<L>,
) -> Result<Vec<Extracted>, ExtractFault>
    requires root { root.0 < length library.now.contents }
    requires agrees { Agrees library.now cache.old }
    ensures extracted { IfOk result (λ made. Extracts library.now cache.old root.0 cache.new made.items) }
    ensures counted { IfOk result (λ made. IsCounted library.now cache.old root.0 cache.new made.items) }
    ensures serials { IfOk result (λ made. HasSerialsFor cache.old (length made.items) → HasNewSerials cache.old cache.new made.items) }
    ensures agrees { Agrees library.now cache.new }
    ensures unclean { IfErr result (IsUncleanFault (seen library.now) root.0) }
    ensures refused { OnErr result (cache.new ≡ cache.old) }
    ensures keeps { OnOk result (KeepsWhatItHas library.now.tech (tree_at (seen library.now) root.0)) }
    ensures work { IfOk result (λ _. (work : ℕ) × IsWorkOfExtraction library.now cache.old root.0 work × (steps.new ≤ steps.old + work)) }
    ensures steps { (work : ℕ) → IsWorkOfExtraction library.now cache.old root.0 work → steps.new ≤ steps.old + work }
{
    library.lawful();
    library.typed(root);
    library_order_law();
    clean_cells_keep_what_they_have(library.tech());
    let alloc = cache.allocator();
    let order = library.below(root)?;
    let mut log = Vec::with_capacity(alloc, order.len())?;
    let mut told = Vec::with_capacity(alloc, order.len())?;
    match extract_all(
        cache,
        library,
        root,
        order.as_slice(),
        &mut log,
        &mut told,
        steps,
    ) {
        Ok(()) => Ok(told),
        Err(fault) => {
            cache.roll_back(log);
            Err(fault)
        }
    }
}

// Makes a new record of each dirty cell of the order, one after another. What each replaces is logged, and of each is told.
fn extract_all<L: Ledger>(
    cache: &mut Cache,
    library: &Reader<'_>,
    root: CellKey,
    order: &[CellKey],
    log: &mut Vec<Undo>,
    told: &mut Vec<Extracted>,
    steps: &mut Opened<L>,
) -> Result<(), ExtractFault>
    requires root { root.0 < length library.now.contents }
    requires order { IsLibraryOrder (children_in (seen library.now)) root.0 (map (λ key. key.0) order.now) }
    requires agrees { Agrees library.now cache.old }
    requires none { (log.old.items ≡ []) × (told.old.items ≡ []) }
    requires room { (length order.now ≤ vec_capacity log.old) × (length order.now ≤ vec_capacity told.old) }
    ensures made { OnOk result (MakesRecords library.now (dirty_cells library.now cache.old (map (λ key. key.0) order.now))
        cache.old cache.new told.new.items) }
    ensures agrees { OnOk result (Agrees library.now cache.new) }
    ensures logged { IsLogOf cache.old log.new.items cache.new }
    ensures unclean { IfErr result (IsUncleanIn (seen library.now) (map (λ key. key.0) order.now)) }
    ensures work { OnOk result ((work : ℕ) × IsWorkOfAll (seen library.now) (dirty_cells library.now cache.old (map (λ key. key.0) order.now)) work
        × (steps.new ≤ steps.old + work)) }
    ensures steps { (work : ℕ) → IsWorkOfAll (seen library.now) (dirty_cells library.now cache.old (map (λ key. key.0) order.now)) work
        → steps.new ≤ steps.old + work }
{
    library.lawful();
    library.unfolded();
    library_order_law();
    for cell in order {
        let stamp = library.stamp(*cell);
        if cache.is_stale(*cell, stamp) {
            let made = tree_record(cache, library, *cell, steps)?;
            tell(told, *cell, made.unattached);
            cache.keep_logged(*cell, made.ext, stamp, log)?;
        }
    }
    Ok(())
}

// Adds what is told of a cell, for which there is room.
fn tell(told: &mut Vec<Extracted>, cell: CellKey, unattached: List<Name>)
    requires { vec_len told.old < vec_capacity told.old }
    ensures told { told.new.items ≡ told.old.items ++ record { cell = cell; unattached = unattached } ∷ [] }
    ensures room { vec_capacity told.old ≤ vec_capacity told.new }
{
    let Ok(()) = told.push(Extracted { cell, unattached }) else {
        unreachable!()
    };
}

// The record of a cell, where all cells below it are clean and have records; or the squares that offend.
fn tree_record<L: Ledger>(
    cache: &Cache,
    library: &Reader<'_>,
    cell: CellKey,
    steps: &mut Opened<L>,
) -> Result<MadeRecord, ExtractFault>
    requires cell { cell.0 < length library.now.contents }
    requires clean { IsCleanBelow library.now.tech (tree_at (seen library.now) cell.0) }
    requires records { HaveKeptRecordsBelow (seen library.now) (record_in cache.now) cell.0 }
    ensures record { IfOk result (λ made. IsRecordNow (seen library.now) cell.0 made.ext) }
    ensures unattached { let body = view_at (seen library.now) cell.0 in
        IfOk result (λ made. AreUnattached library.now.tech body.own body.labels made.unattached) }
    ensures unclean { IfErr result (IsUncleanCell (seen library.now) cell.0) }
    ensures work { IfOk result (λ _. (work : ℕ) × IsWork (seen library.now) cell.0 work × (steps.new ≤ steps.old + (2 * work + 2))) }
    ensures steps { (work : ℕ) → IsWork (seen library.now) cell.0 work → steps.new ≤ steps.old + (2 * work + 2) }
{
    library.lawful();
    record_is_lawful(library, cell);
    let alloc = cache.allocator();
    let own = cell_record(
        alloc,
        library.tech(),
        library.name_of(cell),
        library.open(cell, steps),
        library.labels_of(cell),
    )?;
    let related = relate(alloc, library, cache.table(), cell, steps)?;
    if !related.offending.items().is_empty() {
        return Err(ExtractFault::Unclean(Unclean {
            cell,
            squares: related.offending,
        }));
    }
    with_relations(alloc, library, cell, own, related)
}

// The record of a cell's own paint, with its uses and its merges.
fn with_relations(
    alloc: Global,
    library: &Reader<'_>,
    cell: CellKey,
    own: CellRecord,
    related: Related,
) -> Result<MadeRecord, ExtractFault>
    requires cell { cell.0 < length library.now.contents }
    ensures made { IfOk result (IsMadeOf (seen library.now) cell.0 own related) }
    ensures memory { IfErr result (λ fault. fault ≡ Memory) }
{
    let uses = use_records(alloc, library, cell)?;
    let CellRecord { ext, unattached } = own;
    let CellExt {
        cell: name,
        tech,
        classes,
        uses: _,
        nodes,
        fets,
        merges: _,
    } = ext;
    Ok(MadeRecord {
        ext: ArrayExt {
            cell: name,
            tech,
            classes,
            uses: List::of(uses),
            nodes,
            fets,
            merges: related.merges,
        },
        unattached,
    })
}
