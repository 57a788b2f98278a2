//! The record of a cell's own paint.
ghost use Rattle.std.specs.Prelude.{◌≡◌, All, IfOk, length};
ghost use Rattle.cell_paint.specs.Paints.{layout_of};
ghost use Rattle.ext_model.specs.Lawful.{IsLawful};
ghost use Rattle.own_record_laws.specs.Names.Attachments.{AreUnattached};
ghost use Rattle.own_record_laws.specs.Names.Labels.{IsLabelOf};
ghost use Rattle.own_record_laws.specs.TreeRecords.OwnRecords.{IsOwnRecord, class_values};
ghost use Rattle.cell_records.specs.steps.Exts.{IsExtOf};

use crate::fet_records::fet_records;
use cell_paint::CellPaint;
use ext_model::{CellExt, FetRec, NodeRec};
use fet_regions::fets;
use names_lists::{List, Name};
use own_record_laws::cell_nodes::{CellRegions, cell_regions};
use own_record_laws::own_records_are_lawful;
use std::alloc::{AllocError, Global};
use tech_model::{Label, RawTech, Tech};

/// The record of a cell, and the texts of its labels that name none of its nodes, in the order of the labels.
#[derive(Debug, Drop)]
pub struct CellRecord {
    pub ext: CellExt,
    pub unattached: List<Name>,
}

/// The values of the technology's classes.
fn class_values(alloc: Global, raw: &RawTech) -> Result<Vec<u64>, AllocError>
    ensures { IfOk result (λ values. values.items ≡ class_values raw.now) }
{
    raw.classes
        .items()
        .iter()
        .map(|class| class.value)
        .collect(alloc)
}

/// The record of the cell of this name with these nodes and transistors.
fn ext_of(
    alloc: Global,
    raw: &RawTech,
    name: &Name,
    nodes: List<NodeRec>,
    fets: Vec<FetRec>,
) -> Result<CellExt, AllocError>
    ensures { IfOk result (IsExtOf raw.now name.now nodes fets.items) }
{
    Ok(CellExt {
        cell: name.copy(alloc)?,
        tech: raw.name.copy(alloc)?,
        classes: List::of(class_values(alloc, raw)?),
        uses: List::of(Vec::new(alloc)),
        nodes,
        fets: List::of(fets),
        merges: List::of(Vec::new(alloc)),
    })
}

/// The record of the cell of this name that has this paint, these labels and no uses.
///
/// The paint is of the technology, and so are the layers of the labels. Areas of labels have bounds below 2^28 in absolute
/// value. Want of memory alone refuses.
pub fn cell_record(
    alloc: Global,
    tech: &Tech,
    name: &Name,
    paint: &CellPaint,
    labels: &[Label],
) -> Result<CellRecord, AllocError>
    requires kinds { paint.now.kinds ≡ tech.now.types }
    requires planes { length paint.now.planes ≡ length tech.now.planes }
    requires labels { All (IsLabelOf tech.now) labels.now }
    ensures record { IfOk result (λ made. IsOwnRecord tech.now (layout_of paint.now) labels.now name.now made.ext) }
    ensures lawful { IfOk result (λ made. IsLawful made.ext) }
    ensures unattached { IfOk result (λ made. AreUnattached tech.now (layout_of paint.now) labels.now made.unattached) }
{
    let raw = tech.raw();
    // The proof takes from this call that the paint is sound.
    let _ = paint.box_of();
    let CellRegions {
        regions,
        nodes,
        numbers,
        unattached,
    } = cell_regions(alloc, tech, paint, labels)?;
    let found = fets(alloc, tech, &regions)?;
    let made = fet_records(
        alloc,
        raw,
        nodes.items(),
        numbers.as_slice(),
        found.as_slice(),
    )?;
    let ext = ext_of(alloc, raw, name, nodes, made)?;
    own_records_are_lawful();
    Ok(CellRecord { ext, unattached })
}
