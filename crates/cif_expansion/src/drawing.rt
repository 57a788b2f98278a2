//! Draws a text symbol by symbol, the last first: by the time of a symbol, all its instances are known.
ghost use Rattle.std.specs.Prelude.{◌≡◌, ◌<◌, ◌≤◌, ◌++◌, ℕ, [], ◌∷◌, length, map, slice_set, All, IfOk, IfErr, OnOk};
ghost use Rattle.geo_core.specs.Images.{composed, rect_image};
ghost use Rattle.cif_model.specs.Cifs.{IsLawfulItem, IsLawfulMove, HasScaledEdges};
ghost use Rattle.cif_model.specs.Meanings.{moved};
ghost use Rattle.cif_model.specs.Sizes.{size_of};
ghost use Rattle.cif_expansion.specs.steps.Drawings.{list_at, AreAdded, AreInRange, IsBoxOf, IsCallOf, IsDrawn, IsRangeFault, LeavesRange, LeavesRangeIn};
ghost use Rattle.cif_expansion.specs.Expansions.{AreBoxesOf, StandsOutside};
ghost use Rattle.cif_expansion.specs.Reach.{LiesInRange, MovesWithin, call_reach, chain_reach};

use crate::faults::ExpansionFault;
use crate::limits::LONGEST_CHAIN;
use crate::placements::Placement;
use cif_model::{Cif, CifItem, CifMove};
use geo_core::Rect;
use names_lists::List;
use std::alloc::{AllocError, Global};
use std::mem;

/// What is drawn of a text so far.
#[derive(Debug, Drop)]
struct Drawing {
    /// The boxes of each layer.
    boxes: Vec<List<Rect>>,
    /// Of each symbol that is not drawn yet, where its instances stand, as far as the drawn ones call it.
    waiting: Vec<List<Placement>>,
}

// Empty lists, so many.
fn empty_lists<T: Drop>(alloc: Global, count: usize) -> Result<Vec<List<T>>, AllocError>
    ensures so_many { IfOk result (λ lists. length lists.items ≡ count) }
    ensures empty { IfOk result (λ lists. (place : ℕ) → list_at lists.items place ≡ []) }
{
    let mut lists = Vec::with_capacity(alloc, count)?;
    for _ in 0..count {
        lists.push(List::of(Vec::new(alloc)))?;
    }
    Ok(lists)
}

// Adds a box as it stands in the instances with these placements.
fn push_images(
    boxes: &mut Vec<Rect>,
    area: &Rect,
    placements: &[Placement],
) -> Result<(), ExpansionFault>
    requires { All (MovesWithin chain_reach) placements.now }
    ensures pushed { OnOk result (boxes.new.items ≡ boxes.old.items ++ map (λ placement. rect_image placement area.now) placements.now) }
    ensures in_range { OnOk result (All (λ placement. LiesInRange (rect_image placement area.now)) placements.now) }
    ensures refused { IfErr result (IsRangeFault (LeavesRangeIn placements.now area.now)) }
{
    for placement in placements {
        match placement.rect(area) {
            Some(image) => boxes.push(image)?,
            None => return Err(ExpansionFault::OutOfRange),
        }
    }
    Ok(())
}

// Adds the instances of a called symbol: one in each instance of the caller.
fn push_instances(
    instances: &mut Vec<Placement>,
    call: &Placement,
    placements: &[Placement],
) -> Result<(), AllocError>
    requires near { MovesWithin chain_reach call.now }
    requires callers { All (MovesWithin chain_reach) placements.now }
    ensures { OnOk result (instances.new.items ≡ instances.old.items ++ map (composed call.now) placements.now) }
{
    for placement in placements {
        instances.push(call.then(placement))?;
    }
    Ok(())
}

impl Drawing {
    // Draws a box of a layer.
    fn draw_area(
        &mut self,
        alloc: Global,
        layer: u32,
        area: &Rect,
        placements: &[Placement],
    ) -> Result<(), ExpansionFault>
        requires layer { layer < length self.old.boxes.items }
        requires near { All (MovesWithin chain_reach) placements.now }
        ensures drawn { OnOk result (self.new.boxes.items ≡ slice_set self.old.boxes.items layer
            (list_at self.old.boxes.items layer ++ map (λ placement. rect_image placement area.now) placements.now)) }
        ensures kept { OnOk result (self.new.waiting.items ≡ self.old.waiting.items) }
        ensures in_range { OnOk result (All (λ placement. LiesInRange (rect_image placement area.now)) placements.now) }
        ensures refused { IfErr result (IsRangeFault (LeavesRangeIn placements.now area.now)) }
    {
        let layer = layer as usize;
        let empty = List::of(Vec::new(alloc));
        let mut boxes = mem::replace(&mut self.boxes[layer], empty).into_vec();
        push_images(&mut boxes, area, placements)?;
        self.boxes[layer] = List::of(boxes);
        Ok(())
    }

    // Adds the instances of a symbol that is called by these steps.
    fn draw_call(
        &mut self,
        alloc: Global,
        symbol: u32,
        steps: &[CifMove],
        placements: &[Placement],
    ) -> Result<(), AllocError>
        requires symbol { symbol < length self.old.waiting.items }
        requires steps { All IsLawfulMove steps.now }
        requires near { All (MovesWithin chain_reach) placements.now }
        ensures drawn { OnOk result (self.new.waiting.items ≡ slice_set self.old.waiting.items symbol
            (list_at self.old.waiting.items symbol ++ map (composed (moved steps.now)) placements.now)) }
        ensures kept { OnOk result (self.new.boxes.items ≡ self.old.boxes.items) }
        ensures reach { OnOk result (MovesWithin call_reach (moved steps.now)) }
    {
        let symbol = symbol as usize;
        let call = Placement::of_steps(steps);
        let empty = List::of(Vec::new(alloc));
        let mut instances = mem::replace(&mut self.waiting[symbol], empty).into_vec();
        push_instances(&mut instances, &call, placements)?;
        self.waiting[symbol] = List::of(instances);
        Ok(())
    }

    // Draws an item of a symbol, in all its instances.
    fn draw_item(
        &mut self,
        alloc: Global,
        item: &CifItem,
        placements: &[Placement],
    ) -> Result<(), ExpansionFault>
        requires lawful { IsLawfulItem (length self.old.boxes.items) (length self.old.waiting.items) item.now }
        requires near { All (MovesWithin chain_reach) placements.now }
        ensures drawn { OnOk result (IsDrawn (item.now ∷ []) placements.now self.old.boxes.items self.new.boxes.items
            self.old.waiting.items self.new.waiting.items) }
        ensures refused { IfErr result (IsRangeFault (LeavesRange (item.now ∷ []) placements.now)) }
    {
        match item {
            CifItem::Area { layer, area } => self.draw_area(alloc, *layer, area, placements)?,
            CifItem::Call { symbol, moves } => self.draw_call(
                alloc,
                *symbol,
                moves.items(),
                placements,
            )?,
        }
        Ok(())
    }

    // Draws the items of a symbol, in all its instances.
    fn draw_items(
        &mut self,
        alloc: Global,
        items: &[CifItem],
        placements: &[Placement],
    ) -> Result<(), ExpansionFault>
        requires lawful { All (IsLawfulItem (length self.old.boxes.items) (length self.old.waiting.items)) items.now }
        requires near { All (MovesWithin chain_reach) placements.now }
        ensures drawn { OnOk result (IsDrawn items.now placements.now self.old.boxes.items self.new.boxes.items
            self.old.waiting.items self.new.waiting.items) }
        ensures refused { IfErr result (IsRangeFault (LeavesRange items.now placements.now)) }
    {
        for item in items {
            self.draw_item(alloc, item, placements)?;
        }
        Ok(())
    }
}

/// The boxes of each layer, of all instances that the top level leads to. It takes the time of what the text has and what it expands to.
pub fn boxes_of(alloc: Global, cif: &Cif) -> Result<Vec<List<Rect>>, ExpansionFault>
    requires { (size_of cif.now).depth ≤ LONGEST_CHAIN }
    ensures drawn { IfOk result (λ boxes. AreBoxesOf cif.now boxes.items) }
    ensures refused { IfErr result (IsRangeFault (StandsOutside cif.now)) }
{
    cif.lawful();
    let mut drawing = Drawing {
        boxes: empty_lists(alloc, cif.layers().len())?,
        waiting: empty_lists(alloc, cif.symbols().len())?,
    };
    drawing.draw_items(alloc, cif.top(), &[Placement::identity()])?;
    while let Some(placements) = drawing.waiting.pop() {
        let symbol = &cif.symbols()[drawing.waiting.len()];
        drawing.draw_items(alloc, symbol.items.items(), placements.items())?;
    }
    Ok(drawing.boxes)
}
