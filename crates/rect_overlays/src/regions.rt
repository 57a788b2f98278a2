//! Regions: areas that are to be made stacks or cut, with the rectangles that have squares in them.
ghost use Rattle.std.specs.Prelude.{◌≡◌, ◌++◌, ◌∷◌, [], ◌-◌, if◌then◌else◌, take, drop, length, IfOk, OnOk};
ghost use Rattle.geo_core.specs.Areas.{joined_rect};
ghost use Rattle.rect_overlays.specs.steps.Regions.{turned_over, AddsGathered, IsBeginning};

use geo_core::Rect;
use std::alloc::{AllocError, Global};

/// The whole grid.
const GRID: Rect = Rect {
    xlo: i64::MIN,
    ylo: i64::MIN,
    xhi: i64::MAX,
    yhi: i64::MAX,
};

/// The area of a region, and how many members it has.
#[derive(Clone, Copy)]
pub struct Span {
    pub area: Rect,
    pub count: usize,
}

/// Regions: the area of each, and the members of all, those of one behind those of another.
#[derive(Drop)]
pub struct Regions {
    pub spans: Vec<Span>,
    pub members: Vec<usize>,
}

/// Rectangles, by their indices in a list, and what goes round all that they have of an area.
#[derive(Drop)]
pub struct Part {
    pub hull: Rect,
    pub members: Vec<usize>,
}

impl Part {
    /// No rectangles.
    pub fn new(alloc: Global) -> Part
        ensures { result.members.items ≡ [] }
    {
        Part {
            hull: turned_over(&GRID),
            members: Vec::new(alloc),
        }
    }

    /// Lets all rectangles go, to begin with another area.
    pub fn clear(&mut self, area: &Rect)
        ensures members { self.new.members.items ≡ [] }
        ensures hull { self.new.hull ≡ turned_over area.now }
    {
        self.hull = turned_over(area);
        self.members.clear();
    }

    /// Adds a rectangle if it is inside the area, of which it has that much.
    pub fn add_if(
        &mut self,
        is_inside: bool,
        member: usize,
        common: &Rect,
    ) -> Result<(), AllocError>
        ensures members { OnOk result (self.new.members.items ≡ self.old.members.items ++ (if is_inside then member ∷ [] else [])) }
        ensures hull { OnOk result (self.new.hull ≡ (if is_inside then joined_rect self.old.hull common.now else self.old.hull)) }
    {
        if is_inside {
            self.members.push(member)?;
            self.hull = self.hull.joined(common);
        }
        Ok(())
    }
}

impl Regions {
    /// What the rectangles of a list have of the grid, as one region, unless it is nothing.
    pub fn around(alloc: Global, rects: &[Rect]) -> Result<Regions, AllocError>
        ensures { IfOk result (IsBeginning rects.now) }
    {
        let mut whole = Part::new(alloc);
        for (index, rect) in rects.iter().enumerate() {
            whole.add_if(rect.has_square(), index, rect)?;
        }
        let mut regions = Regions {
            spans: Vec::new(alloc),
            members: Vec::new(alloc),
        };
        regions.push(&whole)?;
        Ok(regions)
    }

    /// Adds a part as a region, unless it has no rectangle.
    pub fn push(&mut self, part: &Part) -> Result<(), AllocError>
        ensures { OnOk result (AddsGathered part.now self.old self.new) }
    {
        if part.members.is_empty() {
            return Ok(());
        }
        self.members.extend_from_slice(part.members.as_slice())?;
        self.spans.push(Span {
            area: part.hull,
            count: part.members.len(),
        })?;
        Ok(())
    }
}

/// Moves the last so many members of a list to another list, in the place of what that has.
pub fn move_last(
    members: &mut Vec<usize>,
    count: usize,
    taken: &mut Vec<usize>,
) -> Result<(), AllocError>
    ensures taken { OnOk result (taken.new.items ≡ drop (length members.old.items - count) members.old.items) }
    ensures rest { OnOk result (members.new.items ≡ take (length members.old.items - count) members.old.items) }
{
    let start = members.len().saturating_sub(count);
    taken.clear();
    taken.extend_from_slice(&members.as_slice()[start..])?;
    members.truncate(start);
    Ok(())
}

/// The rectangle with each side where the one across was: what is joined to it within the area comes out alone.
fn turned_over(area: &Rect) -> Rect
    ensures { result ≡ turned_over area.now }
{
    Rect {
        xlo: area.xhi,
        ylo: area.yhi,
        xhi: area.xlo,
        yhi: area.ylo,
    }
}
