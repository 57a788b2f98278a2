//! Cells that were opened, and which node of its own paint a cell has at a place.
ghost use Rattle.std.specs.Prelude.{◌≡◌, ◌+◌, ◌<◌, ◌≤◌, [], length, map, nat_eq, slice_get, IfOk, IsSome, OnOk, Some};
ghost use Rattle.std.specs.HashMap.{get as entry_at};
ghost use Rattle.std.specs.Option.{option_map};
ghost use Rattle.element_paths.specs.CellLibrary.Libraries.{seen};
ghost use Rattle.geo_core.specs.Areas.{corner_of};
ghost use Rattle.geo_core.specs.Images.{image, inverted};
ghost use Rattle.geo_core.specs.Reach.{LiesInReach, MovesInReach};
ghost use Rattle.tile_members.specs.steps.OpenedCells.{unit_at, AreOpened, HasOpenNode, HasOwnCorner, HasTileAt, IsNumberAt, IsOpened, IsSearchable};
ghost use Rattle.tile_members.specs.steps.OpenedCells.{KeepOpened};

use element_paths::cell_library::{Opened, PartTile, Reader};
use ext_model::CellKey;
use geo_core::{Rect, Square};
use group_meetings::cell_nodes::{CellRegions, cell_regions};
use layout_model::RegionTile;
use names_lists::Name;
use rect_trees::RectTree;
use std::alloc::{AllocError, Global};
use std::collections::HashMap;
use std::sync::ledger::Ledger;

/// The own paint of a cell: its tiles, found by area, and the nodes that their regions make.
#[derive(Drop)]
pub struct OpenedCell {
    // of the tiles, in their order
    areas: RectTree,
    found: CellRegions,
}

/// Cells that were opened, by their positions.
#[derive(Drop)]
pub struct OpenedCells {
    entries: HashMap<usize, OpenedCell>,
}

// The areas of the tiles.
fn areas_of(alloc: Global, tiles: &[RegionTile]) -> Result<Vec<Rect>, AllocError>
    ensures { IfOk result (λ areas. areas.items ≡ map (λ tile. tile.area) tiles.now) }
{
    tiles.iter().map(|tile| tile.area).collect(alloc)
}

// The rectangle of one square.
fn unit_at(square: Square) -> Rect
    requires { LiesInReach square }
    ensures { result ≡ unit_at square }
{
    Rect {
        xlo: square.x,
        ylo: square.y,
        xhi: square.x + 1,
        yhi: square.y + 1,
    }
}

impl OpenedCell {
    // The own paint of the cell, for one step. Want of memory alone refuses.
    fn of<L: Ledger>(
        alloc: Global,
        library: &Reader<'_>,
        cell: CellKey,
        steps: &mut Opened<L>,
    ) -> Result<OpenedCell, AllocError>
        requires { cell.0 < length library.now.contents }
        ensures opened { IfOk result (IsOpened (seen library.now) cell.0) }
        ensures step { steps.new ≡ steps.old + 1 }
    {
        library.lawful();
        let paint = library.open(cell, steps);
        let found = cell_regions(alloc, library.tech(), paint, library.labels_of(cell))?;
        let areas = areas_of(alloc, found.regions.tiles.items())?;
        let areas = RectTree::new(alloc, areas.as_slice())?;
        Ok(OpenedCell { areas, found })
    }

    // The number of the node of a square of a plane that has something other than space. Want of memory alone refuses. It takes time for a
    // walk down a tree, and memory for the tiles at the square.
    fn node_at(&self, alloc: Global, plane: u8, square: Square) -> Result<usize, AllocError>
        requires searchable { IsSearchable self.now }
        requires there { HasTileAt self.now (record { plane = plane; square = square }) }
        ensures { IfOk result (IsNumberAt self.now (record { plane = plane; square = square })) }
    {
        let tiles = self.found.regions.tiles.items();
        let met = self.areas.meeting(alloc, unit_at(square))?;
        for position in met.iter() {
            let tile = &tiles[*position];
            if tile.plane == plane {
                return Ok(self.found.numbers[tile.region]);
            }
        }
        unreachable!()
    }

    /// The preferred name of the node with this number.
    pub fn name_of(&self, node: usize) -> &Name
        requires { node < length self.now.found.nodes }
        ensures { option_map (λ found. found.name) (slice_get self.now.found.nodes node) ≡ Some result.now }
    {
        &self.found.nodes.items()[node].name
    }
}

// The lower left square of the tile, in the coordinates of the cell whose paint it is.
fn own_corner(tile: &PartTile) -> Square
    requires moves { MovesInReach tile.now.to_cell }
    requires lies { LiesInReach (corner_of tile.now.area) }
    ensures { result ≡ image (inverted tile.now.to_cell) (corner_of tile.now.area) }
{
    tile.to_cell.inverse().square(Square {
        x: tile.area.xlo,
        y: tile.area.ylo,
    })
}

impl OpenedCells {
    /// No cell. It takes no memory.
    pub fn new(alloc: Global) -> OpenedCells
        ensures { result.entries.entries ≡ [] }
    {
        OpenedCells {
            entries: HashMap::new(alloc),
        }
    }

    // Opens the cell for one step, unless it is open. Want of memory alone refuses.
    fn enter<L: Ledger>(
        &mut self,
        alloc: Global,
        library: &Reader<'_>,
        cell: CellKey,
        steps: &mut Opened<L>,
    ) -> Result<(), AllocError>
        requires cells { AreOpened (seen library.now) self.old }
        requires cell { cell.0 < length library.now.contents }
        ensures cells { AreOpened (seen library.now) self.new }
        ensures kept { KeepOpened self.old self.new }
        ensures entered { OnOk result (IsSome (entry_at nat_eq self.new.entries cell.0)) }
        ensures steps { steps.new ≤ steps.old + 1 }
    {
        if !self.entries.contains_key(&cell.0) {
            let opened = OpenedCell::of(alloc, library, cell, steps)?;
            self.entries.insert(cell.0, opened)?;
        }
        Ok(())
    }

    /// A cell that is open.
    pub fn at(&self, cell: CellKey) -> &OpenedCell
        requires { IsSome (entry_at nat_eq self.now.entries cell.0) }
        ensures { entry_at nat_eq self.now.entries cell.0 ≡ Some result.now }
    {
        match self.entries.get(&cell.0) {
            Some(opened) => opened,
            None => unreachable!(),
        }
    }

    /// The number of the node that the cell of a tile has at the tile's lower left square. The cell is opened for one step, unless it is open. Want
    /// of memory alone refuses. It takes time for a walk down a tree of the tiles of the cell's own paint.
    pub fn node_of<L: Ledger>(
        &mut self,
        alloc: Global,
        library: &Reader<'_>,
        tile: &PartTile,
        steps: &mut Opened<L>,
    ) -> Result<usize, AllocError>
        requires cells { AreOpened (seen library.now) self.old }
        requires corner { HasOwnCorner library.now tile.now }
        ensures cells { AreOpened (seen library.now) self.new }
        ensures kept { KeepOpened self.old self.new }
        ensures node { IfOk result (HasOpenNode library.now self.new tile.now) }
        ensures steps { steps.new ≤ steps.old + 1 }
    {
        self.enter(alloc, library, tile.of, steps)?;
        let opened = self.at(tile.of);
        opened.node_at(alloc, tile.plane, own_corner(tile))
    }
}
