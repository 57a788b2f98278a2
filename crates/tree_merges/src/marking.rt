//! Members and regions that stand together: members come first, each by its number, and behind them the regions.
ghost use Rattle.std.specs.Prelude.{◌≡◌, ◌+◌, ◌<◌, All, map, length, slice_index, IfOk};
ghost use Rattle.std.specs.List.{range_with_len};
ghost use Rattle.partition.specs.Marks.{IsNumbered};
ghost use Rattle.piece_groups.specs.MemberMarks.{AreMemberMarks, mark_at};
ghost use Rattle.tree_merges.specs.steps.MemberPairs.{AddsPairs, member_pairs};
ghost use Rattle.tree_merges.specs.steps.Pieces.{AreNumbered};

use flood_nodes::Regions;
use offences::PlaneStack;
use partition::{Labelling, Partition};
use std::alloc::{AllocError, Global};
use tile_members::TileMembers;

// Joins the members that have these tiles with a region.
fn join_members(classes: &mut Partition, numbers: &[usize], tiles: &[usize], region: usize)
    requires region { region < length classes.old }
    requires tiles { All (λ tile. tile < length numbers.now) tiles.now }
    requires numbers { All (λ number. number < length classes.old) numbers.now }
    ensures len { length classes.new ≡ length classes.old }
    ensures joined { AddsPairs classes.old classes.new (map (λ tile. (slice_index numbers.now tile, region)) tiles.now) }
{
    for tile in tiles {
        classes.join(numbers[*tile], region);
    }
}

/// The marks of members and regions: those that stand together have one.
///
/// A member stands in each piece that a tile of it covers, and so with the region of the piece. The marks of members come first, each at the
/// member's number, and then those of regions. Want of memory alone refuses. It takes a step for each tile of each piece.
pub fn marks_of(
    alloc: Global,
    pieces: &[PlaneStack],
    members: &TileMembers,
    regions: &Regions,
) -> Result<Labelling, AllocError>
    requires { AreNumbered pieces.now members.now regions.now }
    ensures marks { IfOk result (λ made. AreMemberMarks (length members.now.names.items) regions.now.tiles regions.now.count
        (member_pairs members.now.numbers.items pieces.now) made.labels.items) }
    ensures numbered { IfOk result (λ made. IsNumbered made.labels.items made.count) }
{
    let tiles = regions.tiles.items();
    let names = members.names.len();
    let mut classes = Partition::new(alloc, names + regions.count)?;
    for (index, piece) in pieces.iter().enumerate() {
        let region = names + tiles[index].region;
        join_members(
            &mut classes,
            members.numbers.as_slice(),
            piece.stack.members.items(),
            region,
        );
    }
    Ok(classes.into_labels())
}

/// The mark of each piece, which is that of its region, where so many members have the first marks.
pub fn marks_of_pieces(
    alloc: Global,
    regions: &Regions,
    members: usize,
    marks: &[usize],
) -> Result<Vec<usize>, AllocError>
    requires { length marks.now ≡ members + regions.now.count }
    ensures { IfOk result (λ found. found.items ≡ map (mark_at members regions.now.tiles marks.now) (range_with_len 0 (length regions.now.tiles))) }
{
    let tiles = regions.tiles.items();
    let mut found = Vec::with_capacity(alloc, tiles.len())?;
    for tile in tiles {
        found.push(marks[members + tile.region])?;
    }
    Ok(found)
}
