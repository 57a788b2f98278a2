//! Regions that are found, with the edges that their tiles share.
ghost use Rattle.geo_core.specs.FiniteSets.Lists.{Lists};
ghost use Rattle.std.proofs.Props.{props};
ghost use Rattle.std.specs.Prelude.{All};
ghost use Rattle.flood_nodes.specs.SoundTiles.{IsSoundTile};
ghost use Rattle.flood_nodes.specs.TileShares.{IsTileContact, AreTileContacts};

use layout_model::RegionTile;
use names_lists::List;
use rect_contacts::Contact;

/// The tiles of a layout with the numbers of their regions, which are counted from 0, and how many there are.
#[derive(Debug, Drop)]
pub struct Regions {
    pub tiles: List<RegionTile>,
    pub count: usize,
    pub(crate) contacts: List<Contact>,
    pub ghost sound: { All (IsSoundTile count) tiles } by { Prim.hlevel props },
    pub(crate) ghost shared: { AreTileContacts tiles contacts } by { Prim.hlevel props },
}

impl Regions {
    /// The pairs of tiles of one plane that share an edge, each once, with the length of the edge in lambda.
    pub fn contacts(&self) -> &[Contact]
        ensures { Lists (IsTileContact self.now.tiles) result.now }
    {
        self.contacts.items()
    }
}
