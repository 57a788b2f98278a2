//! The parts of a CIF text.
ghost use Rattle.std.specs.Prelude.{◌≡◌};
ghost use Rattle.cif_model.specs.Cifs.{IsLawfulCif};

use geo_core::Rect;
use names_lists::{List, Name};
use std::marker::Model;

/// A step from a symbol's coordinates to those of its caller.
#[derive(Clone, Copy, Debug, PartialEq, Eq)]
pub enum CifMove {
    /// To the right and upward, in CIF units.
    Shift(i64, i64),
    /// x becomes -x.
    MirrorX,
    /// y becomes -y.
    MirrorY,
    /// From 0 to 3 quarter turns counterclockwise.
    Turn(u8),
}

/// A box, or a call of a symbol.
#[derive(Debug, Drop)]
pub enum CifItem {
    /// A box: the place of its layer in the text's list, and its edges, scaled.
    Area { layer: u32, area: Rect },
    /// A call: the place of the symbol in the text's list, and the steps, from left to right, scaled.
    Call { symbol: u32, moves: List<CifMove> },
}

/// A symbol: the number that it is called by in the text, and its items in order.
#[derive(Debug, Drop)]
pub struct CifSymbol {
    pub number: i64,
    pub items: List<CifItem>,
}

/// What a CIF text says. Contracts see it as a record of its parts.
#[derive(Debug)]
pub struct Cif {
    layers: List<Name>,
    symbols: List<CifSymbol>,
    top: List<CifItem>,
}

impl Drop for Cif {
    fn drop(self) {
        let Cif {
            layers: _,
            symbols: _,
            top: _,
        } = self;
    }
}

impl Model for Cif {
    ghost use Rattle.cif_model.specs.Cifs.{CifParts, IsLawfulCif};

    ghost Value = { CifParts };

    ghost view = { λ cif. record { layers = cif.layers; symbols = cif.symbols; top = cif.top } };

    ghost invariant = { λ cif. IsLawfulCif (record { layers = cif.layers; symbols = cif.symbols; top = cif.top }) };
}

impl Cif {
    /// The text that says this. It takes no memory.
    pub fn of(layers: List<Name>, symbols: List<CifSymbol>, top: List<CifItem>) -> Cif
        requires { IsLawfulCif (record { layers = layers; symbols = symbols; top = top }) }
        ensures { result ≡ record { layers = layers; symbols = symbols; top = top } }
    {
        Cif {
            layers,
            symbols,
            top,
        }
    }

    /// The layers in the order of their first boxes in the text.
    pub fn layers(&self) -> &[Name]
        ensures { result.now ≡ self.now.layers }
    {
        self.layers.items()
    }

    /// The symbols in the order of their definitions.
    pub fn symbols(&self) -> &[CifSymbol]
        ensures { result.now ≡ self.now.symbols }
    {
        self.symbols.items()
    }

    /// What stands at the top level, in order.
    pub fn top(&self) -> &[CifItem]
        ensures { result.now ≡ self.now.top }
    {
        self.top.items()
    }

    /// Each text is lawful: calls lead to earlier symbols, and numbers are near.
    pub fn lawful(&self)
        ensures { IsLawfulCif self.now }
    {
        let _ = &self.layers;
    }
}
