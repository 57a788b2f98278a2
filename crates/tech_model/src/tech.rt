//! Technologies that keep the rules.
ghost use Rattle.std.specs.Prelude.{◌≡◌, ◌<◌, ◌⊎◌, None, Some, length, IfOk, IfErr, IsTrue};
ghost use Rattle.std.specs.Option.{option_map};
ghost use Rattle.tech_model.specs.Columns.{brushed_column};
ghost use Rattle.tech_model.specs.Rules.{KeepsRules, rule_fault};
ghost use Rattle.tech_model.specs.Types.{first_name, is_type, layer_at, layer_of, layer_number, type_number, layer_named, image_on, joined, connects};
ghost use Rattle.tech_model.specs.Types.{is_within};
ghost use Rattle.tech_model.specs.WellFormed.{IsWellFormed};

use crate::columns::Brush;
use crate::faults::TechFault;
use crate::indexed::Indexed;
use crate::limits::MOST_PLANES;
use crate::raw::{LayerId, PartSet, RawTech, TypeId};
use crate::{columns, rules};
use std::alloc::Global;
use std::marker::Model;

/// A technology whose lists fit together and that keeps the rules. Contracts see it as its lists.
pub struct Tech {
    lists: Indexed,
}

impl Drop for Tech {
    fn drop(self) {
        let Tech { lists: _ } = self;
    }
}

impl Model for Tech {
    ghost use Rattle.tech_model.specs.declared.raw.RawTech.{RawTech as Lists};
    ghost use Rattle.tech_model.specs.Rules.{KeepsRules};

    ghost Value = { Lists };

    ghost view = { λ tech. tech.lists };

    ghost invariant = { λ tech. KeepsRules tech.lists };
}

impl Tech {
    /// The technology of these lists, unless they break a rule: two types of one plane with one set, a
    /// transistor that connects to its terminal, a transistor's name, the law of what connects. The first
    /// in this order is told.
    pub fn check(alloc: Global, raw: RawTech) -> Result<Tech, TechFault>
        requires { IsWellFormed raw }
        ensures lists { IfOk result (λ tech. tech ≡ raw) }
        ensures kept { IfOk result (λ _. rule_fault raw ≡ None) }
        ensures broken { IfErr result (λ fault. (fault ≡ TechFault.Memory) ⊎ (rule_fault raw ≡ Some fault)) }
    {
        let lists = Indexed::new(alloc, raw)?;
        rules::check(alloc, &lists)?;
        Ok(Tech { lists })
    }

    /// The lists that were checked.
    pub fn raw(&self) -> &RawTech
        ensures value { result.now ≡ self.now }
        ensures well_formed { IsWellFormed self.now }
        ensures rules { KeepsRules self.now }
    {
        self.lists.raw()
    }

    /// The layer that has this name or alias.
    pub fn layer(&self, name: &[u8]) -> Option<LayerId>
        ensures { result ≡ option_map layer_number (layer_named self.now name.now) }
    {
        self.lists.layer(name)
    }

    /// The image of the layer on the plane.
    pub fn image(&self, layer: LayerId, plane: u8) -> Option<TypeId>
        requires { layer.0 < length self.now.layers }
        ensures { result ≡ image_on self.now layer.0 plane }
    {
        self.lists.image(layer, plane)
    }

    /// The type of the plane that has the set: space for the empty set.
    pub fn joined(&self, plane: u8, set: PartSet) -> Option<TypeId>
        ensures { result ≡ option_map type_number (joined self.now plane set.0) }
    {
        self.lists.joined(plane, set)
    }

    /// Whether the two types connect. Space connects to nothing.
    pub fn connects(&self, s: TypeId, t: TypeId) -> bool
        ensures { result ≡ connects self.now s.0 t.0 }
    {
        self.lists.connects(s, t)
    }

    /// Whether s is within t: it is t, or its set is a proper subset of t's and it connects to t.
    pub fn within(&self, s: TypeId, t: TypeId) -> bool
        ensures { result ≡ is_within self.now s.0 t.0 }
    {
        self.lists.within(s, t)
    }

    /// The word by which a type other than space is written: the first name of its layer.
    pub fn word(&self, t: TypeId) -> &[u8]
        requires { IsTrue (is_type self.now t.0) }
        ensures { result.now ≡ first_name (layer_at self.now (layer_of self.now t.0)) }
    {
        self.lists.layer_name(t)
    }

    /// Paints or erases the layer at one square. A column has a type for each plane: one of that plane or
    /// space, and space past the last plane.
    pub fn brush_column(&self, brush: Brush, column: &mut [TypeId; MOST_PLANES], layer: LayerId)
        requires { layer.0 < length self.now.layers }
        ensures { column.new ≡ brushed_column self.now brush layer.0 column.old }
    {
        columns::brush_column(&self.lists, brush, column, layer)
    }
}
