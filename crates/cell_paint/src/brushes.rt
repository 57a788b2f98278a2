//! What is done to the squares of an area.
ghost use Rattle.std.specs.Prelude.{◌≡◌, ◌<◌, ◌≤◌, length};
ghost use Rattle.tech_model.specs.Columns.{type_on, brushed_column};
ghost use Rattle.tech_model.specs.ColumnForms.{IsColumn, HasWholeContacts};

use tech_model::{Brush, LayerId, MOST_PLANES, MOST_TYPES, Tech, TypeId};

/// What is done with which layer of which technology.
#[derive(Drop)]
pub struct Stroke<'a> {
    pub tech: &'a Tech,
    pub brush: Brush,
    pub layer: LayerId,
}

impl Stroke<'_> {
    /// The type that comes to stand on the plane of a square with this column.
    pub fn kind_after(&self, plane: usize, mut column: [TypeId; MOST_PLANES]) -> u8
        requires plane { plane < MOST_PLANES }
        requires layer { self.now.layer.0 < length self.now.tech.now.layers }
        requires types { IsColumn self.now.tech.now column }
        ensures kind { result ≡ type_on (brushed_column self.now.tech.now self.now.brush self.now.layer.0 column) plane }
        ensures few { result ≤ MOST_TYPES }
    {
        // The proof takes from this call that the technology is well formed.
        let _ = self.tech.raw();
        self.tech.brush_column(self.brush, &mut column, self.layer);
        column[plane].0
    }
}
