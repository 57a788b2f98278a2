//! Which types the pairs of a technology join, a bit for each two types.
ghost use Rattle.std.specs.Prelude.{◌≡◌, ◌<◌, ◌==◌, ◌||◌, ◌&&◌, ℕ, length, All, IfOk};
ghost use Rattle.tech_model.specs.PairTables.{row_has, HasPairs};
ghost use Rattle.tech_model.specs.declared.pair_table.TheConstants.{ROWS};

use crate::limits::MOST_TYPES;
use crate::raw::TypeId;
use std::alloc::{AllocError, Global};

/// A row for each type number, and one for space.
const ROWS: usize = MOST_TYPES + 1;

/// Pairs of type numbers.
#[derive(Debug, Drop)]
pub(crate) struct PairTable {
    rows: Vec<u128>,
    ghost full: { length rows.items ≡ ROWS },
}

impl PairTable {
    /// The pairs, each both ways.
    pub(crate) fn of(alloc: Global, pairs: &[(TypeId, TypeId)]) -> Result<PairTable, AllocError>
        requires { All (λ pair. (pair.0.0 < ROWS) × (pair.1.0 < ROWS)) pairs.now }
        ensures { IfOk result (λ table. HasPairs table.rows.items pairs.now) }
    {
        let mut table = PairTable {
            rows: vec![in alloc; 0u128; ROWS]?,
        };
        for &(s, t) in pairs {
            table.put(s, t);
            table.put(t, s);
        }
        Ok(table)
    }

    fn put(&mut self, s: TypeId, t: TypeId)
        requires s { s.0 < ROWS }
        requires t { t.0 < ROWS }
        ensures { (x y : ℕ) → y < ROWS → row_has self.new.rows.items x y
            ≡ (row_has self.old.rows.items x y || (x == s.0 && y == t.0)) }
    {
        let row = self.rows[usize::from(s.0)];
        self.rows[usize::from(s.0)] = row | 1 << t.0;
    }

    /// Whether a pair joins the two.
    pub(crate) fn has(&self, s: TypeId, t: TypeId) -> bool
        requires s { s.0 < ROWS }
        requires t { t.0 < ROWS }
        ensures { result ≡ row_has self.now.rows.items s.0 t.0 }
    {
        self.rows[usize::from(s.0)] >> t.0 & 1 == 1
    }
}
