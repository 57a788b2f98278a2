//! Inverses in their order.
ghost use Rattle.std.specs.Prelude.{◌≡◌, ◌↔◌, ◌∷◌, [], drop, IsTrue, OnErr, OnOk, IfNone, IfSome};

use crate::changes::Inverse;
use std::alloc::{AllocError, Global};
use std::marker::Model;

/// Inverses, of which each leads on from where the later ones lead. Contracts see them as a list, the latest first.
#[derive(Drop)]
pub struct Trail {
    entries: Vec<Inverse>,
}

impl Model for Trail {
    ghost use Rattle.std.specs.Prelude.{List};
    ghost use Rattle.undo_log.specs.declared.changes.Inverse.{Inverse};

    ghost Value = { List Inverse };

    ghost use Rattle.std.specs.Prelude.{reverse};

    ghost view = { λ trail. reverse trail.entries.items };
}

impl Trail {
    ghost use Rattle.std.specs.Prelude.{List};
    ghost use Rattle.undo_log.specs.declared.changes.Inverse.{Inverse};

    /// No inverses. It takes no memory.
    pub fn new(alloc: Global) -> Trail
        ensures { result ≡ [] }
    {
        Trail {
            entries: Vec::new(alloc),
        }
    }

    /// The latest inverse. None exactly where there is none.
    pub fn latest(&self) -> Option<&Inverse>
        ensures latest { IfSome result (λ inverse. (rest : List Inverse) × (self.now ≡ inverse.now ∷ rest)) }
        ensures none { IfNone result (self.now ≡ []) }
    {
        self.entries.last()
    }

    /// Whether there is none.
    pub fn is_empty(&self) -> bool
        ensures { IsTrue result ↔ (self.now ≡ []) }
    {
        self.entries.is_empty()
    }

    /// Adds one as the latest. Want of memory alone refuses, and nothing is changed then.
    pub fn push(&mut self, inverse: Inverse) -> Result<(), AllocError>
        ensures added { OnOk result (self.new ≡ inverse ∷ self.old) }
        ensures refused { OnErr result (self.new ≡ self.old) }
    {
        self.entries.push(inverse)?;
        Ok(())
    }

    /// Lets the latest go. It takes no memory.
    pub fn drop_latest(&mut self)
        ensures { self.new ≡ drop 1 self.old }
    {
        let _ = self.entries.pop();
    }

    /// Lets all go. It takes no memory.
    pub fn clear(&mut self)
        ensures { self.new ≡ [] }
    {
        self.entries.clear();
    }
}
