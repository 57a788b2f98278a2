//! What the transistors of a flat circuit are given to.
ghost use Rattle.std.specs.Prelude.{◌≡◌, ℕ, List, ◌∷◌, [], ◌++◌, IfOk, OnOk};
ghost use Rattle.ext_model.specs.declared.records.FetRec.{FetRec as FlatFet};

use ext_model::{FetRec, NodeRec};
use names_lists::{List, Name};
use std::alloc::{AllocError, Global};

/// What takes the transistors of a flat circuit, one after the other, so that they need not all be there at once.
pub trait FetSink: Drop {
    /// What is asked of a transistor that is given.
    ghost fits: { FlatFet → Type 0 };

    /// What it says of these transistors, given in this order, of a circuit in the technology of that name.
    ghost has: { Self → List ℕ → List FlatFet → Type 0 };

    /// One that was given none yet.
    fn begin(alloc: Global, tech: &Name) -> Result<Self, AllocError>
        ensures { IfOk result (λ sink. has sink tech.now []) };

    /// Takes the next transistor. Want of memory alone refuses.
    fn give(&mut self, fet: FetRec) -> Result<(), AllocError>
        requires { fits fet }
        ensures { OnOk result ((tech : List ℕ) (fets : List FlatFet) → has self.old tech fets → has self.new tech (fets ++ fet ∷ [])) };
}

/// A flat circuit whose transistors were given to a sink.
#[derive(Debug, Drop)]
pub struct GivenCircuit<S> {
    pub tech: Name,
    pub classes: List<u64>,
    pub nodes: List<NodeRec>,
    pub sink: S,
}

/// All transistors of a circuit.
#[derive(Debug, Drop)]
pub struct AllFets {
    pub fets: Vec<FetRec>,
}

impl FetSink for AllFets {
    ghost use Rattle.std.specs.Prelude.{◌≡◌};

    ghost fits = { λ _. Unit {0} };

    ghost has = { λ sink tech fets. sink.fets.items ≡ fets };

    fn begin(alloc: Global, _tech: &Name) -> Result<AllFets, AllocError> {
        Ok(AllFets {
            fets: Vec::new(alloc),
        })
    }

    fn give(&mut self, fet: FetRec) -> Result<(), AllocError> {
        self.fets.push(fet)?;
        Ok(())
    }
}
