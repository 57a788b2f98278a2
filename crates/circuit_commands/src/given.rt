//! Sim files of circuits whose transistors are given one after the other.
ghost use Rattle.std.specs.Prelude.{◌≡◌, ◌≢◌, List, IfOk, IsOkUnless};
ghost use Rattle.ext_model.specs.declared.records.FetRec.{FetRec as FlatFet};
ghost use Rattle.flatten.specs.Sinks.{with_fets};
ghost use Rattle.circuit_commands.specs.Circuits.{IsSimWritten};
ghost use Rattle.circuit_commands.specs.GivenFets.{HasSimFets};
ghost use Rattle.circuit_commands.specs.steps.FaultLimits.{fault_limit};

use crate::circuits::{Written, add_bare, store_sim};
use crate::limits::Limit;
use ext_model::FetRec;
use flatten::{FetSink, GivenCircuit};
use names_lists::Name;
use session_model::{Halt, ReportLine};
use sim_records::SimDraft;
use sim_text::SimFault;
use std::alloc::{AllocError, Global};

/// The sim text of a circuit, and the lines that tell of its transistors without terminals, as far as transistors were given.
#[derive(Drop)]
pub struct SimFets {
    alloc: Global,
    draft: SimDraft,
    bare: Vec<ReportLine>,
}

impl FetSink for SimFets {
    ghost use Rattle.sim_records.specs.SimRecords.{HasLetterAndLengths};
    ghost use Rattle.circuit_commands.specs.GivenFets.{HasSimFets};

    ghost fits = { HasLetterAndLengths };

    ghost has = { HasSimFets };

    fn begin(alloc: Global, tech: &Name) -> Result<SimFets, AllocError> {
        Ok(SimFets {
            alloc,
            draft: SimDraft::new(alloc, tech)?,
            bare: Vec::new(alloc),
        })
    }

    fn give(&mut self, fet: FetRec) -> Result<(), AllocError> {
        self.draft.add_fet(&fet)?;
        add_bare(self.alloc, &mut self.bare, &fet)
    }
}

// The limit that a circuit passes, of which no sim text was made.
fn fault_limit(fault: SimFault) -> Result<Limit, Halt>
    ensures limit { IfOk result (λ limit. limit ≡ fault_limit fault) }
    ensures passed { IfOk result (λ limit. fault ≢ SimFault.Memory) }
    ensures memory { IsOkUnless result Halt.Memory }
{
    match fault {
        SimFault::Memory => Err(Halt::Memory),
        SimFault::TooMany(_) => Ok(Limit::Switches),
        _ => Ok(Limit::Text),
    }
}

/// Writes the sim file of the circuit of the cell of this name, whose transistors were given.
pub fn write_given(
    alloc: Global,
    name: &Name,
    circuit: GivenCircuit<SimFets>,
) -> Result<Written, Halt>
    ensures written { IfOk result (λ written. (fets : List FlatFet) → HasSimFets circuit.sink circuit.tech fets →
        IsSimWritten name.now (with_fets circuit fets) written) }
    ensures memory { IsOkUnless result Halt.Memory }
{
    let GivenCircuit {
        tech: _,
        classes: _,
        nodes,
        sink: SimFets {
            alloc: _,
            draft,
            bare,
        },
    } = circuit;
    match draft.finish(nodes.items()) {
        Ok(text) => store_sim(alloc, name, nodes.items().len(), bare, text),
        Err(fault) => Ok(Written::Passed(fault_limit(fault)?)),
    }
}
