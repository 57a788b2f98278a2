//! The records whole.
ghost use Rattle.std.specs.Prelude.{◌≡◌, ◌⊎◌, ◌≤◌, ◌++◌, length, All, IfOk, IfErr};
ghost use Rattle.sim_records.specs.declared.limits.TheConstants.{MOST_SWITCHES};
ghost use Rattle.sim_records.specs.SimRecords.{sim_of, HasLetterAndLengths, HasTooManySwitches};

use crate::caps::{all_aliases, caps_of};
use crate::switches::add_switches;
use ext_model::Circuit;
use names_lists::List;
use sim_text::{SimFault, SimFile};
use std::alloc::Global;

/// The sim records of a circuit: a switch for each two terminals of each transistor, and one from a lone terminal to itself; the
/// capacitance of each node in thousands of attofarads; and each alias of each node, all in the order of the circuit. It takes time linear
/// in what it gives.
///
/// Each transistor has a name, whose first byte is its letter, and lengths below 2^124 in absolute value. More than `MOST_SWITCHES`
/// switches are refused as `TooMany(Switches)`; beside that `Memory` alone refuses.
pub fn sim_of(alloc: Global, circuit: &Circuit) -> Result<SimFile, SimFault>
    requires { All HasLetterAndLengths circuit.now.fets }
    ensures records { IfOk result (λ sim. sim ≡ sim_of circuit.now) }
    ensures few { IfOk result (λ sim. length sim.fets ≤ MOST_SWITCHES) }
    ensures fault { IfErr result (λ fault. (fault ≡ SimFault.Memory) ⊎ HasTooManySwitches fault circuit.now) }
{
    let mut switches = Vec::new(alloc);
    for fet in circuit.fets.items() {
        add_switches(alloc, &mut switches, fet)?;
    }
    Ok(SimFile {
        tech: circuit.tech.copy(alloc)?,
        fets: List::of(switches),
        caps: List::of(caps_of(alloc, circuit.nodes.items())?),
        aliases: List::of(all_aliases(alloc, circuit.nodes.items())?),
    })
}
