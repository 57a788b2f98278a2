//! Reads a vector file.
ghost use Rattle.std.specs.Prelude.{◌≡◌, ◌≢◌, Ok, Err, OnOk, IfOk, IfErr};
ghost use Rattle.vector_files.specs.declared.faults.VecFault.TheVariants.{Memory as OutOfMemory};
ghost use Rattle.vector_files.specs.VectorFiles.{IsWithin, nothing_yet, vectors_in, with_said};

use crate::adding::put;
use crate::faults::{VecAt, VecFault};
use crate::files::{VecLine, Vectors};
use crate::line_forms::says;
use crate::nodes::NodeNames;
use names_lists::List;
use std::alloc::Global;
use std::marker::Model;
use switch_net::NamedNet;
use text_form::{At, LineReader, read_text};

/// A vector file as far as its lines are read. Contracts see it as the lines.
#[derive(Drop)]
struct VecDraft {
    alloc: Global,
    said: Vec<(u32, VecLine)>,
}

impl Model for VecDraft {
    ghost use Rattle.vector_files.specs.declared.files.Vectors.{Vectors};

    ghost Value = { Vectors };

    ghost view = { λ draft. record { lines = draft.said.items } };
}

impl VecDraft {
    fn new(alloc: Global) -> VecDraft
        ensures { result ≡ nothing_yet }
    {
        VecDraft {
            alloc,
            said: Vec::new(alloc),
        }
    }

    fn add(&mut self, said: Option<(u32, VecLine)>) -> Result<(), VecFault>
        ensures read { OnOk result (self.new ≡ with_said self.old said) }
        ensures refused { IfErr result (λ fault. fault ≡ OutOfMemory) }
    {
        if let Some(line) = said {
            put(&mut self.said, line)?;
        }
        Ok(())
    }

    fn into_vectors(self) -> Vectors
        ensures { result ≡ self }
    {
        let VecDraft { alloc: _, said } = self;
        Vectors {
            lines: List::of(said),
        }
    }
}

impl LineReader for VecDraft {
    ghost use Rattle.std.specs.Prelude.{Ok};
    ghost use Rattle.vector_files.specs.declared.faults.VecFault.TheVariants.{Memory};
    ghost use Rattle.text_form.specs.SaidLines.{saying};
    ghost use Rattle.vector_files.specs.LineForms.{says};
    ghost use Rattle.vector_files.specs.VectorFiles.{with_said};

    type Context = NodeNames;

    type Fault = VecFault;

    ghost memory = { Memory };

    ghost step = { λ names. saying (says names) with_said };

    ghost finish = { λ _. Ok };

    fn memory() -> VecFault {
        VecFault::Memory
    }

    fn read_line(&mut self, names: &NodeNames, number: usize, line: &[u8]) -> Result<(), VecFault> {
        let said = says(self.alloc, names, number, line)?;
        self.add(said)
    }

    fn end(&mut self, _names: &NodeNames) -> Result<(), VecFault> {
        Ok(())
    }
}

// The lines of a vector file for a network with these names.
#[tactic(auto, unfolding(crate::specs::VectorFiles::vectors_in))]
fn read_lines(alloc: Global, text: &[u8], names: &NodeNames) -> Result<Vectors, VecAt>
    ensures read { IfOk result (λ vectors. vectors_in names.now text.now ≡ Ok vectors) }
    ensures refused { IfErr result (λ at. at.fault ≢ OutOfMemory → vectors_in names.now text.now ≡ Err at) }
{
    let mut draft = VecDraft::new(alloc);
    match read_text(&mut draft, names, text) {
        Ok(()) => Ok(draft.into_vectors()),
        Err(at) => Err(at),
    }
}

/// The lines of a vector file for a network. It takes time near-linear in the names of the network and the file.
///
/// # Errors
///
/// The number of the first faulty line and its first fault, or want of memory.
pub fn read_vectors(alloc: Global, text: &[u8], net: &NamedNet) -> Result<Vectors, VecAt>
    ensures read { IfOk result (λ vectors. vectors_in net.now.names text.now ≡ Ok vectors) }
    ensures within { IfOk result (IsWithin net.now) }
    ensures refused { IfErr result (λ at. at.fault ≢ OutOfMemory → vectors_in net.now.names text.now ≡ Err at) }
{
    match NodeNames::of(alloc, net.names.items()) {
        Ok(names) => read_lines(alloc, text, &names),
        Err(_) => Err(At {
            line: 0,
            fault: VecFault::Memory,
        }),
    }
}
