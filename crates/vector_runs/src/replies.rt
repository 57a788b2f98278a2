//! What the lines of a vector file reply.
ghost use Rattle.std.specs.Prelude.{◌≡◌, ◌++◌, ◌∷◌, [], IfOk};
ghost use Rattle.text_scan.specs.Decimal.{decimal};
ghost use Rattle.vector_runs.specs.Replies.{level_text, reply_text};
ghost use Rattle.vector_runs.specs.declared.replies.VecReply.TheVariants.{Settled, Unsettled, Shown};

use names_lists::Name;
use std::alloc::{AllocError, Global};
use switch_net::Level;
use text_scan::append_decimal;

/// What a line replies.
#[derive(Debug, Drop)]
pub enum VecReply {
    /// The phase of this number, from 1, settled after so many steps.
    Settled(usize, u32),
    /// The phase of this number did not settle within the budget.
    Unsettled(usize),
    /// The node of this name is in this state.
    Shown(Name, Level),
}

impl VecReply {
    /// The line of the reply, without a line feed: `phase K settled S`, `phase K unsettled` or `NAME=LEVEL`.
    pub fn text(&self, alloc: Global) -> Result<Vec<u8>, AllocError>
        ensures { IfOk result (λ text. text.items ≡ reply_text self.now) }
    {
        match self {
            VecReply::Settled(phase, steps) => settled_text(alloc, *phase, *steps),
            VecReply::Unsettled(phase) => unsettled_text(alloc, *phase),
            VecReply::Shown(name, level) => shown_text(alloc, name, *level),
        }
    }
}

fn settled_text(alloc: Global, phase: usize, steps: u32) -> Result<Vec<u8>, AllocError>
    ensures { IfOk result (λ text. text.items ≡ reply_text (Settled phase steps)) }
{
    let mut text = Vec::from_slice(alloc, b"phase ")?;
    append_decimal(&mut text, phase as i128)?;
    text.extend_from_slice(b" settled ")?;
    append_decimal(&mut text, steps as i128)?;
    Ok(text)
}

fn unsettled_text(alloc: Global, phase: usize) -> Result<Vec<u8>, AllocError>
    ensures { IfOk result (λ text. text.items ≡ reply_text (Unsettled phase)) }
{
    let mut text = Vec::from_slice(alloc, b"phase ")?;
    append_decimal(&mut text, phase as i128)?;
    text.extend_from_slice(b" unsettled")?;
    Ok(text)
}

fn shown_text(alloc: Global, name: &Name, level: Level) -> Result<Vec<u8>, AllocError>
    ensures { IfOk result (λ text. text.items ≡ reply_text (Shown name.now level)) }
{
    let mut text = Vec::from_slice(alloc, name.bytes())?;
    text.push(b'=')?;
    text.push(level_byte(level))?;
    Ok(text)
}

/// The byte of a state: `0`, `1` or `X`.
pub fn level_byte(level: Level) -> u8
    ensures { result ∷ [] ≡ level_text level }
{
    match level {
        Level::Zero => b'0',
        Level::One => b'1',
        Level::X => b'X',
    }
}
