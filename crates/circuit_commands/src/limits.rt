//! The limits of circuits and of their texts.
ghost use Rattle.std.specs.Prelude.{◌≡◌};
ghost use Rattle.circuit_commands.specs.Refusals.{circuit_limit_word, limit_word};

use circuit_model::CircuitLimit;

/// What a circuit, its sim records or its text would have too many of.
#[derive(Clone, Copy, Debug, PartialEq, Eq)]
pub enum Limit {
    /// What the records of a circuit may have too many of.
    Circuit(CircuitLimit),
    /// Switches of its sim records.
    Switches,
    /// Bytes of a text that is written.
    Text,
}

/// The word of a limit.
pub fn limit_word(limit: Limit) -> &'static [u8]
    ensures { result.now ≡ limit_word limit }
{
    match limit {
        Limit::Circuit(limit) => circuit_limit_word(limit),
        Limit::Switches => b"Switches",
        Limit::Text => b"Text",
    }
}

/// The word of a limit of records.
pub fn circuit_limit_word(limit: CircuitLimit) -> &'static [u8]
    ensures { result.now ≡ circuit_limit_word limit }
{
    match limit {
        CircuitLimit::Depth => b"Depth",
        CircuitLimit::Elements => b"Elements",
        CircuitLimit::Nodes => b"Nodes",
        CircuitLimit::Names => b"Names",
        CircuitLimit::Merges => b"Merges",
    }
}
