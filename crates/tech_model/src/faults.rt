//! Why a technology is refused.

use names_lists::Name;
use std::alloc::AllocError;
use thiserror::Error;

/// A section of a technology file that means something.
#[derive(Clone, Copy, Debug, PartialEq, Eq)]
pub enum Section {
    Tech,
    Planes,
    Types,
    Contact,
    Compose,
    Connect,
    Extract,
}

/// A list of a technology that has a limit.
#[derive(Clone, Copy, Debug, PartialEq, Eq)]
pub enum LimitedList {
    /// At most `MOST_PLANES`.
    Planes,
    /// At most `MOST_TYPES`, without space.
    Types,
    /// At most `MOST_CLASSES`.
    Classes,
    /// At most `MOST_FETS`.
    Fets,
}

/// Why a technology is refused, with the words that its text has.
#[derive(Debug, Drop, Error)]
pub enum TechFault {
    /// A section that must be there is missing.
    #[error("a section is missing")]
    NoSection(Section),
    /// There is no plane of this name.
    #[error("no such plane")]
    NoPlane(Name),
    /// There is no layer of this name, or it has no image on the plane that is asked for.
    #[error("no such layer")]
    NoType(Name),
    /// What may be there once is there a second time.
    #[error("twice")]
    Twice(Name),
    /// Two types of one plane have one set.
    #[error("two types have one set")]
    SameSet(Name, Name),
    /// A contact is part of what only other types may be parts of.
    #[error("a contact as a part")]
    ContactPart(Name),
    /// `s` connects to `t`, but what they may widen to does not connect: the words are `s t S T`.
    #[error("not monotone")]
    NotMonotone(Name, Name, Name, Name),
    /// A transistor's type connects to a type of its own terminals.
    #[error("a transistor connects to its terminal")]
    FetTerminal(Name, Name),
    /// A transistor's name begins with none of e, n, p and d.
    #[error("not the name of a transistor")]
    FetName(Name),
    /// More of these than there may be.
    #[error("too many")]
    TooMany(LimitedList),
    /// A line or a section is not of its form.
    #[error("bad form")]
    BadForm,
    /// A type expression that is left out.
    #[error("type expression")]
    TypeExpression(Name),
    /// There was not enough memory.
    #[error("out of memory")]
    Memory,
}

impl From<AllocError> for TechFault {
    ghost use Rattle.std.specs.Prelude.{◌≡◌};
    ghost use Rattle.tech_model.specs.declared.faults.TechFault.TheVariants.{Memory};

    ghost from_gives = { λ _ fault. fault ≡ Memory };

    fn from(_error: AllocError) -> TechFault {
        TechFault::Memory
    }
}
