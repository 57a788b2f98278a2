//! The limits of technologies. Clauses read them by their names.

/// The planes that there may be.
pub const MOST_PLANES: usize = 8;

/// The tile types that there may be, without space. Their numbers are those from 1 to this one.
pub const MOST_TYPES: usize = 64;

/// The classes that there may be.
pub const MOST_CLASSES: usize = 16;

/// The transistor types that there may be.
pub const MOST_FETS: usize = 16;

/// The bits of a set of parts: those below `FIRST_MARK` are of atoms, the others of marks of contacts.
pub const PART_BITS: usize = 128;

/// The first bit that the mark of a contact may have.
pub const FIRST_MARK: u8 = 64;

/// The greatest resistance and the greatest capacitances that a class may have.
pub const LARGEST_MEASURE: u64 = 1_000_000;

/// The bytes that the text of a label that names may have.
pub const LONGEST_LABEL: usize = 255;
