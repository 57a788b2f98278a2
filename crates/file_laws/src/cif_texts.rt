//! The CIF text of a cell is read without fault, and what is read is what the cell says. A law: the function here does nothing, and its contract
//! is the law.
//!
//! What the text of a cell is stands in `cif_writing` (`IsCifText`), what a text is read as in `cif_reading` (`cif_in`), and what a cell says in
//! `specs/CellCifs.antt`: a symbol for each cell at or below it, children before parents, with the strips of each part as boxes and with a call for
//! each element, and a call of the cell's own.
//!
//! # How the proof goes
//!
//! Each line of the text is a command with its semicolon, so the text is read as one fold over its commands (`proofs/ReadLines.antt`). Each command
//! is without fault where it stands, and adds what it was written for (`proofs/ReadCommands.antt`, `proofs/ReadCalls.antt`): its numbers have 32
//! bits, and half of twice an edge or a shift is whole, and is the edge or the shift (`proofs/HalfNumbers.antt`).
//!
//! Lines that are read one after another are then put together, from the bottom up: the boxes of a part, of which the first puts a layer of the
//! part's name among the layers where there is none (`proofs/ReadParts.antt`); the parts and the uses of a cell (`proofs/ReadRuns.antt`), and its
//! symbol (`proofs/ReadSymbols.antt`); the symbols of a library order (`proofs/ReadOrders.antt`); and the text (`proofs/WrittenCells.antt`). Layers come
//! behind those that are there, so what was read keeps its layers (`proofs/KeptSymbols.antt`).
//!
//! In a library order each cell stands once and behind the children of its uses (`proofs/LibraryOrders.antt`). So the symbols that have been read
//! are numbered from 1, the next number is new, and the symbol of a child is found at the child's place (`proofs/NumberedSymbols.antt`).
//!
//! That numbers have 32 bits is a fact of lawful libraries (`proofs/LibraryNumbers.antt`). The strip of a part has material in its corners, and
//! material lies in the cell's hull, which is in range. An element whose cell has a hull takes it into the range too, so it is not displaced far;
//! where the cell has no hull, nothing is written, and nothing need be known.

ghost use Rattle.file_laws.specs.WrittenTexts.{WrittenTextsAreRead};

/// A law: the CIF text of each cell of a lawful library is read without fault, however long it is, and what is read is what the cell says: its
/// symbols are those of the cells at or below it, in library order, and its top level is a call of the cell's own.
pub fn written_texts_are_read()
    ensures { WrittenTextsAreRead }
{}
