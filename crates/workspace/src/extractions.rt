//! What the commands have in common that extract a cell.
ghost use Rattle.std.specs.Prelude.{◌≡◌, ◌<◌, ◌∷◌, Some, All, length, map, IfErr, IfOk, IsOkUnless, OnErr};
ghost use Rattle.std.specs.List.{flat_map};
ghost use Rattle.ext_cache.specs.CellLibrary.Libraries.{seen};
ghost use Rattle.ext_cache.specs.CellLibrary.Views.{view_at};
ghost use Rattle.ext_cache.specs.Caches.{Agrees, Extracts};
ghost use Rattle.ext_cache.specs.Refusals.{IsUncleanFault};
ghost use Rattle.workspace.specs.KeptSessions.{IsEdited, edited_state};
ghost use Rattle.ext_model.specs.LawfulArrays.{IsLawfulArrayExt};
ghost use Rattle.workspace.specs.Extracting.{HasLawfulRecord, IsExtracted, kept_store, told_lines};
ghost use Rattle.workspace.specs.Extractions.{ext_store, unattached_line, unclean_refusal};
ghost use Rattle.line_answers.specs.Refusals.{refusal_line};
ghost use Rattle.library_answers.specs.Offending.{offending_line};

use crate::cells::Edited;
use ext_cache::cell_library::{Library, Opened, Reader};
use ext_cache::{Cache, ExtractFault, Extracted, Unclean, extract_dirty};
use ext_model::{ArrayExt, CellKey};
use ext_text::write_ext;
use library_answers::offending_lines;
use line_answers::{append_with_name, file_name, named, refused_line, reply};
use names_lists::{List, Name};
use session_model::{Halt, ReportLine, Store};
use std::alloc::{AllocError, Global};
use std::marker::Brand;
use std::sync::ledger::{Blank, Ledger};

/// What an extraction comes to: the lines of the labels that name nothing, the files that it stores, and how many records it makes.
#[derive(Debug, Drop)]
pub struct Extraction {
    pub lines: List<ReportLine>,
    pub stores: List<Store>,
    pub count: usize,
}

/// The extraction of a cell, or the lines that refuse it since a cell at or below it is not clean.
#[derive(Debug, Drop)]
pub enum Extracting {
    Done(Extraction),
    Refused(List<ReportLine>),
}

/// Extracts a cell, for the script's line of this number: makes the record of each dirty cell at and below it.
pub fn extract_cell(
    alloc: Global,
    edited: &mut Edited,
    number: usize,
    cell: CellKey,
) -> Result<Extracting, Halt>
    requires edited { IsEdited edited.old }
    requires cell { cell.0 < length edited.old.library.contents }
    ensures extracted { IfOk result (IsExtracted number (edited_state edited.old) (edited_state edited.new) cell.0) }
    ensures library { edited.new.library ≡ edited.old.library }
    ensures log { edited.new.log ≡ edited.old.log }
    ensures edited { IsEdited edited.new }
    ensures memory { IsOkUnless result Halt.Memory }
{
    let library = edited.library.reader();
    library.lawful();
    let owner = &edited.library;
    match extract_root::<Brand>(Blank::new(1), owner, &mut edited.cache, &library, cell) {
        Ok(made) => {
            let extraction = records_made(alloc, &library, &edited.cache, made.as_slice())?;
            Ok(Extracting::Done(extraction))
        }
        Err(ExtractFault::Unclean(found)) => {
            let lines = unclean_lines(alloc, number, &library, &found)?;
            Ok(Extracting::Refused(List::of(lines)))
        }
        Err(ExtractFault::Memory) => Err(Halt::Memory),
    }
}

// Extracts what is dirty at and below the cell, in a count that the reader's owner makes.
fn extract_root<L: Ledger>(
    blank: Blank,
    owner: &Library,
    cache: &mut Cache,
    library: &Reader<'_>,
    cell: CellKey,
) -> Result<Vec<Extracted>, ExtractFault>
    requires name { blank.name ≡ L.name }
    requires parts { blank.parts ≡ L.parts }
    requires some_part { 0 < blank.parts }
    requires root { cell.0 < length library.now.contents }
    requires agrees { Agrees library.now cache.old }
    ensures extracted { IfOk result (λ made. Extracts library.now cache.old cell.0 cache.new made.items) }
    ensures agrees { Agrees library.now cache.new }
    ensures unclean { IfErr result (IsUncleanFault (seen library.now) cell.0) }
    ensures refused { OnErr result (cache.new ≡ cache.old) }
{
    let mut steps: Opened<L> = owner.count(blank);
    extract_dirty(cache, library, cell, &mut steps)
}

// What an extraction comes to that makes the records of these cells.
fn records_made(
    alloc: Global,
    library: &Reader<'_>,
    cache: &Cache,
    made: &[Extracted],
) -> Result<Extraction, Halt>
    requires cells { All (λ told. told.cell.0 < length library.now.contents) made.now }
    requires kept { All (HasLawfulRecord cache.now) made.now }
    ensures lines { IfOk result (λ made_of. made_of.lines ≡ flat_map (told_lines (seen library.now)) made.now) }
    ensures stores { IfOk result (λ made_of. map (λ store. Some store) made_of.stores ≡ map (kept_store (seen library.now) cache.now) made.now) }
    ensures count { IfOk result (λ made_of. made_of.count ≡ length made.now) }
    ensures memory { IsOkUnless result Halt.Memory }
{
    Ok(Extraction {
        lines: List::of(lines_told(alloc, library, made)?),
        stores: List::of(records_stored(alloc, library, cache, made)?),
        count: made.len(),
    })
}

// The lines of the labels that name nothing, for each cell of which a record was made.
fn lines_told(
    alloc: Global,
    library: &Reader<'_>,
    made: &[Extracted],
) -> Result<Vec<ReportLine>, AllocError>
    requires { All (λ told. told.cell.0 < length library.now.contents) made.now }
    ensures { IfOk result (λ lines. lines.items ≡ flat_map (told_lines (seen library.now)) made.now) }
{
    let mut lines = Vec::new(alloc);
    for extracted in made {
        let name = library.name_of(extracted.cell);
        let mut told = unattached_lines(alloc, name, extracted.unattached.items())?;
        lines.append(&mut told)?;
    }
    Ok(lines)
}

// The files of the records that were made.
fn records_stored(
    alloc: Global,
    library: &Reader<'_>,
    cache: &Cache,
    made: &[Extracted],
) -> Result<Vec<Store>, Halt>
    requires cells { All (λ told. told.cell.0 < length library.now.contents) made.now }
    requires kept { All (HasLawfulRecord cache.now) made.now }
    ensures stores { IfOk result (λ stores. map (λ store. Some store) stores.items ≡ map (kept_store (seen library.now) cache.now) made.now) }
    ensures memory { IsOkUnless result Halt.Memory }
{
    let mut stores = Vec::with_capacity(alloc, made.len())?;
    for extracted in made {
        let Some(ext) = cache.kept(extracted.cell) else {
            unreachable!()
        };
        let name = library.name_of(extracted.cell);
        let store = record_stored(alloc, name, ext)?;
        let Ok(()) = stores.push(store) else {
            return Err(Halt::Memory);
        };
    }
    Ok(stores)
}

// The file of the record of the cell of this name.
fn record_stored(alloc: Global, name: &Name, ext: &ArrayExt) -> Result<Store, Halt>
    requires { IsLawfulArrayExt ext.now }
    ensures store { IfOk result (λ store. store ≡ ext_store name.now ext.now) }
    ensures memory { IsOkUnless result Halt.Memory }
{
    let Ok(text) = write_ext(alloc, ext) else {
        return Err(Halt::Memory);
    };
    Ok(Store {
        name: file_name(alloc, name, b".ext")?,
        bytes: List::of(text),
    })
}

// The lines of labels that name nothing, by their texts.
fn unattached_lines(
    alloc: Global,
    cell: &Name,
    texts: &[Name],
) -> Result<Vec<ReportLine>, AllocError>
    ensures { IfOk result (λ lines. lines.items ≡ map (unattached_line cell.now) texts.now) }
{
    let mut lines = Vec::with_capacity(alloc, texts.len())?;
    for text in texts {
        lines.push(unattached_line(alloc, cell, text)?)?;
    }
    Ok(lines)
}

// The line of a label that names nothing, by its text.
fn unattached_line(alloc: Global, cell: &Name, label: &Name) -> Result<ReportLine, AllocError>
    ensures { IfOk result (λ line. line ≡ unattached_line cell.now label.now) }
{
    let mut text = Vec::new(alloc);
    append_with_name(&mut text, b"unattached ", cell)?;
    append_with_name(&mut text, b" ", label)?;
    Ok(reply(text))
}

// The lines that refuse an extraction, for the script's line of this number: that the cell is not clean, and the squares that offend.
fn unclean_lines(
    alloc: Global,
    number: usize,
    library: &Reader<'_>,
    found: &Unclean,
) -> Result<Vec<ReportLine>, Halt>
    requires cell { found.now.cell.0 < length library.now.contents }
    requires planes { All (λ strip. strip.0 < length library.now.tech.planes) found.now.squares }
    ensures lines { let view = seen library.now in let name = (view_at view found.now.cell.0).name in IfOk result (λ lines. lines.items
        ≡ refusal_line number (unclean_refusal name) ∷ map (offending_line view.tech name) found.now.squares) }
    ensures memory { IsOkUnless result Halt.Memory }
{
    let refusal = named(alloc, b"E19 unclean ", library.name_of(found.cell))?;
    let mut lines = refused_line(alloc, number, refusal)?;
    let mut offending = offending_lines(alloc, library, found.cell, found.squares.items())?;
    lines.append(&mut offending)?;
    Ok(lines)
}
