//! The names of a record's nodes, in the order of their bytes.

ghost use Rattle.std.specs.Prelude.{◌≡◌, ◌⊎◌, ◌∷◌, ◌++◌, [], Some, true, filter, length, slice_get, IfOk, OnOk, IfSome, IfNone};
ghost use Rattle.ext_model.specs.FiniteSets.Lists.{In};
ghost use Rattle.ext_model.specs.RecordNames.{names_of};
ghost use Rattle.full_names.specs.declared.own_names.OwnName.{OwnName};
ghost use Rattle.full_names.specs.OwnNames.{is_marked, is_wanted, texts_of, AreInByteOrder, AreOwnNames, AreRecordNames, AreAllNames};

use ext_model::{CellExt, NameKind, NodeRec, kind_of_name};
use std::alloc::{AllocError, Global};

/// A name of a node of a record, and the number of the node there.
#[derive(Clone, Copy, Debug, PartialEq, Eq, PartialOrd, Ord)]
pub(crate) struct OwnName<'a> {
    pub text: &'a [u8],
    pub node: usize,
}

/// The names of a record's nodes in the order of their bytes: those that are not global, and those that are.
#[derive(Drop)]
pub(crate) struct RecordNames<'a> {
    pub locals: Vec<OwnName<'a>>,
    pub globals: Vec<OwnName<'a>>,
}

/// Whether a name of a node is global.
pub(crate) fn is_global_name(name: &[u8]) -> bool
    ensures { result ≡ is_marked name.now }
{
    match kind_of_name(name) {
        NameKind::Global => true,
        NameKind::Label | NameKind::Generated => false,
    }
}

// adds a name if it is of the kind that is wanted
fn add_name<'a>(
    names: &mut Vec<OwnName<'a>>,
    text: &'a [u8],
    node: usize,
    global: bool,
) -> Result<(), AllocError>
    ensures texts { OnOk result (texts_of names.new.items ≡ texts_of names.old.items ++ filter (is_wanted global) (text.now ∷ [])) }
    ensures nodes { OnOk result ((name : OwnName) → In name names.new.items
        → In name names.old.items ⊎ ((name.text.now ≡ text.now) × (name.node ≡ node))) }
{
    if is_global_name(text) == global {
        names.push(OwnName { text, node })?;
    }
    Ok(())
}

// adds the names of a node that are of the kind that is wanted
fn add_names<'a>(
    names: &mut Vec<OwnName<'a>>,
    node: &'a NodeRec,
    number: usize,
    global: bool,
) -> Result<(), AllocError>
    ensures texts { OnOk result (texts_of names.new.items ≡ texts_of names.old.items ++ filter (is_wanted global) (names_of node.now)) }
    ensures nodes { OnOk result ((name : OwnName) → In name names.new.items
        → In name names.old.items ⊎ (In name.text.now (names_of node.now) × (name.node ≡ number))) }
{
    add_name(names, node.name.bytes(), number, global)?;
    for alias in node.aliases.items() {
        add_name(names, alias.bytes(), number, global)?;
    }
    Ok(())
}

// the names of the nodes of a record that are of the kind that is wanted
fn own_names<'a>(
    alloc: Global,
    ext: &'a CellExt,
    global: bool,
) -> Result<Vec<OwnName<'a>>, AllocError>
    ensures { IfOk result (λ names. AreOwnNames global ext.now names.items) }
{
    let mut names = Vec::new(alloc);
    for (number, node) in ext.nodes.items().iter().enumerate() {
        add_names(&mut names, node, number, global)?;
    }
    names.sort_unstable();
    Ok(names)
}

/// The names of a record. It takes time for a sort of them.
pub(crate) fn record_names<'a>(
    alloc: Global,
    ext: &'a CellExt,
) -> Result<RecordNames<'a>, AllocError>
    ensures { IfOk result (λ names. AreRecordNames ext.now names) }
{
    Ok(RecordNames {
        locals: own_names(alloc, ext, false)?,
        globals: own_names(alloc, ext, true)?,
    })
}

/// The place of a name in a list of names that is in the order of bytes.
pub(crate) fn place_of(names: &[OwnName<'_>], text: &[u8]) -> Option<usize>
    requires { AreInByteOrder (texts_of names.now) }
    ensures some { IfSome result (λ place. slice_get (texts_of names.now) place ≡ Some text.now) }
    ensures none { IfNone result (In text.now (texts_of names.now) → ⊥) }
{
    names.binary_search_by(|name| name.text.cmp(text)).ok()
}

// the names of a record that is reached; of another none are wanted
fn names_if_reached<'a>(
    alloc: Global,
    ext: &'a CellExt,
    reached: bool,
) -> Result<RecordNames<'a>, AllocError>
    ensures { reached ≡ true → IfOk result (λ names. AreRecordNames ext.now names) }
{
    if reached {
        record_names(alloc, ext)
    } else {
        Ok(RecordNames {
            locals: Vec::new(alloc),
            globals: Vec::new(alloc),
        })
    }
}

/// The names of each record that is reached.
pub(crate) fn all_record_names<'a>(
    alloc: Global,
    exts: &'a [CellExt],
    reached: &[bool],
) -> Result<Vec<RecordNames<'a>>, AllocError>
    requires { length reached.now ≡ length exts.now }
    ensures { IfOk result (λ records. AreAllNames exts.now reached.now records.items) }
{
    let mut records = Vec::with_capacity(alloc, exts.len())?;
    for (cell, ext) in exts.iter().enumerate() {
        records.push(names_if_reached(alloc, ext, reached[cell])?)?;
    }
    Ok(records)
}
