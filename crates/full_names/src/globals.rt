//! The global names of the nodes of a tree, each once.

ghost use Rattle.std.specs.Prelude.{◌≡◌, ◌⊎◌, ◌↔◌, ◌<◌, length, All, Some, IsTrue, slice_get, IfOk, OnOk, IfSome, IfNone, IsSorted};
ghost use Rattle.ext_model.specs.FiniteSets.Lists.{In};
ghost use Rattle.circuit_model.specs.FullNames.{AreInNameOrder};
ghost use Rattle.full_names.specs.declared.own_names.OwnName.{OwnName};
ghost use Rattle.full_names.specs.declared.globals.GlobalName.{GlobalName};
ghost use Rattle.full_names.specs.Reached.{AreOfRecords};
ghost use Rattle.full_names.specs.Globals.{global_texts, global_cmp, AreFound, IsFound, IsOwnGlobal, EndsWith, AreOnce, AreGlobalNames};

use crate::own_names::{OwnName, RecordNames};
use element_tree::ElementTree;
use ext_model::compare_names;
use std::alloc::{AllocError, Global};

/// A global name, and where it comes from: the first element that has it, and its node there.
#[derive(Clone, Copy, Debug, PartialEq, Eq, PartialOrd, Ord)]
pub(crate) struct GlobalName<'a> {
    pub length: usize,
    pub text: &'a [u8],
    pub element: usize,
    pub node: usize,
}

// adds the global names of an element's record
fn add_globals<'a>(
    found: &mut Vec<GlobalName<'a>>,
    names: &[OwnName<'a>],
    element: usize,
) -> Result<(), AllocError>
    ensures old { OnOk result ((name : GlobalName) → In name found.old.items → In name found.new.items) }
    ensures from { OnOk result ((name : GlobalName) → In name found.new.items → In name found.old.items ⊎ IsOwnGlobal names.now element name) }
    ensures all { OnOk result ((own : OwnName) → In own names.now → IsFound found.new.items own.text.now element) }
{
    for name in names {
        let OwnName { text, node } = *name;
        found.push(GlobalName {
            length: text.len(),
            text,
            element,
            node,
        })?;
    }
    Ok(())
}

// the global names of the first elements of all records, in name order, those of one text in the order of their elements
fn found_globals<'a>(
    alloc: Global,
    tree: &ElementTree,
    firsts: &[usize],
    records: &[RecordNames<'a>],
) -> Result<Vec<GlobalName<'a>>, AllocError>
    requires cells { AreOfRecords (length records.now) tree.now.elements }
    requires firsts { All (λ first. first < length tree.now.elements) firsts.now }
    ensures found { IfOk result (λ found. AreFound tree.now.elements records.now firsts.now found.items) }
    ensures in_order { IfOk result (λ found. IsSorted global_cmp found.items) }
{
    let elements = tree.elements.items();
    let mut found = Vec::new(alloc);
    for first in firsts {
        let cell = elements[*first].cell;
        add_globals(&mut found, records[cell].globals.as_slice(), *first)?;
    }
    found.sort_unstable();
    Ok(found)
}

// whether the last of the names has this text
fn ends_with(names: &[GlobalName<'_>], text: &[u8]) -> bool
    ensures { IsTrue result ↔ EndsWith names.now text.now }
{
    match names.last() {
        Some(last) => last.text == text,
        None => false,
    }
}

// the first of the names with each text, where those of one text stand together
fn each_once<'a>(alloc: Global, found: &[GlobalName<'a>]) -> Result<Vec<GlobalName<'a>>, AllocError>
    requires in_order { IsSorted global_cmp found.now }
    requires long { (name : GlobalName) → In name found.now → name.length ≡ length name.text.now }
    ensures { IfOk result (λ names. AreOnce found.now names.items) }
{
    let mut names = Vec::new(alloc);
    for name in found {
        if !ends_with(names.as_slice(), name.text) {
            names.push(*name)?;
        }
    }
    Ok(names)
}

/// The global names of a tree in name order, from the first elements of its records. It takes time for a sort of the names of these.
pub(crate) fn global_names<'a>(
    alloc: Global,
    tree: &ElementTree,
    firsts: &[usize],
    records: &[RecordNames<'a>],
) -> Result<Vec<GlobalName<'a>>, AllocError>
    requires cells { AreOfRecords (length records.now) tree.now.elements }
    requires firsts { All (λ first. first < length tree.now.elements) firsts.now }
    ensures { IfOk result (λ names. AreGlobalNames tree.now.elements records.now firsts.now names.items) }
{
    let found = found_globals(alloc, tree, firsts, records)?;
    each_once(alloc, &found)
}

/// The place of a global name in the list of all.
pub(crate) fn global_place(names: &[GlobalName<'_>], text: &[u8]) -> Option<usize>
    requires { AreInNameOrder (global_texts names.now) }
    ensures some { IfSome result (λ place. slice_get (global_texts names.now) place ≡ Some text.now) }
    ensures none { IfNone result (In text.now (global_texts names.now) → ⊥) }
{
    names
        .binary_search_by(|name| compare_names(name.text, text))
        .ok()
}
