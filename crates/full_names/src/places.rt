//! The names of all elements that are not global, by numbers.

ghost use Rattle.std.specs.Prelude.{◌≡◌, ◌++◌, map, length, IfOk, OnOk};
ghost use Rattle.std.specs.List.{range_with_len};
ghost use Rattle.full_names.specs.Reached.{AreOfRecords};
ghost use Rattle.full_names.specs.declared.places.Place.{Place};
ghost use Rattle.full_names.specs.Places.{ArePlaces, places_of};

use crate::own_names::RecordNames;
use element_tree::ElementTree;
use std::alloc::{AllocError, Global};

/// A name that is not global: the number of its element, and the name's place among those of the record.
#[derive(Clone, Copy, Debug, PartialEq, Eq)]
pub(crate) struct Place {
    pub element: usize,
    pub own: usize,
}

/// The names of all elements, one element's behind those of the one before, and where those of each begin.
#[derive(Drop)]
pub(crate) struct Places {
    pub bases: Vec<usize>,
    pub places: Vec<Place>,
}

// adds so many names of an element
fn add_places(places: &mut Vec<Place>, element: usize, count: usize) -> Result<(), AllocError>
    ensures { OnOk result (places.new.items ≡ places.old.items ++ places_of element count) }
{
    for own in 0..count {
        places.push(Place { element, own })?;
    }
    Ok(())
}

/// The names of all elements.
pub(crate) fn all_places(
    alloc: Global,
    tree: &ElementTree,
    records: &[RecordNames<'_>],
) -> Result<Places, AllocError>
    requires { AreOfRecords (length records.now) tree.now.elements }
    ensures { IfOk result (λ made. ArePlaces tree.now.elements records.now made.bases.items made.places.items) }
{
    let elements = tree.elements.items();
    let mut bases = Vec::with_capacity(alloc, elements.len())?;
    let mut places = Vec::new(alloc);
    for (number, element) in elements.iter().enumerate() {
        bases.push(places.len())?;
        add_places(&mut places, number, records[element.cell].locals.len())?;
    }
    Ok(Places { bases, places })
}
