//! Full names by their numbers, joined by the links of all elements.
ghost use Rattle.std.specs.Prelude.{◌≡◌, ◌<◌, ◌^◌, [], ◌∷◌, length, IfOk};
ghost use Rattle.partition.specs.FiniteSets.Lists.{In};
ghost use Rattle.partition.specs.Marks.{IsNumbered};
ghost use Rattle.full_names.specs.Names.{AreNames};
ghost use Rattle.name_classes.specs.declared.links.Link.{Link as OneLink};
ghost use Rattle.name_classes.specs.steps.Links.{AreAllLinks};
ghost use Rattle.name_classes.specs.steps.Joins.{HasEndsAt, AddsJoins, AreJoined, once_at, links_at};

use crate::links::{Link, RecordLinks};
use full_names::FullNames;
use full_names::element_tree::TreeElement;
use partition::{Labelling, Partition};
use std::alloc::{AllocError, Global};

// joins the names of a link of the element with this number
fn join_link(names: &FullNames<'_>, number: usize, link: Link, partition: &mut Partition)
    requires names { AreNames names.now }
    requires few { length names.now.tree.now.elements < 2 ^ 64 }
    requires count { length partition.old ≡ names.now.count }
    requires ends { HasEndsAt names.now number link }
    ensures { AddsJoins names.now number (link ∷ []) partition.old partition.new }
{
    let first = names.number(number + link.first.step, link.first.spot);
    let second = names.number(number + link.second.step, link.second.spot);
    partition.join(first, second);
}

// joins the names of each of the links
fn join_links(names: &FullNames<'_>, number: usize, links: &[Link], partition: &mut Partition)
    requires names { AreNames names.now }
    requires few { length names.now.tree.now.elements < 2 ^ 64 }
    requires count { length partition.old ≡ names.now.count }
    requires ends { (link : OneLink) → In link links.now → HasEndsAt names.now number link }
    ensures { AddsJoins names.now number links.now partition.old partition.new }
{
    for link in links {
        join_link(names, number, *link, partition);
    }
}

// the links of a record that the element with this number alone has: those of global names where it is the first
fn once_at(number: usize, links: &RecordLinks) -> &[Link]
    ensures { result.now ≡ once_at number links.now }
{
    if links.element == number {
        links.nodes.once.as_slice()
    } else {
        &[]
    }
}

// joins what the element with this number makes one node of
fn join_element(
    names: &FullNames<'_>,
    number: usize,
    links: &RecordLinks,
    partition: &mut Partition,
)
    requires names { AreNames names.now }
    requires few { length names.now.tree.now.elements < 2 ^ 64 }
    requires count { length partition.old ≡ names.now.count }
    requires ends { (link : OneLink) → In link (links_at number links.now) → HasEndsAt names.now number link }
    ensures { AddsJoins names.now number (links_at number links.now) partition.old partition.new }
{
    join_links(names, number, once_at(number, links), partition);
    join_links(names, number, links.nodes.each.as_slice(), partition);
    join_links(names, number, links.merges.as_slice(), partition);
}

/// The labels of the full names: those that the links of all elements join have one.
pub fn joined(
    alloc: Global,
    names: &FullNames<'_>,
    elements: &[TreeElement],
    all: &[RecordLinks],
) -> Result<Labelling, AllocError>
    requires names { AreNames names.now }
    requires elements { elements.now ≡ names.now.tree.now.elements }
    requires links { AreAllLinks names.now all.now }
    ensures long { IfOk result (λ made. length made.labels.items ≡ names.now.count) }
    ensures numbered { IfOk result (λ made. IsNumbered made.labels.items made.count) }
    ensures joined { IfOk result (λ made. AreJoined names.now all.now (length elements.now) made.labels.items) }
{
    let mut partition = Partition::new(alloc, names.count)?;
    for (number, element) in elements.iter().enumerate() {
        join_element(names, number, &all[element.cell], &mut partition);
    }
    Ok(partition.into_labels())
}
