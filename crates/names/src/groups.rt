//! Numbers in groups by their keys.
ghost use Rattle.std.specs.Prelude.{◌≡◌, ◌<◌, ℕ, All, IfOk, IfSome, OnOk, [], length, map, Some, take};
ghost use Rattle.names.specs.steps.Groups.{AreGroups, AreGroupsBy, AddsMember, class_in, region_key, label_key};

use std::alloc::{AllocError, Global};

/// So many empty groups.
fn empty_groups(alloc: Global, count: usize) -> Result<Vec<Vec<usize>>, AllocError>
    ensures { IfOk result (λ groups. AreGroups [] count groups.items) }
{
    let mut groups = Vec::with_capacity(alloc, count)?;
    for _ in 0..count {
        groups.push(Vec::new(alloc))?;
    }
    Ok(groups)
}

/// Adds a number to a group.
fn push_member(groups: &mut Vec<Vec<usize>>, group: usize, member: usize) -> Result<(), AllocError>
    requires { group < length groups.old.items }
    ensures { OnOk result (AddsMember groups.old.items groups.new.items group member) }
{
    groups[group].push(member)?;
    Ok(())
}

/// The numbers from 0 on in groups, by the key of each, in order. Those without a key are in none.
fn grouped(
    alloc: Global,
    keys: &[Option<usize>],
    count: usize,
) -> Result<Vec<Vec<usize>>, AllocError>
    requires { All (λ key. IfSome key (λ group. group < count)) keys.now }
    ensures { IfOk result (λ groups. AreGroups keys.now count groups.items) }
{
    let mut groups = empty_groups(alloc, count)?;
    for (member, key) in keys.iter().enumerate() {
        if let Some(group) = *key {
            push_member(&mut groups, group, member)?;
        }
    }
    Ok(groups)
}

/// The classes of regions, as keys.
fn region_keys(alloc: Global, classes: &[usize]) -> Result<Vec<Option<usize>>, AllocError>
    ensures { IfOk result (λ keys. keys.items ≡ map Some classes.now) }
{
    classes.iter().map(|class| Some(*class)).collect(alloc)
}

/// The class of a region, where there is one.
fn class_in(classes: &[usize], region: Option<usize>) -> Option<usize>
    requires { IfSome region (λ r. r < length classes.now) }
    ensures { result ≡ class_in classes.now region }
{
    match region {
        None => None,
        Some(region) => Some(classes[region]),
    }
}

/// The classes of the regions that labels name.
fn label_keys(
    alloc: Global,
    classes: &[usize],
    named: &[Option<usize>],
) -> Result<Vec<Option<usize>>, AllocError>
    requires { All (λ region. IfSome region (λ r. r < length classes.now)) named.now }
    ensures { IfOk result (λ keys. keys.items ≡ map (class_in classes.now) named.now) }
{
    let mut keys = Vec::with_capacity(alloc, named.len())?;
    for region in named {
        keys.push(class_in(classes, *region))?;
    }
    Ok(keys)
}

/// The regions in groups by their classes, which are below the count.
pub fn region_groups(
    alloc: Global,
    classes: &[usize],
    count: usize,
) -> Result<Vec<Vec<usize>>, AllocError>
    requires { All (λ class. class < count) classes.now }
    ensures { IfOk result (λ groups. AreGroupsBy (region_key classes.now) (length classes.now) count groups.items) }
{
    let keys = region_keys(alloc, classes)?;
    grouped(alloc, keys.as_slice(), count)
}

/// The labels in groups by the classes of the regions that they name.
pub fn label_groups(
    alloc: Global,
    classes: &[usize],
    named: &[Option<usize>],
    count: usize,
) -> Result<Vec<Vec<usize>>, AllocError>
    requires classes { All (λ class. class < count) classes.now }
    requires named { All (λ region. IfSome region (λ r. r < length classes.now)) named.now }
    ensures { IfOk result (λ groups. AreGroupsBy (label_key classes.now named.now) (length named.now) count groups.items) }
{
    let keys = label_keys(alloc, classes, named)?;
    grouped(alloc, keys.as_slice(), count)
}
