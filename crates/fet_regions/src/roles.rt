//! What the tile types of a technology are to its transistors, tabulated by type number.
ghost use Rattle.std.specs.Prelude.{◌≡◌, ◌==◌, map, IfOk};
ghost use Rattle.std.specs.List.{list_any, range_with_len};
ghost use Rattle.tech_model.specs.WellFormed.{IsWellFormed};
ghost use Rattle.tech_model.specs.ChannelRoles.{is_channel, is_terminal};
ghost use Rattle.fet_regions.specs.steps.Roles.{channel_in, terminal_in, AreRoles};
ghost use Rattle.fet_regions.specs.declared.roles.TheConstants.{ROWS};

use names_lists::List;
use std::alloc::{AllocError, Global};
use tech_model::{MOST_TYPES, RawTech, TypeId};

/// A row for each type number, and one for space.
const ROWS: usize = MOST_TYPES + 1;

/// Which types are those of channels, and which are terminals beside each of them.
#[derive(Debug, Drop)]
pub struct Roles {
    channels: Vec<bool>,
    terminals: Vec<List<bool>>,
}

/// Whether the type with this number is one of those.
fn lists(types: &[TypeId], kind: usize) -> bool
    ensures { result ≡ list_any (λ t. t.0 == kind) types.now }
{
    types.iter().any(|t| usize::from(t.0) == kind)
}

/// Whether channels are of the type with this number.
fn is_channel(raw: &RawTech, kind: usize) -> bool
    ensures { result ≡ is_channel raw.now kind }
{
    raw.fets
        .items()
        .iter()
        .any(|fet| usize::from(fet.kind.0) == kind)
}

/// Whether the second type is listed as a terminal beside channels of the first.
fn is_terminal(raw: &RawTech, channel: usize, kind: usize) -> bool
    ensures { result ≡ is_terminal raw.now channel kind }
{
    raw.fets.items().iter().any(|fet| usize::from(fet.kind.0) == channel
        && lists(fet.terminals.items(), kind))
}

/// For each type, whether channels are of it.
fn channels(alloc: Global, raw: &RawTech) -> Result<Vec<bool>, AllocError>
    ensures { IfOk result (λ row. row.items ≡ map (is_channel raw.now) (range_with_len 0 ROWS)) }
{
    let mut row = Vec::with_capacity(alloc, ROWS)?;
    for kind in 0..ROWS {
        row.push(is_channel(raw, kind))?;
    }
    Ok(row)
}

/// For each type, whether it is a terminal beside channels of one.
fn terminals_beside(alloc: Global, raw: &RawTech, channel: usize) -> Result<Vec<bool>, AllocError>
    ensures { IfOk result (λ row. row.items ≡ map (is_terminal raw.now channel) (range_with_len 0 ROWS)) }
{
    let mut row = Vec::with_capacity(alloc, ROWS)?;
    for kind in 0..ROWS {
        row.push(is_terminal(raw, channel, kind))?;
    }
    Ok(row)
}

/// For each type, which types are terminals beside channels of it.
fn terminals(alloc: Global, raw: &RawTech) -> Result<Vec<List<bool>>, AllocError>
    ensures { IfOk result (λ rows. rows.items ≡ map (λ channel. map (is_terminal raw.now channel) (range_with_len 0 ROWS)) (range_with_len 0 ROWS)) }
{
    let mut rows = Vec::with_capacity(alloc, ROWS)?;
    for channel in 0..ROWS {
        let row = terminals_beside(alloc, raw, channel)?;
        rows.push(List::of(row))?;
    }
    Ok(rows)
}

impl Roles {
    /// The tables of a technology. Want of memory alone refuses.
    pub fn of(alloc: Global, raw: &RawTech) -> Result<Roles, AllocError>
        requires { IsWellFormed raw.now }
        ensures { IfOk result (λ roles. AreRoles raw.now roles) }
    {
        Ok(Roles {
            channels: channels(alloc, raw)?,
            terminals: terminals(alloc, raw)?,
        })
    }

    /// Whether channels are of the type.
    pub fn is_channel(&self, kind: TypeId) -> bool
        ensures { result ≡ channel_in self.now kind.0 }
    {
        match self.channels.get(usize::from(kind.0)) {
            Some(is) => *is,
            None => false,
        }
    }

    /// Whether the second type is a terminal beside a channel of the first.
    pub fn is_terminal(&self, channel: TypeId, kind: TypeId) -> bool
        ensures { result ≡ terminal_in self.now channel.0 kind.0 }
    {
        match self.terminals.get(usize::from(channel.0)) {
            Some(row) => match row.items().get(usize::from(kind.0)) {
                Some(is) => *is,
                None => false,
            },
            None => false,
        }
    }
}
