//! The uses of records by the names of their elements.
ghost use Rattle.std.specs.Prelude.{◌≡◌, IfOk};
ghost use Rattle.name_classes.specs.steps.UseTables.{AreUseTables, IsTableOf, number_of};

use ext_model::{CellExt, UseRec};
use std::alloc::{AllocError, Global};
use std::collections::HashMap;

/// The number of each use of a record, under the name of its element.
#[derive(Drop)]
pub struct UseTable<'a> {
    numbers: HashMap<&'a [u8], usize>,
}

impl<'a> UseTable<'a> {
    // the table of these uses
    fn of(alloc: Global, uses: &'a [UseRec]) -> Result<UseTable<'a>, AllocError>
        ensures { IfOk result (λ table. IsTableOf uses.now table) }
    {
        let mut numbers = HashMap::new(alloc);
        for (number, used) in uses.iter().enumerate() {
            numbers.insert(used.id.bytes(), number)?;
        }
        Ok(UseTable { numbers })
    }

    /// The number of the use whose element has this name. It takes a constant number of steps on an average.
    pub fn find(&self, id: &'a [u8]) -> Option<usize>
        ensures { result ≡ number_of self.now id.now }
    {
        self.numbers.get(id).copied()
    }
}

/// The table of each record.
pub fn use_tables<'a>(alloc: Global, exts: &'a [CellExt]) -> Result<Vec<UseTable<'a>>, AllocError>
    ensures { IfOk result (λ tables. AreUseTables exts.now tables.items) }
{
    let mut tables = Vec::with_capacity(alloc, exts.len())?;
    for ext in exts {
        tables.push(UseTable::of(alloc, ext.uses.items())?)?;
    }
    Ok(tables)
}
