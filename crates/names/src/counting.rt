//! Which labels name regions, and which regions global names join.
ghost use Rattle.std.specs.Prelude.{◌≡◌, ◌≢◌, ℕ, List, Some, IfOk, length};
ghost use Rattle.std.specs.Option.{unwrap_or};
ghost use Rattle.std.specs.Ordering.{nat_cmp};
ghost use Rattle.std.specs.Cmp.Lexicographic.{slice_cmp};
ghost use Rattle.std.specs.BTreeMap.{get};
ghost use Rattle.names.specs.steps.CountedLabels.{IsCounted, AreCounted, text_at, region_found};

use crate::attaching::Attachment;
use crate::texts::is_global;
use names_lists::Name;
use std::alloc::{AllocError, Global};
use std::collections::BTreeMap;
use tech_model::Label;

/// For each label the region that it names, if it names one, and pairs of regions that global names join.
#[derive(Drop)]
pub struct Counted {
    pub named: Vec<Option<usize>>,
    pub pairs: Vec<(usize, usize)>,
}

/// The region of the first label with the text, which is this one where there was none before.
fn first_region(
    alloc: Global,
    firsts: &mut BTreeMap<Name, usize>,
    text: &Name,
    region: usize,
) -> Result<Option<usize>, AllocError>
    ensures told { IfOk result (λ first. first ≡ get (slice_cmp nat_cmp) firsts.old text.now) }
    ensures here { IfOk result (λ first. get (slice_cmp nat_cmp) firsts.new text.now ≡ Some (unwrap_or first region)) }
    ensures elsewhere { IfOk result (λ first. (other : List ℕ) → other ≢ text.now
        → get (slice_cmp nat_cmp) firsts.new other ≡ get (slice_cmp nat_cmp) firsts.old other) }
{
    if let Some(first) = firsts.get(text) {
        return Ok(Some(*first));
    }
    firsts.insert(text.copy(alloc)?, region)?;
    Ok(None)
}

/// Counts one more label that attaches to a region, and says which it names.
fn count_label(
    alloc: Global,
    firsts: &mut BTreeMap<Name, usize>,
    pairs: &mut Vec<(usize, usize)>,
    text: &Name,
    region: usize,
) -> Result<Option<usize>, AllocError>
    ensures { IfOk result (λ named. IsCounted text.now region (get (slice_cmp nat_cmp) firsts.old) (get (slice_cmp nat_cmp) firsts.new)
        pairs.old.items pairs.new.items named) }
{
    match first_region(alloc, firsts, text, region)? {
        None => Ok(Some(region)),
        Some(first) => {
            if is_global(text.bytes()) {
                pairs.push((first, region))?;
                Ok(Some(region))
            } else {
                Ok(None)
            }
        }
    }
}

/// Which of the labels name regions. It takes a search among the texts for each label.
pub fn count_labels(
    alloc: Global,
    labels: &[Label],
    found: &[Option<Attachment>],
) -> Result<Counted, AllocError>
    requires { length found.now ≡ length labels.now }
    ensures { IfOk result (λ made. AreCounted (text_at labels.now) (region_found found.now) (length labels.now) made.named.items made.pairs.items) }
{
    let mut firsts = BTreeMap::new(alloc);
    let mut pairs = Vec::new(alloc);
    let mut named = Vec::with_capacity(alloc, labels.len())?;
    for (index, label) in labels.iter().enumerate() {
        let region = match found[index] {
            None => None,
            Some(attachment) => count_label(
                alloc,
                &mut firsts,
                &mut pairs,
                &label.text,
                attachment.region,
            )?,
        };
        named.push(region)?;
    }
    Ok(Counted { named, pairs })
}
