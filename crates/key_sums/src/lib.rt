//! Sums of amounts by their keys.
#![tactic(auto)]

ghost use Rattle.std.specs.Prelude.{◌≡◌, ◌<◌, ℕ, pos, All, length, IfOk, slice_index_or};
ghost use Rattle.key_sums.specs.Amounts.{sum_of};

use std::alloc::{AllocError, Global};

/// An amount that counts for a key.
#[derive(Clone, Copy, Debug, PartialEq, Eq)]
pub struct Amount {
    pub key: usize,
    pub value: i64,
}

/// The sum of the amounts of each key below the count, at the key's place. Want of memory alone refuses. It takes a step for
/// each key and for each amount.
pub fn sums_by_key(alloc: Global, count: usize, amounts: &[Amount]) -> Result<Vec<i128>, AllocError>
    requires { All (λ amount. amount.key < count) amounts.now }
    ensures so_many { IfOk result (λ sums. length sums.items ≡ count) }
    ensures each { IfOk result (λ sums. (key : ℕ) → key < count → slice_index_or sums.items key (pos 0) ≡ sum_of key amounts.now) }
{
    let mut sums: Vec<i128> = vec![in alloc; 0; count]?;
    for amount in amounts {
        let Amount { key, value } = *amount;
        sums[key] += i128::from(value);
    }
    Ok(sums)
}
