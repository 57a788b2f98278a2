//! Reading to the end and writing the whole, over any source and any sink.
ghost use Rattle.std.specs.Prelude.{◌≡◌, ◌<◌, ◌≤◌, [], length, vec_len, IfOk, IfSome, OnOk, OnErr, IsErrOf};
ghost use Rattle.outside_io.specs.Counts.{Rose};
ghost use Rattle.outside_io.specs.Refusals.{UnlessPutFailed, UnlessReadFailed};
ghost use Rattle.outside_io.specs.ToldBytes.{AppendsPrefix, with_back};

use crate::faults::{PutFault, ReadAllFault};
use crate::outside::{Sink, Source};
use std::alloc::Global;

/// How many bytes are asked of a source at a time.
const PIECE: usize = 8192;

/// Reads a source to its end, if it has at most so many bytes.
pub fn read_all<S: Source>(
    alloc: Global,
    source: &mut S,
    limit: usize,
) -> Result<Vec<u8>, ReadAllFault>
    ensures within { IfOk result (λ bytes. vec_len bytes ≤ limit) }
    ensures all { IfOk result (λ bytes. IfSome (S.left source.old) (λ left. bytes.items ≡ left)) }
    ensures ended { OnOk result (IfSome (S.left source.new) (λ left. left ≡ [])) }
    ensures too_long { IsErrOf result ReadAllFault.TooLong →
        IfSome (S.left source.old) (λ left. limit < length left) }

    ensures failed { IsErrOf result ReadAllFault.Failed → Rose (S.faults source.old) (S.faults source.new) }
    ensures calm { UnlessReadFailed result (S.faults source.new ≡ S.faults source.old) }
    ensures no_fall { S.faults source.old ≤ S.faults source.new }
{
    let mut bytes = Vec::new(alloc);
    let mut piece = [0u8; PIECE];
    loop {
        let count = source.read(&mut piece)?;
        if count == 0 {
            return Ok(bytes);
        }
        if count > limit - bytes.len() {
            return Err(ReadAllFault::TooLong);
        }
        bytes.extend_from_slice(&piece[..count])?;
    }
}

/// Writes all bytes to a sink. After a refusal it has some of them, from the first on.
pub fn write_all<K: Sink>(sink: &mut K, bytes: &[u8]) -> Result<(), PutFault>
    ensures all { OnOk result (K.written sink.new ≡ with_back (K.written sink.old) bytes.now) }
    ensures some { OnErr result (AppendsPrefix (K.written sink.old) (K.written sink.new) bytes.now) }

    ensures failed { IsErrOf result PutFault.Failed → Rose (K.faults sink.old) (K.faults sink.new) }
    ensures calm { UnlessPutFailed result (K.faults sink.new ≡ K.faults sink.old) }
    ensures no_fall { K.faults sink.old ≤ K.faults sink.new }
{
    let mut done = 0;
    while done < bytes.len() {
        done += sink.write(&bytes[done..])?;
    }
    Ok(())
}
