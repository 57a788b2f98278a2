// The decimal text of a number.
ghost use Rattle.std.specs.Prelude.{◌≡◌, ◌++◌, OnOk, OnErr};
ghost use Rattle.text_scan.specs.Decimal.{decimal};

use itoa::Buffer;
use std::alloc::AllocError;

/// Puts the decimal text of a number at the end of a text, which stays as it was on an error.
pub fn append_decimal(out: &mut Vec<u8>, value: i128) -> Result<(), AllocError>
    ensures ok { OnOk result (out.new.items ≡ out.old.items ++ decimal value) }
    ensures err { OnErr result (out.new.items ≡ out.old.items) }
{
    let mut buffer = Buffer::new();
    out.extend_from_slice(buffer.format(value).as_bytes())
}
