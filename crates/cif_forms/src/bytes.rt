//! The bytes of a CIF text by their kinds.
ghost use Rattle.std.specs.Prelude.{◌≡◌};
ghost use Rattle.cif_forms.specs.Bytes.{is_blank, is_mark, is_numeral, is_semicolon};

/// Whether the byte ends a command.
pub fn is_semicolon(byte: u8) -> bool
    ensures { result ≡ is_semicolon byte }
{
    byte == b';'
}

/// Whether the byte is one of a number.
pub fn is_numeral(byte: u8) -> bool
    ensures { result ≡ is_numeral byte }
{
    byte.is_ascii_digit() || byte == b'-'
}

fn is_mark(byte: u8) -> bool
    ensures { result ≡ is_mark byte }
{
    byte == b'(' || byte == b')' || byte == b';'
}

/// Whether the byte is a blank: small letters and line feeds are.
pub fn is_blank(byte: u8) -> bool
    ensures { result ≡ is_blank byte }
{
    !(is_numeral(byte) || byte.is_ascii_uppercase() || is_mark(byte))
}
