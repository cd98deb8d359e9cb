// Names that stand between quotes on a line.
ghost use Rattle.std.specs.Prelude.{◌≡◌};
ghost use Rattle.std.specs.List.{list_all};
ghost use Rattle.line_text.specs.Names.{is_name_byte, is_name};

const MOST_NAME_BYTES: usize = 200;

fn is_name_byte(b: u8) -> bool
    ensures { result ≡ is_name_byte b }
{
    !(b < 32 || (b == b'"' || b == 127))
}

fn all_name_bytes(name: &[u8]) -> bool
    ensures { result ≡ list_all is_name_byte name.now }
{
    name.iter().all(|b| is_name_byte(*b))
}

/// Whether it may stand as a name: from 1 to 200 bytes, none of which is a control byte or a quote.
pub fn is_name(name: &[u8]) -> bool
    ensures { result ≡ is_name name.now }
{
    0 < name.len() && (!(MOST_NAME_BYTES < name.len()) && all_name_bytes(name))
}
