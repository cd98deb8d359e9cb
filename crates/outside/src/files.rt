// What the shelves in memory share: their files, a piece of a file, and the name that was read
// last.
ghost use Rattle.std.specs.Prelude.{◌≡◌, ◌+◌, ◌-◌, ◌<◌, ◌≤◌, ◌++◌, length, take, drop, min, find, option_copied, string_bytes};
ghost use Rattle.std.specs.Str.{bytes_eq};
ghost use Rattle.outside.specs.Files.{named_bytes, file_of};

/// What the last read left: nothing, bytes of a name up to a place, or a failure at a name.
#[derive(Debug, Drop)]
pub enum LastRead {
    Unset,
    Gave(String, u64),
    Refused(String),
}

fn first_named<'a>(files: &'a [(String, Vec<u8>)], name: &str) -> Option<&'a (String, Vec<u8>)>
    ensures { option_copied result ≡
        find (λ file. bytes_eq (string_bytes file.0) name.now) files.now }
{
    files.iter().find(|file| file.0.as_str() == name)
}

/// The bytes of the first file of this name.
pub fn file_bytes<'a>(files: &'a [(String, Vec<u8>)], name: &str) -> Option<&'a [u8]>
    ensures { option_copied result ≡ file_of (named_bytes files.now) name.now }
{
    let file = first_named(files, name)?;
    Some(file.1.as_slice())
}

/// Copies what stands at a place, at most `step` bytes.
pub fn copy_piece(bytes: &[u8], at: u64, step: usize, into: &mut [u8]) -> usize
    requires room { 0 < length into.old }
    requires some { 1 ≤ step }
    ensures count { result ≡ min (min (length bytes.now - at) step) (length into.old) }
    ensures bound { result ≤ length into.new }
    ensures bytes { drop at bytes.now ≡ take result into.new ++ drop (at + result) bytes.now }
    ensures end { result ≡ 0 → length bytes.now ≤ at }
{
    if at >= bytes.len() as u64 {
        return 0;
    }
    let rest = &bytes[at as usize..];
    let count = rest.len().min(step).min(into.len());
    into[..count].copy_from_slice(&rest[..count]);
    count
}
