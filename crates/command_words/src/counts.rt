// Numbers of nets, as arguments.
ghost use Rattle.std.specs.Prelude.{◌≡◌};
ghost use Rattle.std.specs.Fmt.{decimal};
ghost use Rattle.std.specs.Str.{bytes_eq};
ghost use Rattle.command_words.specs.Tasks.{count_of, is_count};

use itoa::Buffer;
use workload::MOST_NETS;

fn spells(word: &str, n: u32) -> bool
    ensures { result ≡ bytes_eq word.now (decimal n) }
{
    let mut buffer = Buffer::new();
    word == buffer.format(n)
}

fn is_count(word: &str, n: u32) -> bool
    ensures { result ≡ is_count word.now n }
{
    spells(word, n) && 0 < n && n <= MOST_NETS
}

/// The number that the argument spells in decimal, without a sign or a leading zero, from 1 to
/// 4,096.
pub(crate) fn count_of(word: &str) -> Option<u32>
    ensures { result ≡ count_of word.now }
{
    let n = word.parse::<u32>().ok()?;
    if is_count(word, n) { Some(n) } else { None }
}
