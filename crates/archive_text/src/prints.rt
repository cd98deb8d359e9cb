// Fingerprints of names and of keys.
ghost use Rattle.std.specs.Prelude.{◌≡◌, ◌%◌, ◌^◌, unsigned_abs};
ghost use Rattle.archive_text.specs.Fingerprints.{key_print, mixed, name_print};

const START: u64 = 14_695_981_039_346_656_037;

const FACTOR: u64 = 1_099_511_628_211;

fn mixed(print: u64, n: u64) -> u64
    ensures { result ≡ mixed print n }
{
    print.wrapping_mul(FACTOR).wrapping_add(n)
}

fn low_part(n: i128) -> u64
    ensures { result ≡ unsigned_abs n % 2 ^ 64 }
{
    (n.unsigned_abs() % (1 << 64)) as u64
}

/// The fingerprint of a name.
#[tactic(auto, unfolding(crate::specs::Fingerprints::name_print))]
pub fn name_print(name: &[u8]) -> u64
    ensures { result ≡ name_print name.now }
{
    name.iter()
        .fold(START, |print, byte| mixed(print, u64::from(*byte)))
}

/// The fingerprint of a key.
#[tactic(auto, unfolding(crate::specs::Fingerprints::key_print))]
pub fn key_print(numbers: &[i128]) -> u64
    ensures { result ≡ key_print numbers.now }
{
    numbers
        .iter()
        .fold(START, |print, n| mixed(print, low_part(*n)))
}
