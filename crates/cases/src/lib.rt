// What the program of stored cases works out by itself: the fields of a case's line, counts that are within a buffer, and the checksum that
// stands for a buffer too long to print. Every contract gives the outcome outright.
#![tactic(auto)]

ghost use Rattle.std.specs.Prelude.{◌≡◌, [], length, slice_index_or};
ghost use Rattle.lines.specs.Parts.{split};
ghost use Rattle.io.specs.Counts.{IsPrefixLen};
ghost use Rattle.cases.specs.Number.{with_digit, spelled};
ghost use Rattle.cases.specs.Within.{within};
ghost use Rattle.cases.specs.Checksum.{basis, times_prime, step, of_bytes};

// Field k of a line, the fields parted by tabs and numbered from 0; empty, where there is none.
#[tactic(auto, unfolding(grammar::specs::Line::field))]
pub fn field(line: &[u8], k: usize) -> &[u8]
    ensures { result.now ≡ slice_index_or (split 9 line.now) k [] }
{
    grammar::field_at(line, k)
}

fn with_digit(n: usize, d: u8) -> usize
    ensures { result ≡ with_digit n d }
{
    (n % 1844674407370955162 * 10).wrapping_add(usize::from(d % 16))
}

// The number that the digits spell in base ten.
fn number_of(digits: &[u8]) -> usize
    ensures { result ≡ spelled digits.now }
{
    digits.iter().fold(0, |n, d| with_digit(n, *d))
}

// The number that field k spells in base ten; 0, where there is none.
pub fn number(line: &[u8], k: usize) -> usize
    ensures { result ≡ spelled (slice_index_or (split 9 line.now) k []) }
{
    number_of(field(line, k))
}

// A count that is within a slice, so that `&s[..n]` can be taken: n itself, or 0 where the slice has fewer elements. A call that hands back
// a count past its buffer thus gives an empty part, and the output differs.
pub fn bytes_within(n: usize, s: &[u8]) -> usize
    ensures { (result ≡ within n (length s.now)) × IsPrefixLen result s.now }
{
    if n <= s.len() { n } else { 0 }
}

// The 64-bit FNV-1a checksum of nothing. The functions after it take the checksum of what came before, so that the parts of a text add up
// to the checksum of the whole.
pub fn checksum_start() -> u64
    ensures { result ≡ basis }
{
    14695981039346656037
}

// The halves of x are taken apart, so that no product is too large. The prime is 2^40 + 435.
fn times_prime(x: u64) -> u64
    ensures { result ≡ times_prime x }
{
    let low = x % 4294967296 * 435;
    let high = x / 4294967296 * 435 + low / 4294967296 + x % 16777216 * 256;
    high % 4294967296 * 4294967296 + low % 4294967296
}

fn with_byte(h: u64, b: u8) -> u64
    ensures { result ≡ step h b }
{
    times_prime(h ^ b as u64)
}

// With more bytes.
pub fn checksum_bytes(h: u64, bytes: &[u8]) -> u64
    ensures { result ≡ of_bytes h bytes.now }
{
    bytes.iter().fold(h, |g, b| with_byte(g, *b))
}
