// Numbers in digits 0-9 A-F, the most significant first: read and written at any width.
#![tactic(auto)]

ghost use Rattle.std.specs.Prelude.{◌≡◌, true, ◌&&◌, ◌+◌, ◌/◌, ◌%◌, ◌^◌, ◌≤◌, ◌<◌, length, take, drop, MatchOption};
ghost use Rattle.std.specs.List.{fold};
ghost use Rattle.lists.specs.Count.{pick};
ghost use Rattle.digits.specs.Hex.{is_digit, digit_of, hex_at, hex_digits, are_digits, number_in, written};
ghost use Rattle.digits.specs.Private.{value_of};

// The values of the digits, which are bytes from `0` to `F`. Those between `9` and `A` are none: 16.
static VALUES: [u8; 23] = [
    0, 1, 2, 3, 4, 5, 6, 7, 8, 9, 16, 16, 16, 16, 16, 16, 16, 10, 11, 12, 13, 14, 15,
];

// Whether a byte is one of 0-9 A-F. By `&` and `|`: with the branches of `matches!` lines are read half as fast.
#[tactic(auto, unfolding(crate::specs::Hex::is_digit))]
fn is_digit(b: u8) -> bool
    ensures { result ≡ is_digit b }
{
    ((b'0' <= b) & (b <= b'9')) | ((b'A' <= b) & (b <= b'F'))
}

// So many bytes from `at`, where they are there.
fn bytes_at(line: &[u8], at: usize, width: usize) -> Option<&[u8]>
    ensures { MatchOption result (length line.now < at + width) (λ part. (at + width ≤ length line.now) × (part.now ≡ take width (drop at line.now))) }
{
    line.get(at..)?.get(..width)
}

// Whether all bytes are digits. No branch between them, so that many are looked at together.
fn all_digits(bytes: &[u8]) -> bool
    ensures { result ≡ fold (λ all b. all && is_digit b) true bytes.now }
{
    bytes.iter().fold(true, |all, b| all & is_digit(*b))
}

// Whether so many bytes from `at` are there, and are digits.
pub fn are_digits(line: &[u8], at: usize, width: usize) -> bool
    ensures { result ≡ are_digits line.now at width }
{
    bytes_at(line, at, width).is_some_and(all_digits)
}

// The value of a digit. Looked up, as a branch on which are letters would be foretold wrong. Not by `value < 16`: digits that are known to
// be four bits are joined one after another, which is slower.
#[tactic(auto, using(crate::proofs::Values::table))]
fn value_of(b: u8) -> Option<u64>
    ensures { result ≡ value_of b }
{
    if b < b'0' || b'F' < b {
        return None;
    }
    let value = VALUES[(b - b'0') as usize];
    if value == 16 {
        None
    } else {
        Some(value as u64)
    }
}

// The number that up to 16 digits form.
fn number_of(digits: &[u8]) -> Option<u64>
    requires { length digits.now ≤ 16 }
    ensures { result ≡ pick (are_digits digits.now 0 (length digits.now)) (Some (hex_at (length digits.now) digits.now 0)) None }
{
    let mut x = 0;
    for b in digits {
        x = 16 * x + value_of(*b)?;
    }
    Some(x)
}

// The number that up to 16 digits from `at` form; 0 where they are no digits. Tested and valued in one pass.
#[tactic(auto, using(crate::proofs::Laws::number_wide))]
pub fn number_in(line: &[u8], at: usize, width: usize) -> u64
    ensures { result ≡ number_in line.now at width }
{
    if 16 < width {
        return 0;
    }
    bytes_at(line, at, width).and_then(number_of).unwrap_or(0)
}

// The digit of a number below 16.
#[tactic(auto, using(lists::proofs::Tests::tests), unfolding(crate::specs::Hex::digit_of))]
fn digit_of(d: u8) -> u8
    requires { d < 16 }
    ensures { result ≡ digit_of d }
{
    if d < 10 { b'0' + d } else { b'A' + (d - 10) }
}

// The digit of x at a place, counted from the lowest. A number of 64 bits has 16 digits, and zeros before them.
#[tactic(auto, using(crate::proofs::Hex::zero_digit))]
pub fn hex_digit(x: u64, place: usize) -> u8
    ensures { result ≡ digit_of (x / 16 ^ place % 16) }
{
    if 16 <= place {
        return b'0';
    }
    digit_of(((x >> (4 * place)) % 16) as u8)
}

// The lowest digits of x, as many as there are bytes.
fn fill_digits(bytes: &mut [u8], x: u64)
    ensures { bytes.new ≡ hex_digits (length bytes.old) x }
{
    let width = bytes.len();
    for (j, byte) in bytes.iter_mut().enumerate() {
        *byte = hex_digit(x, width - 1 - j);
    }
}

// The lowest `width` digits of x to the bytes from `at`, where there is room for all of them.
pub fn write_number(output: &mut [u8], at: usize, width: usize, x: u64)
    ensures { output.new ≡ written output.old at width x }
{
    if output.len() < at || output.len() - at < width {
        return;
    }
    fill_digits(&mut output[at..at + width], x);
}
