// Lines of bytes: where each ends and how many there are, and lines of digits.
#![tactic(auto)]

ghost use Rattle.std.specs.Prelude.{◌≡◌, true, suc, ◌*◌, ◌≤◌, ◌<◌, length};
ghost use Rattle.std.specs.List.{count_by};
ghost use Rattle.lines.specs.Lines.{lines_in, line_end, is_line, leading};
ghost use Rattle.lines.specs.Private.{is_feed, LineEnd};

// How many bytes are looked at together: so few that a number of one byte counts them.
const BLOCK: usize = 192;

// Whether a line is so many digits and a line feed.
pub fn is_line(line: &[u8], digits: usize) -> bool
    ensures { result ≡ is_line digits line.now }
{
    let Some((end, number)) = line.split_last() else {
        return false;
    };
    if number.len() != digits || *end != b'\n' {
        return false;
    }
    digits::are_digits(number, 0, digits)
}

// How many bytes the lines of so many digits take that some bytes start with.
pub fn leading_bytes(bytes: &[u8], digits: usize) -> usize
    ensures { result ≡ suc digits * length (leading digits (length bytes.now) bytes.now) }
{
    if bytes.len() <= digits {
        return 0;
    }
    let mut at = 0;
    for line in bytes.chunks(digits + 1) {
        if !is_line(line, digits) {
            return at;
        }
        at += line.len();
    }
    at
}

// How many line feeds are among a few bytes. A number of one byte, so that many bytes are looked at together.
fn feeds(bytes: &[u8]) -> u8
    requires { length bytes.now ≤ 255 }
    ensures { result ≡ count_by is_feed bytes.now }
{
    let mut n = 0;
    for b in bytes {
        if *b == b'\n' {
            n += 1;
        }
    }
    n
}

// How many line feeds there are, block by block.
fn count_feeds(bytes: &[u8]) -> usize
    ensures { result ≡ count_by is_feed bytes.now }
{
    let mut n = 0;
    for block in bytes.chunks(BLOCK) {
        n += feeds(block) as usize;
    }
    n
}

// How many lines there are: each line feed but one at the very end is followed by a line.
pub fn count_lines(bytes: &[u8]) -> usize
    ensures { result ≡ length (lines_in bytes.now) }
{
    match bytes.split_last() {
        Some((_, before)) => 1 + count_feeds(before),
        None => 0,
    }
}

// Whether some bytes are seen at once to start with a line of so many, the last of them a line feed.
fn starts_with_line(bytes: &[u8], width: usize) -> bool
    ensures { result ≡ true → LineEnd bytes.now 0 width }
{
    if 255 < width {
        return false;
    }
    let Some(line) = bytes.get(..width) else {
        return false;
    };
    let Some((end, before)) = line.split_last() else {
        return false;
    };
    *end == b'\n' && feeds(before) == 0
}

// Where the first line of some bytes ends, past its line feed if it has one.
fn first_end(bytes: &[u8]) -> usize
    requires { 0 < length bytes.now }
    ensures { LineEnd bytes.now 0 result }
{
    match bytes.iter().position(|b| *b == b'\n') {
        Some(feed) => feed + 1,
        None => bytes.len(),
    }
}

// Where the line ends that starts at `at`, past its line feed if it has one. A length that it is likely to have is tried first, and
// changes nothing.
#[tactic(auto, using(crate::proofs::Lines::line_ends))]
pub fn line_end(bytes: &[u8], at: usize, likely: usize) -> usize
    ensures { result ≡ line_end bytes.now at }
{
    if bytes.len() <= at {
        return at;
    }
    let rest = &bytes[at..];
    if starts_with_line(rest, likely) {
        at + likely
    } else {
        at + first_end(rest)
    }
}
