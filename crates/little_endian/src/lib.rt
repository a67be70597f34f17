// Little-endian reads at an offset of a slice of bytes. A byte past the end counts as 0, so every read is total.
#![tactic(auto)]

ghost use Rattle.std.specs.Prelude.{◌≡◌, ◌+◌, ◌*◌, ◌≤◌, length};
ghost use Rattle.lists.specs.First.{first};
ghost use Rattle.little_endian.specs.Number.{le, zero_unit};

// A read whose bytes are all there, as in most reads: none is tested for itself.
fn whole_u16(s: &[u8], at: usize) -> u16
    requires { at + 2 ≤ length s.now }
    ensures { result ≡ le 2 s.now at }
{
    s[at] as u16 + 256 * (s[at + 1] as u16)
}

// The same of four bytes.
fn whole_u32(s: &[u8], at: usize) -> u32
    requires { at + 4 ≤ length s.now }
    ensures { result ≡ le 4 s.now at }
{
    whole_u16(s, at) as u32 + 65536 * (whole_u16(s, at + 2) as u32)
}

// The same of eight.
fn whole_u64(s: &[u8], at: usize) -> u64
    requires { at + 8 ≤ length s.now }
    ensures { result ≡ le 8 s.now at }
{
    whole_u32(s, at) as u64 + 4294967296 * (whole_u32(s, at + 4) as u64)
}

// A read that goes past the end: of two bytes one may be there.
fn cut_u16(s: &[u8], at: usize) -> u16
    requires { length s.now ≤ at + 1 }
    ensures { result ≡ le 2 s.now at }
{
    if at < s.len() { s[at] as u16 } else { 0 }
}

// Of four bytes: in two halves, each of which may be cut.
fn cut_u32(s: &[u8], at: usize) -> u32
    ensures { result ≡ le 4 s.now at }
{
    if s.len() <= at {
        return 0;
    }
    u16_at(s, at) as u32 + 65536 * (u16_at(s, at + 2) as u32)
}

// The 16-bit number at an offset; so for the widths below. In a loop the first test is the same each time, and one is left.
pub fn u16_at(s: &[u8], at: usize) -> u16
    ensures { result ≡ le 2 s.now at }
{
    if s.len() < 2 {
        return cut_u16(s, at);
    }
    if s.len() - 2 < at {
        return cut_u16(s, at);
    }
    whole_u16(s, at)
}

pub fn u32_at(s: &[u8], at: usize) -> u32
    ensures { result ≡ le 4 s.now at }
{
    if s.len() < 4 {
        return cut_u32(s, at);
    }
    if s.len() - 4 < at {
        return cut_u32(s, at);
    }
    whole_u32(s, at)
}

// Six bytes: a 32-bit number and the 16 bits above it.
pub fn u48_at(s: &[u8], at: usize) -> u64
    ensures { result ≡ le 6 s.now at }
{
    if s.len() <= at {
        return 0;
    }
    u32_at(s, at) as u64 + 4294967296 * (u16_at(s, at + 4) as u64)
}

// A loop over the bytes asks how many are left, and then neither test is made, where the call is inlined.
#[inline(always)]
pub fn u64_at(s: &[u8], at: usize) -> u64
    ensures { result ≡ le 8 s.now at }
{
    if s.len() <= at {
        return 0;
    }
    if s.len() - at < 8 {
        return u32_at(s, at) as u64 + 4294967296 * (u32_at(s, at + 4) as u64);
    }
    whole_u64(s, at)
}

// The first zero unit among so many units from an offset. What lies behind it is not looked at.
pub fn first_zero_unit(s: &[u8], at: u32, count: u32) -> Option<usize>
    ensures { result ≡ first (λ k. zero_unit s.now (at + 2 * k)) count }
{
    for k in 0..count {
        if u16_at(s, at as usize + 2 * (k as usize)) == 0 {
            return Some(k as usize);
        }
    }
    None
}
