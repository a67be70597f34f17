// Text that is built in a borrowed buffer. What is put stands behind what was put before, as many bytes as fit; all others stay.
#![tactic(auto)]

ghost use Rattle.std.specs.Prelude.{◌≡◌, [], ◌∷◌};
ghost use Rattle.digits.specs.Hex.{hex_digits};
ghost use Rattle.text.specs.Decimal.{decimal};
ghost use Rattle.text.specs.Put.{Begun, Puts};

// The least number of two digits.
const TWO_DIGITS: u64 = 10;

// A buffer, and the position behind what was put. No `fmt::Write`: its clauses speak of an `Ok` alone, and no caller would know that it comes.
#[derive(Drop)]
pub struct Text<'a> {
    out: &'a mut [u8],
    at: usize,
}

impl<'a> Text<'a> {
    // Nothing yet, from the buffer's start.
    pub fn new(out: &'a mut [u8]) -> Text<'a>
        ensures { Begun out.entry 0 result }
    {
        Text { out, at: 0 }
    }

    // Goes on from a position.
    pub fn resume(out: &'a mut [u8], at: usize) -> Text<'a>
        ensures { Begun out.entry at result }
    {
        Text { out, at }
    }

    // The position behind what was put.
    pub fn len(&self) -> usize
        ensures { result ≡ self.now.at }
    {
        self.at
    }

    // One byte.
    pub fn put(&mut self, b: u8)
        ensures { Puts self.old (b ∷ []) self.new }
    {
        let Text { out, at } = self;
        if *at < out.len() {
            out[*at] = b;
            *at += 1;
        }
    }

    // Bytes, one behind the other.
    pub fn put_all(&mut self, bytes: &[u8])
        ensures { Puts self.old bytes.now self.new }
    {
        for b in bytes {
            self.put(*b);
        }
    }

    // A number in decimal, with no leading zero.
    pub fn put_decimal(&mut self, n: u64)
        ensures { Puts self.old (decimal n) self.new }
    {
        if TWO_DIGITS <= n {
            self.put_decimal(n / 10);
        }
        self.put(b'0' + (n % 10) as u8);
    }

    // The lowest digits 0-9 A-F of a number, the most significant first.
    pub fn put_hex(&mut self, width: usize, x: u64)
        ensures { Puts self.old (hex_digits width x) self.new }
    {
        for place in (0..width).rev() {
            self.put(digits::hex_digit(x, place));
        }
    }
}
