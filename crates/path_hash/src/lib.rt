// The path hashes, over numbers and over the bytes of a text.
#![tactic(auto)]

ghost use Rattle.std.specs.Prelude.{◌≡◌, ◌↔◌, ℕ, ◌≤◌, length, drop, map, IsSome, IfSome};
ghost use Rattle.path_hash.specs.Hash.{step, plain, vista, xp, xp_end, eight_at, hash2008};

// Where Vista and 2008 start.
pub const VISTA_START: u32 = 314159;

// What is hashed: numbers, or the bytes of a text, each of which is a number from 0 to 255.
pub trait Number: Copy {
    ghost value: { Self → ℕ };

    fn wide(self) -> u32
        ensures { result ≡ value self };

    // The hash after the first eight numbers, if there are eight, and the numbers after these: one product of the hash serves eight.
    fn eight_step(h: u32, numbers: &[Self]) -> Option<(u32, &[Self])>
        ensures enough { IsSome result ↔ (8 ≤ length numbers.now) }
        ensures step { IfSome result (λ p. (p.0 ≡ eight_at h (map value numbers.now) 0) × (p.1.now ≡ drop 8 numbers.now)) };
}

impl Number for u32 {
    ghost value = { λ n. n };

    fn wide(self) -> u32 {
        self
    }

    // Products and sums fit 64 bits, and are reduced before the subtraction.
    fn eight_step(h: u32, numbers: &[u32]) -> Option<(u32, &[u32])> {
        let (eight, rest) = numbers.split_first_chunk::<8>()?;
        let [c0, c1, c2, c3, c4, c5, c6, c7] = *eight;
        let a = (((((37 * (c1 as u64) + (c2 as u64)) * 37 + (c3 as u64)) * 37 + (c4 as u64)) * 37
            + (c5 as u64))
            * 37
            + (c6 as u64))
            * 37;
        let c = a + 442596621 * (c0 as u64) + (c7 as u64);
        let p = h.wrapping_mul(803794207);
        Some((((c % 4294967296) as u32).wrapping_sub(p), rest))
    }
}

// The lower half of each lane of 16 bits, and of 32.
const LOW_BYTES: u64 = 0x00ff_00ff_00ff_00ff;

const LOW_PAIRS: u64 = 0x0000_ffff_0000_ffff;

impl Number for u8 {
    ghost value = { λ n. n };

    fn wide(self) -> u32 {
        u32::from(self)
    }

    // The bytes are read as one number. Neighbours are joined in lanes of 16 bits, and these in lanes of 32. A mask keeps the lower
    // half of each lane, so that a sum has room. What came before weighs 37^8.
    fn eight_step(h: u32, text: &[u8]) -> Option<(u32, &[u8])> {
        let (eight, rest) = text.split_first_chunk::<8>()?;
        let x = u64::from_le_bytes(*eight);
        let pairs = 37 * (x & LOW_BYTES) + ((x / 256) & LOW_BYTES);
        let fours = 1369 * (pairs & LOW_PAIRS) + ((pairs / 65536) & LOW_PAIRS);
        let sum = 3491173089 * (h as u64) + 1874161 * (fours % 4294967296) + fours / 4294967296;
        Some(((sum % 4294967296) as u32, rest))
    }
}

// The plain step.
fn next(h: u32, c: u32) -> u32
    ensures { result ≡ step h c }
{
    h.wrapping_mul(37).wrapping_add(c)
}

// The end step of XP. The upper half of the range is negative, and loses its sign: the magnitude is up to 2147483648.
#[tactic(auto, unfolding(crate::specs::Hash::xp_end))]
pub fn xp_end(h: u32) -> u32
    ensures { result ≡ xp_end h }
{
    h.wrapping_mul(314159269).cast_signed().unsigned_abs() % 1000000007
}

// A hash is carried on over more numbers: the plain step at each of them, eight at a time as long as there are eight.
#[tactic(auto, using(crate::proofs::Laws::eight_items))]
pub fn carry_on<T: Number>(from: u32, numbers: &[T]) -> u32
    ensures { result ≡ plain from (map T.value numbers.now) }
{
    let mut h = from;
    let mut rest = numbers;
    while let Some((stepped, tail)) = T::eight_step(h, rest) {
        h = stepped;
        rest = tail;
    }
    rest.iter().fold(h, |h, number| next(h, number.wide()))
}

pub fn hash_vista<T: Number>(numbers: &[T]) -> u32
    ensures { result ≡ vista (map T.value numbers.now) }
{
    carry_on(VISTA_START, numbers)
}

pub fn hash_xp<T: Number>(numbers: &[T]) -> u32
    ensures { result ≡ xp (map T.value numbers.now) }
{
    xp_end(carry_on(0, numbers))
}

// Vista and 2008 are equal on every list.
#[tactic(auto, using(crate::proofs::Laws::vista_2008))]
pub fn hash_2008<T: Number>(numbers: &[T]) -> u32
    ensures { result ≡ hash2008 (map T.value numbers.now) }
{
    carry_on(VISTA_START, numbers)
}
