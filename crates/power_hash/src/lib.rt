// The Vista hash on a table of powers of 37, and the hash of a path whose start is swapped.
#![tactic(auto)]

ghost use Rattle.std.specs.Prelude.{◌≡◌, ◌+◌, ◌*◌, ◌%◌, ◌^◌, ◌≤◌, length, map};
ghost use Rattle.lists.specs.Answer.{Answers};
ghost use Rattle.path_hash.specs.Hash.{vista, wrap_sub};
ghost use Rattle.power_hash.specs.Powers.{PowerTable, hash_powers, swap_answer, swap_said};

mod entries;

use entries::POWERS;
use path_hash::{Number, VISTA_START};

// More numbers were to be swapped than there are.
#[derive(Clone, Copy, Debug, PartialEq, Eq)]
pub struct TooLong;

// 36 times the start, added to each number: 314159 times 37^n is 314159 and 36 times 314159 times each of the n powers below it. So
// the start needs no power of its own.
const MORE: u32 = 11309724;

// The most numbers that the table serves.
const TABLE_SIZE: usize = 1024;

// The table, which keeps the rule: proved once, here.
fn power_table() -> &'static [u32; 1024]
    ensures { PowerTable result.now }
{
    &POWERS
}

// 37 to the k by squaring: the cost grows with the logarithm of k. The library's `wrapping_pow` takes exponents of 32 bits alone.
fn raised(from: u32, k: usize) -> u32
    ensures { result ≡ from * 37 ^ k % 2 ^ 32 }
{
    let mut r = from;
    let mut b = 37u32;
    let mut q = k;
    while 0 < q {
        if q % 2 == 1 {
            r = r.wrapping_mul(b);
        }
        b = b.wrapping_mul(b);
        q /= 2;
    }
    r
}

// Each number times its power, and the start, added up. The products don't wait for each other, and the compiler takes eight at once.
fn sum_powers<T: Number>(numbers: &[T]) -> u32
    requires { length numbers.now ≤ 1024 }
    ensures { result ≡ vista (map T.value numbers.now) }
{
    let powers = &power_table()[..numbers.len()];
    numbers
        .iter()
        .zip(powers.iter().rev())
        .fold(0u32, |sum, (number, power)| {
            sum.wrapping_add(number.wide().wrapping_add(MORE).wrapping_mul(*power))
        })
        .wrapping_add(VISTA_START)
}

// The Vista hash of a list of numbers: up to 1,024 of them by the powers of 37, past that by the plain step.
#[tactic(auto, using(crate::proofs::Sum::powers_vista))]
pub fn hash_powers<T: Number>(numbers: &[T]) -> u32
    ensures { result ≡ hash_powers (map T.value numbers.now) }
{
    if TABLE_SIZE < numbers.len() {
        return path_hash::hash_vista(numbers);
    }
    sum_powers(numbers)
}

// The old hash plus the difference of the starts' hashes times the power of what is kept.
#[tactic(auto, using(crate::proofs::Swaps::swap_turn))]
fn swapped(hash: u32, new: u32, old: u32, kept: usize) -> u32
    ensures { result ≡ (hash + wrap_sub new old * 37 ^ kept) % 2 ^ 32 }
{
    hash.wrapping_add(raised(new.wrapping_sub(old), kept))
}

// The first p numbers of the old list swapped for another start. Only the starts are read, so the cost does not grow with what is
// kept, but for the logarithm of its length.
pub fn hash_swap<T: Number>(old_hash: u32, old: &[T], p: usize, start: &[T]) -> Result<u32, TooLong>
    ensures { Answers swap_said (swap_answer old_hash (map T.value old.now) p (map T.value start.now)) result }
{
    let (first, kept) = old.split_at_checked(p).ok_or(TooLong)?;
    let new = path_hash::hash_vista(start);
    let before = path_hash::hash_vista(first);
    Ok(swapped(old_hash, new, before, kept.len()))
}
