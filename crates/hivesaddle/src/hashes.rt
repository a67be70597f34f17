// The hashes, over numbers and over the bytes of a text, and the swapped start of a path.
ghost use Rattle.std.specs.Prelude.{◌≡◌};
ghost use Rattle.path_hash.specs.Hash.{xp, vista, hash2008};
ghost use Rattle.power_hash.specs.Powers.{hash_powers, swap_answer, swap_said};
ghost use Rattle.hivesaddle.specs.Output.{Answered};
ghost use Rattle.hivesaddle.specs.Private.{said_by};

use crate::replies::{Reply, put_reply};
use power_hash::TooLong;

pub fn hs_hash_xp(numbers: &[u32]) -> u32
    ensures { result ≡ xp numbers.now }
{
    path_hash::hash_xp(numbers)
}

pub fn hs_hash_vista(numbers: &[u32]) -> u32
    ensures { result ≡ vista numbers.now }
{
    path_hash::hash_vista(numbers)
}

pub fn hs_hash_2008(numbers: &[u32]) -> u32
    ensures { result ≡ hash2008 numbers.now }
{
    path_hash::hash_2008(numbers)
}

pub fn hs_hash_xp_bytes(text: &[u8]) -> u32
    ensures { result ≡ xp text.now }
{
    path_hash::hash_xp(text)
}

pub fn hs_hash_vista_bytes(text: &[u8]) -> u32
    ensures { result ≡ vista text.now }
{
    path_hash::hash_vista(text)
}

pub fn hs_hash_2008_bytes(text: &[u8]) -> u32
    ensures { result ≡ hash2008 text.now }
{
    path_hash::hash_2008(text)
}

// The Vista hash on the table of powers of 37.
pub fn hs_hash_powers(numbers: &[u32]) -> u32
    ensures { result ≡ hash_powers numbers.now }
{
    power_hash::hash_powers(numbers)
}

pub fn hs_hash_powers_bytes(text: &[u8]) -> u32
    ensures { result ≡ hash_powers text.now }
{
    power_hash::hash_powers(text)
}

// The refusal of a count that exceeds the old list, and what stands for the hash then.
const TOO_LONG: u32 = 25;

const NO_HASH: u64 = 0;

fn swap_reply(answer: Result<u32, TooLong>) -> Reply<1>
    ensures { said_by result ≡ swap_said answer }
{
    match answer {
        Ok(h) => Reply::new(0, [h as u64]),
        Err(TooLong) => Reply::new(TOO_LONG, [NO_HASH]),
    }
}

// The hash of a path whose first p numbers are swapped for another start, from the old hash.
pub fn hs_hash_swap(old_hash: u32, old: &[u32], p: u64, start: &[u32], out: &mut [u64]) -> u32
    ensures { Answered (swap_said (swap_answer old_hash old.now p start.now)) result out.old out.new }
{
    let answer = power_hash::hash_swap(old_hash, old, p as usize, start);
    put_reply(swap_reply(answer), out)
}

pub fn hs_hash_swap_bytes(old_hash: u32, old: &[u8], p: u64, start: &[u8], out: &mut [u64]) -> u32
    ensures { Answered (swap_said (swap_answer old_hash old.now p start.now)) result out.old out.new }
{
    let text_answer = power_hash::hash_swap(old_hash, old, p as usize, start);
    put_reply(swap_reply(text_answer), out)
}
