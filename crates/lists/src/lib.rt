// Laws on lists that several crates need are in specs/; here is what they share of code.
#![tactic(auto)]

ghost use Rattle.std.specs.Prelude.{◌≡◌, length, get_or};
ghost use Rattle.lists.specs.Filled.{filled};
ghost use Rattle.lists.specs.Part.{IsPart};

// What a place holds that nothing has been put into.
const EMPTY: u32 = 4294967295;

// So many bytes from an offset, or as many of them as there are.
pub fn part(bytes: &[u8], at: usize, len: usize) -> &[u8]
    ensures { IsPart bytes.entry at len result }
{
    if bytes.len() < at {
        return &bytes[..0];
    }
    if bytes.len() - at <= len {
        return &bytes[at..];
    }
    let end = at + len;
    &bytes[at..end]
}

// The number at an index of a list; past its end 0, so the read is total.
pub fn number_at(list: &[u32], at: usize) -> u32
    ensures { result ≡ get_or list.now at 0 }
{
    list.get(at).copied().unwrap_or(0)
}

// Every place becomes empty.
pub fn fill(places: &mut [u32])
    ensures { places.new ≡ filled (length places.old) }
{
    places.fill(EMPTY);
}
