// Checks 9 and 10: the names that metrics entries have in a strings section.
#![tactic(auto)]

ghost use Rattle.std.specs.Prelude.{◌≡◌, ◌+◌, ◌*◌, ◌≤◌, length};
ghost use Rattle.little_endian.specs.Number.{le, zero_unit};
ghost use Rattle.names.specs.Names.{fits, sound, name_at, name_units, name_field_at, Named, in_metrics, in_pairs, misfit_fault, unsound_fault};
ghost use Rattle.names.specs.Private.{zero_in, sound_text, FirstFault};

use incremental::Fault;
use layout::Layout;

// Whether a name of so many units at an offset fits a strings section of that size, with its zero unit.
#[tactic(auto, unfolding(crate::specs::Names::fits))]
pub fn name_fits(size: usize, at: u32, units: u32) -> bool
    ensures { result ≡ fits size at units }
{
    at as usize + 2 * (units as usize) + 2 <= size
}

// Whether the unit at an offset is zero, with no test of the section's end.
#[tactic(auto, using(crate::proofs::Laws::unit_zero))]
fn zero_unit(strings: &[u8], at: usize) -> bool
    requires { at + 2 ≤ length strings.now }
    ensures { result ≡ zero_unit strings.now at }
{
    strings[at] as u32 + 256 * (strings[at + 1] as u32) == 0
}

// Whether one of the eight units from an offset is zero. All eight are looked at, so that the processor can compare them at once.
#[tactic(auto, using(crate::proofs::Laws::zero_in_eight))]
fn zero_in_eight(strings: &[u8], at: usize) -> bool
    requires { at + 16 ≤ length strings.now }
    ensures { result ≡ zero_in strings.now at 8 }
{
    zero_unit(strings, at)
        | zero_unit(strings, at + 2)
        | zero_unit(strings, at + 4)
        | zero_unit(strings, at + 6)
        | zero_unit(strings, at + 8)
        | zero_unit(strings, at + 10)
        | zero_unit(strings, at + 12)
        | zero_unit(strings, at + 14)
}

// Whether the units from an offset have no zero unit among them, and one directly after them.
#[tactic(auto, using(crate::proofs::Laws::text_zero, crate::proofs::Laws::text_end))]
fn units_sound(strings: &[u8], at: usize, units: usize) -> bool
    requires { at + 2 * units + 2 ≤ length strings.now }
    ensures { result ≡ sound_text strings.now at units }
{
    for k in 0..units {
        if zero_unit(strings, at + 2 * k) {
            return false;
        }
    }
    zero_unit(strings, at + 2 * units)
}

// The same: first eight units at a time, then those that are left.
#[tactic(auto, using(crate::proofs::Laws::eight_zero, crate::proofs::Laws::eight_again))]
fn text_sound(strings: &[u8], at: usize, units: usize) -> bool
    requires { at + 2 * units + 2 ≤ length strings.now }
    ensures { result ≡ sound_text strings.now at units }
{
    let eights = units / 8;
    for e in 0..eights {
        if zero_in_eight(strings, at + 16 * e) {
            return false;
        }
    }
    units_sound(strings, at + 16 * eights, units % 8)
}

// Whether the name fits the section, has no zero unit inside, and a zero unit directly after it.
#[tactic(auto, using(crate::proofs::Laws::fits_le), unfolding(crate::specs::Names::sound))]
pub fn name_sound(strings: &[u8], at: u32, units: u32) -> bool
    ensures { result ≡ sound strings.now at units }
{
    name_fits(strings.len(), at, units) && text_sound(strings, at as usize, units as usize)
}

// A field of metrics entry i, by the entry's size and the field's place in it.
fn entry_field(metrics: &[u8], entry: u16, at: u16, i: u32) -> u32
    ensures { result ≡ le 4 metrics.now (i * entry + at) }
{
    little_endian::u32_at(metrics, i as usize * (entry as usize) + at as usize)
}

// The offset and the length of the name of metrics entry i.
pub fn name_at(metrics: &[u8], l: Layout, i: u32) -> u32
    ensures { result ≡ name_at l metrics.now i }
{
    entry_field(metrics, l.metrics_entry, l.name_offset_at, i)
}

// The length of that name in units.
pub fn name_units(metrics: &[u8], l: Layout, i: u32) -> u32
    ensures { result ≡ name_units l metrics.now i }
{
    entry_field(metrics, l.metrics_entry, l.name_length_at, i)
}

// The names of entries: where in a strings section the name of entry i starts, and how many units long it is.
pub trait Names {
    ghost named: { Self → Named };

    fn offset(&self, i: u32) -> u32
        ensures { result ≡ (named self.now).offset i };

    fn units(&self, i: u32) -> u32
        ensures { result ≡ (named self.now).units i };
}

// Those in a file: the entries of a metrics array, by the layout of its version.
#[derive(Clone, Copy)]
pub struct Entries<'a> {
    pub metrics: &'a [u8],
    pub layout: Layout,
}

impl<'a> Names for Entries<'a> {
    ghost named = { λ e. in_metrics e.layout e.metrics.now };

    fn offset(&self, i: u32) -> u32 {
        name_at(self.metrics, self.layout, i)
    }

    fn units(&self, i: u32) -> u32 {
        name_units(self.metrics, self.layout, i)
    }
}

// Those that a description gives: a flat table of pairs, each of them an offset and a length.
#[derive(Clone, Copy)]
pub struct Pairs<'a> {
    pub table: &'a [u32],
}

impl<'a> Names for Pairs<'a> {
    ghost named = { λ p. in_pairs p.table.now };

    fn offset(&self, i: u32) -> u32 {
        lists::number_at(self.table, 2 * (i as usize))
    }

    fn units(&self, i: u32) -> u32 {
        lists::number_at(self.table, 2 * (i as usize) + 1)
    }
}

// Where in the file the name-offset field of entry i stands, in a metrics array that starts at `start`.
fn name_field_at(l: Layout, start: u32, i: u32) -> usize
    ensures { result ≡ name_field_at l start i }
{
    layout::entry_offset(start, l.metrics_entry, i) + l.name_offset_at as usize
}

// The first of the entries that fails a test; its name-offset field is at fault.
fn first_fault<F: Fn(u32) -> bool>(l: Layout, start: u32, entries: u32, fails: F) -> Option<Fault>
    requires { F.IsAlwaysCallable fails }
    ensures { FirstFault (F.post fails) (name_field_at l start) entries result }
{
    for i in 0..entries {
        if fails(i) {
            return Some(Fault {
                index: i as usize,
                offset: name_field_at(l, start, i),
            });
        }
    }
    None
}

// Check 9: the first entry whose name does not fit a strings section of that size. The metrics start at `start` in the file.
// Inside the function that calls them, the loops of this and of check 10 run out of registers and take a fifth longer.
#[inline(never)]
#[tactic(auto, using(crate::proofs::Laws::first_fault_is), unfolding(crate::specs::Names::misfit_fault))]
pub fn misfit_fault<N: Names>(
    names: &N,
    l: Layout,
    start: u32,
    entries: u32,
    size: usize,
) -> Option<Fault>
    ensures { result ≡ misfit_fault l start (N.named names.now) entries size }
{
    first_fault(l, start, entries, |i| {
        !name_fits(size, names.offset(i), names.units(i))
    })
}

// Check 10: the first entry whose name is not sound.
#[inline(never)]
#[tactic(auto, using(crate::proofs::Laws::first_fault_is), unfolding(crate::specs::Names::unsound_fault))]
pub fn unsound_fault<N: Names>(
    names: &N,
    l: Layout,
    start: u32,
    entries: u32,
    strings: &[u8],
) -> Option<Fault>
    ensures { result ≡ unsound_fault l start (N.named names.now) entries strings.now }
{
    first_fault(l, start, entries, |i| {
        !name_sound(strings, names.offset(i), names.units(i))
    })
}
