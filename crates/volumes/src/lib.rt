// Checks 8, 14 and 15 on a volumes section, and the facts of one volume.
#![tactic(auto)]

ghost use Rattle.std.specs.Prelude.{◌≡◌, ◌<◌, ◌^◌, eqb};
ghost use Rattle.lists.specs.Answer.{Answers};
ghost use Rattle.lists.specs.Count.{pick};
ghost use Rattle.incremental.specs.Decision.{decision_of, refusal};
ghost use Rattle.volumes.specs.Volumes.{step_at, step_said, entry_at, volume_checks, volumes_checks, volume_of, reference_of, path_fits};
ghost use Rattle.volumes.specs.Volumes.{path_at, path_count, path_units, reference_count, references_fit, directories_of, entry_checks};
ghost use Rattle.volumes.specs.Volumes.{directories_at, directory_count};

use incremental::{Refusal, check};
use layout::Layout;

// A position in a run of directory strings.
#[derive(Clone, Copy, Debug, PartialEq, Eq)]
pub struct Cursor {
    pub at: usize,
}

// Why there is no step over a directory string: it runs past the section (document 01: 14), or its last unit is not zero (document 01: 15).
#[derive(Clone, Copy, Debug, PartialEq, Eq)]
pub enum StepFault {
    Past,
    Unended,
}

impl Cursor {
    // Over the directory string here, to the position after it: its count of units, the units, and a zero. Nothing past the section is read.
    pub fn step(self, section: &[u8]) -> Result<Cursor, StepFault>
        ensures { Answers step_said (step_at section.now self.at) result }
    {
        let at = self.at;
        if section.len() < 2 {
            return Err(StepFault::Past);
        }
        if section.len() - 2 < at {
            return Err(StepFault::Past);
        }
        let units = little_endian::u16_at(section, at) as usize;
        let last = at + 2 + 2 * units;
        if section.len() - 2 < last {
            return Err(StepFault::Past);
        }
        if little_endian::u16_at(section, last) == 0 {
            Ok(Cursor { at: last + 2 })
        } else {
            Err(StepFault::Unended)
        }
    }
}

// What is asked of one volume: times and counts, and where its path lies, in the section, with its number of units.
#[derive(Clone, Copy, Debug, PartialEq, Eq)]
pub struct Volume {
    pub created: u64,
    pub serial: u32,
    pub references: u32,
    pub directories: u32,
    pub path: usize,
    pub units: usize,
}

// A file reference: the index of an entry in the file table, and its sequence number.
#[derive(Clone, Copy, Debug, PartialEq, Eq)]
pub struct Reference {
    pub index: u64,
    pub sequence: u16,
}

// The refusal of a check for volume i, whose entry starts at `place` in the file.
fn refused(number: u32, i: u32, place: usize) -> Result<(), Refusal>
    ensures { result ≡ Err (refusal number i place) }
{
    Err(incremental::refuse(number, i as usize, place))
}

// Where volume entry i starts: below 2^48, so that no sum with it wraps.
fn entry_at(l: Layout, i: u32) -> usize
    ensures { (result ≡ entry_at l i) × (result < 2 ^ 48) }
{
    i as usize * (l.volume_entry as usize)
}

// A volume entry of a section.
#[derive(Clone, Copy)]
struct Entry<'a> {
    section: &'a [u8],
    at: usize,
    ghost low: { at < 2 ^ 48 },
}

impl<'a> Entry<'a> {
    fn of(section: &'a [u8], l: Layout, i: u32) -> Entry<'a>
        ensures { (result.section.now ≡ section.now) × (result.at ≡ entry_at l i) }
    {
        Entry {
            section,
            at: entry_at(l, i),
        }
    }

    // Whether the path is empty or ends within the section.
    fn path_fits(self) -> bool
        ensures { result ≡ path_fits self.entry.section.now self.entry.at }
    {
        let count = little_endian::u32_at(self.section, self.at + 4) as usize;
        if count == 0 {
            return true;
        }
        let at = little_endian::u32_at(self.section, self.at) as usize;
        at + 2 * count <= self.section.len()
    }

    // The number of file references: 0 where their data has no bytes.
    #[inline(always)]
    fn reference_count(self) -> u32
        ensures { result ≡ reference_count self.entry.section.now self.entry.at }
    {
        if little_endian::u32_at(self.section, self.at + 24) == 0 {
            return 0;
        }
        let at = little_endian::u32_at(self.section, self.at + 20) as usize;
        little_endian::u32_at(self.section, at + 4)
    }

    // Whether the data of the file references is empty, or lies within the section and holds as many as it says.
    fn references_fit(self) -> bool
        ensures { result ≡ references_fit self.entry.section.now self.entry.at }
    {
        let size = little_endian::u32_at(self.section, self.at + 24) as usize;
        if size == 0 {
            return true;
        }
        if size < 8 {
            return false;
        }
        let at = little_endian::u32_at(self.section, self.at + 20) as usize;
        if self.section.len() < at + size {
            return false;
        }
        let count = self.reference_count() as usize;
        8 + 8 * count <= size
    }

    // Where the directories start in the section, and how many there are.
    fn directories_at(self) -> usize
        ensures { result ≡ directories_at self.entry.section.now self.entry.at }
    {
        little_endian::u32_at(self.section, self.at + 28) as usize
    }

    fn directory_count(self) -> u32
        ensures { result ≡ directory_count self.entry.section.now self.entry.at }
    {
        little_endian::u32_at(self.section, self.at + 32)
    }

    // A step over each directory string, of volume i. Each step goes on by at least 4 bytes, so the section's end stops a count
    // that is too high.
    fn check_directories(self, i: u32, place: usize) -> Result<(), Refusal>
        ensures { decision_of result ≡ directories_of self.entry.section.now i place self.entry.at }
    {
        let count = self.directory_count();
        let mut cursor = Cursor {
            at: self.directories_at(),
        };
        for _ in 0..count {
            match cursor.step(self.section) {
                Ok(next) => {
                    cursor = next;
                }
                Err(StepFault::Past) => return refused(14, i, place),
                Err(StepFault::Unended) => return refused(15, i, place),
            }
        }
        Ok(())
    }

    // Path, references, directories of volume i, in this order.
    fn check(self, i: u32, place: usize) -> Result<(), Refusal>
        ensures { decision_of result ≡ entry_checks self.entry.section.now i place self.entry.at }
    {
        if !self.path_fits() {
            return refused(14, i, place);
        }
        if !self.references_fit() {
            return refused(14, i, place);
        }
        self.check_directories(i, place)
    }

    // Where the path starts: 0 where it is empty.
    fn path_start(self) -> usize
        ensures { result ≡ pick (eqb (path_count self.entry.section.now self.entry.at) 0) 0 (path_at self.entry.section.now self.entry.at) }
    {
        if little_endian::u32_at(self.section, self.at + 4) == 0 {
            return 0;
        }
        little_endian::u32_at(self.section, self.at) as usize
    }

    // The path's units before its first zero unit, or all of them.
    fn path_units(self) -> usize
        ensures { result ≡ path_units self.entry.section.now self.entry.at }
    {
        let start = little_endian::u32_at(self.section, self.at);
        let count = little_endian::u32_at(self.section, self.at + 4);
        little_endian::first_zero_unit(self.section, start, count).unwrap_or(count as usize)
    }
}

// Checks 14 and 15 on volume i of a section that starts at `start` in the file.
pub fn check_volume(section: &[u8], l: Layout, start: u32, i: u32) -> Result<(), Refusal>
    ensures { decision_of result ≡ volume_checks section.now l start i }
{
    let place = layout::entry_offset(start, l.volume_entry, i);
    Entry::of(section, l, i).check(i, place)
}

// Check 8, then checks 14 and 15 on each of `count` volumes of a section that starts at `start` in the file.
pub fn check_volumes(section: &[u8], l: Layout, start: u32, count: u32) -> Result<(), Refusal>
    ensures { decision_of result ≡ volumes_checks section.now l start count }
{
    let size = l.volume_entry;
    check(8, sections::entries_fault(count, size, section.len()))?;
    for i in 0..count {
        check_volume(section, l, start, i)?;
    }
    Ok(())
}

// The facts of volume i, and of reference k of volume i.
pub fn volume_at(section: &[u8], l: Layout, i: u32) -> Volume
    ensures { result ≡ volume_of section.now (entry_at l i) }
{
    let entry = Entry::of(section, l, i);
    Volume {
        created: little_endian::u64_at(section, entry.at + 8),
        serial: little_endian::u32_at(section, entry.at + 16),
        references: entry.reference_count(),
        directories: entry.directory_count(),
        path: entry.path_start(),
        units: entry.path_units(),
    }
}

// Where the directories of volume i start in the section, and how many it has.
pub fn directories_at(section: &[u8], l: Layout, i: u32) -> usize
    ensures { result ≡ directories_at section.now (entry_at l i) }
{
    Entry::of(section, l, i).directories_at()
}

pub fn directory_count(section: &[u8], l: Layout, i: u32) -> u32
    ensures { result ≡ directory_count section.now (entry_at l i) }
{
    Entry::of(section, l, i).directory_count()
}

// Reference k of volume i: eight bytes each, behind the eight that start the list.
pub fn reference_at(section: &[u8], l: Layout, i: u32, k: u32) -> Reference
    ensures { result ≡ reference_of section.now (entry_at l i) k }
{
    let entry = Entry::of(section, l, i);
    let start = little_endian::u32_at(section, entry.at + 20) as usize;
    let at = start + 8 + 8 * (k as usize);
    Reference {
        index: little_endian::u48_at(section, at),
        sequence: little_endian::u16_at(section, at + 6),
    }
}
