// Document 03, A1 and A2: what a volume lists, and the file reference of a metrics entry.
ghost use Rattle.std.specs.Prelude.{◌≡◌, ◌+◌, ◌≤◌, length};
ghost use Rattle.lists.specs.Answer.{Answers};
ghost use Rattle.lists.specs.Pairs.{pairs_in, PairsListed};
ghost use Rattle.layout.specs.Sound.{SoundLayout};
ghost use Rattle.layout.specs.Versions.{size_limit};
ghost use Rattle.head.specs.Opened.{OpenFacts};
ghost use Rattle.volumes.specs.Volumes.{entry_at};
ghost use Rattle.query.specs.Contents.{directory_pairs, reference_pairs, ListsDirectories, ListsReferences};
ghost use Rattle.query.specs.Contents.{file_reference_of, entry_reference_asked, entry_reference_said};
ghost use Rattle.query.specs.Private.{directories_shown, references_shown, entry_reference_in};

use head::Opening;
use layout::Layout;
use volumes::{Cursor, Reference};

// The directory strings from a position of a section that starts at `base` in the file, so many of them: as many pairs as fit.
fn list_directories(section: &[u8], base: u32, at: usize, count: u32, pairs: &mut [u32])
    requires { base + length section.now ≤ size_limit }
    ensures { pairs.new ≡ pairs_in (directory_pairs section.now base count at) pairs.old }
{
    let room = pairs.len() / 2;
    let mut cursor = Cursor { at: at };
    for k in 0..count {
        let i = k as usize;
        if room <= i {
            return;
        }
        let here = cursor.at;
        match cursor.step(section) {
            Ok(next) => {
                pairs[2 * i] = base + here as u32 + 2;
                pairs[2 * i + 1] = little_endian::u16_at(section, here) as u32;
                cursor = next;
            }
            Err(_) => return,
        }
    }
}

// The directories of volume i, where checks 1 to 6 pass: the volume is checked once, and then listed in one pass.
fn directories_in(file: &[u8], o: Opening, i: usize, pairs: &mut [u32]) -> usize
    requires { OpenFacts file.now o }
    ensures { PairsListed (directories_shown o file.now i) pairs.old result pairs.new }
{
    let l = o.layout;
    let h = o.head;
    let s = h.volumes;
    let section = sections::part_of(file, s);
    if !crate::section_shown(s, l, section, i) {
        return 0;
    }
    let v = volumes::volume_at(section, l, i as u32);
    let at = volumes::directories_at(section, l, i as u32);
    list_directories(section, s.at, at, v.directories, pairs);
    v.directories as usize
}

// All directories of volume i in order, each the file offset of its first unit and the number of its units without the last zero: their
// count, and as many whole pairs as fit.
pub fn directories(file: &[u8], i: usize, pairs: &mut [u32]) -> usize
    ensures { ListsDirectories file.now i pairs.old result pairs.new }
{
    match head::read_open(file) {
        Ok(o) => directories_in(file, o, i, pairs),
        Err(_) => 0,
    }
}

// The first `count` references of volume i: as many pairs as fit.
fn list_references(section: &[u8], l: Layout, i: u32, count: u32, pairs: &mut [u64])
    ensures { pairs.new ≡ pairs_in (reference_pairs section.now (entry_at l i) count 0) pairs.old }
{
    let room = pairs.len() / 2;
    for k in 0..count {
        let at = k as usize;
        if room <= at {
            return;
        }
        let r = volumes::reference_at(section, l, i, k);
        pairs[2 * at] = r.index;
        pairs[2 * at + 1] = r.sequence as u64;
    }
}

// The references of volume i, where checks 1 to 6 pass.
fn references_in(file: &[u8], o: Opening, i: usize, pairs: &mut [u64]) -> usize
    requires { OpenFacts file.now o }
    ensures { PairsListed (references_shown o file.now i) pairs.old result pairs.new }
{
    let l = o.layout;
    let h = o.head;
    let s = h.volumes;
    let section = sections::part_of(file, s);
    if !crate::section_shown(s, l, section, i) {
        return 0;
    }
    let v = volumes::volume_at(section, l, i as u32);
    list_references(section, l, i as u32, v.references, pairs);
    v.references as usize
}

// All references of volume i, each its entry index and its sequence number: their count, and as many whole pairs as fit.
pub fn references(file: &[u8], i: usize, pairs: &mut [u64]) -> usize
    ensures { ListsReferences file.now i pairs.old result pairs.new }
{
    match head::read_open(file) {
        Ok(o) => references_in(file, o, i, pairs),
        Err(_) => 0,
    }
}

// The file reference of metrics entry i, where the version has the field.
#[tactic(auto, using(crate::proofs::Entries::entry_references))]
fn file_reference(metrics: &[u8], l: Layout, i: u32) -> Option<Reference>
    requires { SoundLayout l }
    ensures { result ≡ file_reference_of l metrics.now i }
{
    if l.file_reference_at == 0 {
        return None;
    }
    let at = i as usize * (l.metrics_entry as usize) + l.file_reference_at as usize;
    Some(Reference {
        index: little_endian::u48_at(metrics, at),
        sequence: little_endian::u16_at(metrics, at + 6),
    })
}

// That of an entry that can be shown, where checks 1 to 6 pass.
fn entry_reference_in(file: &[u8], o: Opening, i: usize) -> Option<Option<Reference>>
    requires { OpenFacts file.now o }
    ensures { result ≡ entry_reference_in o file.now i }
{
    crate::entry_in(file, o, i)?;
    let metrics = sections::part_of(file, o.head.metrics);
    Some(file_reference(metrics, o.layout, i as u32))
}

// The file reference of metrics entry i of a file, where the entry can be shown; none where its version has no such field.
pub fn entry_reference(file: &[u8], i: usize) -> Option<Option<Reference>>
    ensures { Answers entry_reference_said (entry_reference_asked file.now i) result }
{
    match head::read_open(file) {
        Ok(o) => entry_reference_in(file, o, i),
        Err(_) => None,
    }
}
