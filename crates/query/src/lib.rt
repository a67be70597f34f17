// Queries about one entry of a file that is there in part or whole.
#![tactic(auto)]

ghost use Rattle.std.specs.Prelude.{◌≡◌, option_map};
ghost use Rattle.lists.specs.Answer.{Answers};
ghost use Rattle.head.specs.Opened.{OpenFacts};
ghost use Rattle.query.specs.Queries.{place_said, place_of, ShownAt, program_place, entry_place, volume_asked, volume_said, volume_values};
ghost use Rattle.query.specs.Queries.{path_place, reference_asked, reference_said, places_needed, places_said};
ghost use Rattle.query.specs.Private.{name_shown, entry_in, section_shown, volume_in, reference_in};

mod contents;
mod costs;

pub use contents::{directories, entry_reference, references};
pub use costs::{FileCost, cost};
use head::Opening;
use layout::Layout;
use sections::Section;
use volumes::Reference;

// A part of the file: its offset and its length in bytes.
#[derive(Clone, Copy, Debug, PartialEq, Eq)]
pub struct Place {
    pub at: usize,
    pub len: usize,
}

#[derive(Clone, Copy, Debug, PartialEq, Eq)]
pub struct VolumeFacts {
    pub created: u64,
    pub serial: u32,
    pub references: u32,
    pub directories: u32,
    pub path: Place,
}

// What stands for a place where there is none to show: an empty part at the start of the file.
const NOWHERE: Place = Place { at: 0, len: 0 };

// How many working places the readers need for the file, known where checks 1 to 6 pass.
pub fn places(file: &[u8]) -> Option<u32>
    ensures { Answers places_said (places_needed file.now) result }
{
    let opening = head::read_open(file).ok()?;
    Some(sections::link_count(opening.layout, opening.head))
}

// Where the program name stands, without its zero.
pub fn program_place(file: &[u8]) -> Option<Place>
    ensures { Answers place_said (program_place file.now) result }
{
    let start = head::read_start(file).ok()?;
    Some(Place {
        at: layout::PROGRAM_NAME_AT,
        len: 2 * start.name_units,
    })
}

// The bytes of the file at a place, and an empty part at its start where there is none to show.
fn part_shown(file: &[u8], shown: Option<Place>) -> &[u8]
    ensures { ShownAt file.entry (place_of shown) result }
{
    let place = shown.unwrap_or(NOWHERE);
    lists::part(file, place.at, place.len)
}

// The program name as the bytes of the file.
pub fn program_name(file: &[u8]) -> &[u8]
    ensures { ShownAt file.entry (place_of (program_place file.now)) result }
{
    part_shown(file, program_place(file))
}

// The name of an entry that lies whole in the metrics, as a place of the strings section.
fn name_shown(metrics: &[u8], strings: &[u8], l: Layout, i: u32) -> Option<Place>
    ensures { result ≡ name_shown l metrics.now strings.now i }
{
    let at = names::name_at(metrics, l, i);
    let units = names::name_units(metrics, l, i);
    if names::name_sound(strings, at, units) {
        Some(Place {
            at: at as usize,
            len: 2 * (units as usize),
        })
    } else {
        None
    }
}

// Metrics entry i, where checks 1 to 6 pass. The index is below a 32-bit count before it is cast.
#[tactic(auto, using(crate::proofs::Entries::entries))]
pub(crate) fn entry_in(file: &[u8], o: Opening, i: usize) -> Option<Place>
    requires { OpenFacts file.now o }
    ensures { result ≡ entry_in o file.now i }
{
    let l = o.layout;
    let h = o.head;
    let entries = h.metrics;
    if entries.count as usize <= i {
        return None;
    }
    let metrics = sections::part_of(file, entries);
    if metrics.len() < (i + 1) * (l.metrics_entry as usize) {
        return None;
    }
    let text = h.strings;
    let strings = sections::part_of(file, text);
    let name = name_shown(metrics, strings, l, i as u32)?;
    Some(Place {
        at: text.at as usize + name.at,
        len: name.len,
    })
}

// Where the name of metrics entry i stands, without its zero.
pub fn entry_place(file: &[u8], i: usize) -> Option<Place>
    ensures { Answers place_said (entry_place file.now i) result }
{
    match head::read_open(file) {
        Ok(o) => entry_in(file, o, i),
        Err(_) => None,
    }
}

// That name as the bytes of the file.
pub fn entry_name(file: &[u8], i: usize) -> &[u8]
    ensures { ShownAt file.entry (place_of (entry_place file.now i)) result }
{
    part_shown(file, entry_place(file, i))
}

// Whether volume i can be shown, on the bytes that are there of its section.
#[tactic(auto, using(crate::proofs::Volumes::sections))]
pub(crate) fn section_shown(s: Section, l: Layout, section: &[u8], i: usize) -> bool
    ensures { result ≡ section_shown s l section.now i }
{
    if sections::entries_fault(s.count, l.volume_entry, s.len).is_some() {
        return false;
    }
    if s.count as usize <= i {
        return false;
    }
    if section.len() < s.len {
        return false;
    }
    volumes::check_volume(section, l, s.at, i as u32).is_ok()
}

// Volume i, where checks 1 to 6 pass.
fn volume_in(file: &[u8], o: Opening, i: usize) -> Option<VolumeFacts>
    requires { OpenFacts file.now o }
    ensures { result ≡ volume_in o file.now i }
{
    let l = o.layout;
    let h = o.head;
    let s = h.volumes;
    let section = sections::part_of(file, s);
    if !section_shown(s, l, section, i) {
        return None;
    }
    let v = volumes::volume_at(section, l, i as u32);
    Some(VolumeFacts {
        created: v.created,
        serial: v.serial,
        references: v.references,
        directories: v.directories,
        path: Place {
            at: s.at as usize + v.path,
            len: 2 * v.units,
        },
    })
}

// The facts of volume i, its path as a place of the file.
pub fn volume(file: &[u8], i: usize) -> Option<VolumeFacts>
    ensures { Answers volume_said (volume_asked file.now i) result }
{
    let opening = head::read_open(file).ok()?;
    volume_in(file, opening, i)
}

fn path_of(facts: Option<VolumeFacts>) -> Option<Place>
    ensures { result ≡ option_map (λ (v : VolumeFacts). v.path) facts }
{
    Some(facts?.path)
}

// The path of volume i as the bytes of the file, and an empty part at its start where there is none to show.
pub fn volume_path(file: &[u8], i: usize) -> &[u8]
    ensures { ShownAt file.entry (volume_values (volume_asked file.now i)).path result }
{
    part_shown(file, path_of(volume(file, i)))
}

// The same for a file whose checks 1 to 6 gave that opening, so that it is not opened again: the path as a part of the volumes section.
pub fn path_in(file: &[u8], o: Opening, i: usize) -> &[u8]
    ensures { ShownAt file.entry (path_place o file.now i) result }
{
    let l = o.layout;
    let h = o.head;
    let s = h.volumes;
    let section = sections::part_of(file, s);
    if !section_shown(s, l, section, i) {
        return lists::part(file, 0, 0);
    }
    let v = volumes::volume_at(section, l, i as u32);
    lists::part(section, v.path, 2 * v.units)
}

// Reference k of volume i, where checks 1 to 6 pass.
fn reference_in(file: &[u8], o: Opening, i: usize, k: usize) -> Option<Reference>
    ensures { result ≡ reference_in o file.now i k }
{
    let l = o.layout;
    let h = o.head;
    let s = h.volumes;
    let section = sections::part_of(file, s);
    if !section_shown(s, l, section, i) {
        return None;
    }
    let v = volumes::volume_at(section, l, i as u32);
    if v.references as usize <= k {
        return None;
    }
    Some(volumes::reference_at(section, l, i as u32, k as u32))
}

// Reference k of volume i of a file: not shown where checks 1 to 6 do not pass.
pub fn reference(file: &[u8], i: usize, k: usize) -> Option<Reference>
    ensures { Answers reference_said (reference_asked file.now i k) result }
{
    let opening = head::read_open(file).ok()?;
    reference_in(file, opening, i, k)
}
