// Queries about one entry of a file, and the path search: 1 for yes, 0 for no.
ghost use Rattle.std.specs.Prelude.{◌≡◌};
ghost use Rattle.query.specs.Queries.{place_said, program_place, entry_place, volume_asked, volume_list, volume_said};
ghost use Rattle.query.specs.Queries.{reference_asked, reference_said, places_needed, places_said};
ghost use Rattle.query.specs.Contents.{ListsDirectories, ListsReferences, entry_reference_asked, entry_reference_said};
ghost use Rattle.query.specs.Cost.{cost_asked, cost_said};
ghost use Rattle.path_search.specs.From.{path_found_from};
ghost use Rattle.path_search.specs.Search.{path_found, path_said, ListsPaths};
ghost use Rattle.hivesaddle.specs.Output.{Answered};
ghost use Rattle.hivesaddle.specs.Private.{said_by, saying};

use crate::replies::{Reply, put_reply};
use path_search::PathEntry;
use query::{FileCost, Place, VolumeFacts};
use volumes::Reference;

fn places_reply(answer: Option<u32>) -> Reply<1>
    ensures { said_by result ≡ places_said answer }
{
    match answer {
        Some(n) => Reply::new(1, [n as u64]),
        None => Reply::new(0, [0]),
    }
}

// How many working places the readers need for the file, where checks 1 to 6 pass.
pub fn hs_places(file: &[u8], out: &mut [u64]) -> u32
    ensures { Answered (places_said (places_needed file.now)) result out.old out.new }
{
    put_reply(places_reply(query::places(file)), out)
}

fn place_reply(answer: Option<Place>) -> Reply<2>
    ensures { said_by result ≡ place_said answer }
{
    match answer {
        Some(w) => Reply::new(1, [w.at as u64, w.len as u64]),
        None => Reply::new(0, [0, 0]),
    }
}

// Whether the program name can be shown: its offset in the file and its length in bytes.
pub fn hs_program_name(file: &[u8], out: &mut [u64]) -> u32
    ensures { Answered (place_said (program_place file.now)) result out.old out.new }
{
    put_reply(place_reply(query::program_place(file)), out)
}

// Whether the name of metrics entry i can be shown: its offset in the file and its length in bytes.
pub fn hs_entry_name(file: &[u8], i: u64, out: &mut [u64]) -> u32
    ensures { Answered (place_said (entry_place file.now i)) result out.old out.new }
{
    put_reply(place_reply(query::entry_place(file, i as usize)), out)
}

// A volume's facts in the order of the output.
fn facts_reply(number: u32, f: VolumeFacts) -> Reply<6>
    ensures { said_by result ≡ saying number (volume_list f) }
{
    let path = f.path;
    Reply::new(
        number,
        [
            f.created,
            f.serial as u64,
            f.references as u64,
            f.directories as u64,
            path.at as u64,
            path.len as u64,
        ],
    )
}

fn volume_reply(answer: Option<VolumeFacts>) -> Reply<6>
    ensures { said_by result ≡ volume_said answer }
{
    match answer {
        Some(f) => facts_reply(1, f),
        None => {
            let none = VolumeFacts {
                created: 0,
                serial: 0,
                references: 0,
                directories: 0,
                path: Place { at: 0, len: 0 },
            };
            facts_reply(0, none)
        }
    }
}

// Volume i: creation time, serial number, counts of references and directories, and the path's offset and length in bytes.
pub fn hs_volume(file: &[u8], i: u64, out: &mut [u64]) -> u32
    ensures { Answered (volume_said (volume_asked file.now i)) result out.old out.new }
{
    put_reply(volume_reply(query::volume(file, i as usize)), out)
}

fn reference_reply(answer: Option<Reference>) -> Reply<2>
    ensures { said_by result ≡ reference_said answer }
{
    match answer {
        Some(r) => Reply::new(1, [r.index, r.sequence as u64]),
        None => Reply::new(0, [0, 0]),
    }
}

// Reference k of volume i: entry index and sequence number.
pub fn hs_reference(file: &[u8], i: u64, k: u64, out: &mut [u64]) -> u32
    ensures { Answered (reference_said (reference_asked file.now i k)) result out.old out.new }
{
    let answer = query::reference(file, i as usize, k as usize);
    put_reply(reference_reply(answer), out)
}

// All directories of a volume, each the file offset of its first unit and its units without the last zero: their count, and as many
// whole pairs as fit.
pub fn hs_directories(file: &[u8], volume: u64, pairs: &mut [u32]) -> u64
    ensures { ListsDirectories file.now volume pairs.old result pairs.new }
{
    query::directories(file, volume as usize, pairs) as u64
}

// All references of a volume, each its entry index and its sequence number, in the same way.
pub fn hs_references(file: &[u8], volume: u64, pairs: &mut [u64]) -> u64
    ensures { ListsReferences file.now volume pairs.old result pairs.new }
{
    query::references(file, volume as usize, pairs) as u64
}

fn entry_reference_reply(answer: Option<Option<Reference>>) -> Reply<3>
    ensures { said_by result ≡ entry_reference_said answer }
{
    match answer {
        Some(Some(r)) => Reply::new(1, [1, r.index, r.sequence as u64]),
        Some(None) => Reply::new(1, [0, 0, 0]),
        None => Reply::new(0, [0, 0, 0]),
    }
}

// The file reference of metrics entry i: whether the version has the field, entry index and sequence number.
pub fn hs_entry_reference(file: &[u8], i: u64, out: &mut [u64]) -> u32
    ensures { Answered (entry_reference_said (entry_reference_asked file.now i)) result out.old out.new }
{
    put_reply(
        entry_reference_reply(query::entry_reference(file, i as usize)),
        out,
    )
}

fn cost_reply(answer: Option<FileCost>) -> Reply<2>
    ensures { said_by result ≡ cost_said answer }
{
    match answer {
        Some(c) => Reply::new(1, [c.names, c.directories]),
        None => Reply::new(0, [0, 0]),
    }
}

// What a file costs to read, where checks 1 to 6 pass: the bytes of its names and of its directories.
pub fn hs_cost(file: &[u8], out: &mut [u64]) -> u32
    ensures { Answered (cost_said (cost_asked file.now)) result out.old out.new }
{
    put_reply(cost_reply(query::cost(file)), out)
}

// What stands for the number where there is no path.
const NO_NUMBER: u64 = 0;

fn path_reply(answer: Option<PathEntry>) -> Reply<2>
    ensures { said_by result ≡ path_said answer }
{
    match answer {
        Some(entry) => Reply::new(1, [entry.index as u64, entry.number as u64]),
        None => Reply::new(0, [0, NO_NUMBER]),
    }
}

// The least number for which any entry matches the stored hash, and the first such entry.
pub fn hs_find_path(file: &[u8], out: &mut [u64]) -> u32
    ensures { Answered (path_said (path_found file.now)) result out.old out.new }
{
    put_reply(path_reply(path_search::find_path(file)), out)
}

// The same over the names that begin with the path of a volume, with a start in place of it.
pub fn hs_find_path_from(file: &[u8], volume: u64, start: &[u8], out: &mut [u64]) -> u32
    ensures { Answered (path_said (path_found_from file.now volume start.now)) result out.old out.new }
{
    put_reply(
        path_reply(path_search::find_path_from(file, volume as usize, start)),
        out,
    )
}

// All pairs of an entry and the number by which it matches: their count, and as many whole pairs as fit.
pub fn hs_list_paths(file: &[u8], pairs: &mut [u32]) -> u64
    ensures { ListsPaths file.now pairs.old result pairs.new }
{
    path_search::list_paths(file, pairs) as u64
}
