// The path search: the first name that can be shown and whose hash is the stored one.
#![tactic(auto)]

mod begins;
mod from_start;
mod pairs;

ghost use Rattle.std.specs.Prelude.{◌≡◌, ◌≤◌, length};
ghost use Rattle.lists.specs.Answer.{Answers};
ghost use Rattle.lists.specs.Pairs.{PairsListed};
ghost use Rattle.layout.specs.Versions.{size_limit};
ghost use Rattle.layout.specs.Sound.{SoundLayout};
ghost use Rattle.head.specs.Opened.{OpenFacts};
ghost use Rattle.path_search.specs.Search.{matches_by, least_pair, all_pairs, path_found, path_said, ListsPaths};
ghost use Rattle.path_search.specs.Private.{hash_start, hash_end, number_for, number_of, number_in, sought_on, searched, searched_on};

pub use from_start::find_path_from;
use head::Opening;
use layout::{Layout, Version};

// An entry, and the number that has to be added to its hash.
#[derive(Clone, Copy, Debug, PartialEq, Eq)]
pub struct PathEntry {
    pub index: usize,
    pub number: u32,
}

// What a search looks for: the stored hash. That of a name is carried on from the hash of a start, by the version's rule.
#[derive(Clone, Copy, Debug, PartialEq, Eq)]
struct Sought {
    version: Version,
    from: u32,
    stored: u32,
}

// Numbers from 0 to 8; this one stands for none.
const NO_NUMBER: u32 = 9;

// Where a version's hash starts.
fn hash_start(version: Version) -> u32
    ensures { result ≡ hash_start version }
{
    match version {
        Version::V17 => 0,
        Version::V23 => path_hash::VISTA_START,
        Version::V26 => path_hash::VISTA_START,
        Version::V30 => path_hash::VISTA_START,
    }
}

// Its end step: only XP has one.
fn hash_end(version: Version, h: u32) -> u32
    ensures { result ≡ hash_end version h }
{
    match version {
        Version::V17 => path_hash::xp_end(h),
        Version::V23 => h,
        Version::V26 => h,
        Version::V30 => h,
    }
}

// What has to be added to a hash, mod 2^32, to make it the stored one, where that is no more than 8.
fn number_for(stored: u32, hash: u32) -> u32
    ensures { result ≡ number_for stored hash }
{
    let n = std::num::wrapping_sub_u32(stored, hash);
    if n < NO_NUMBER { n } else { NO_NUMBER }
}

// The number of a name: the path that it belongs to is cut off, and the hash of the start carried on over the rest.
fn number_of(path: &[u8], name: &[u8], sought: Sought) -> u32
    ensures { result ≡ number_of sought path.now name.now }
{
    if !begins::belongs(path, name) {
        return NO_NUMBER;
    }
    let cut = path.len();
    let hash = path_hash::carry_on(sought.from, &name[cut..]);
    let version = sought.version;
    number_for(sought.stored, hash_end(version, hash))
}

// The number by which an entry that lies whole in the metrics matches. Few names match, so the hash comes first, and only a name that
// matches is looked through for a zero unit.
#[tactic(auto, using(crate::proofs::NameNumber::numbers))]
fn entry_number(
    metrics: &[u8],
    strings: &[u8],
    path: &[u8],
    l: Layout,
    i: u32,
    sought: Sought,
) -> u32
    ensures { result ≡ number_in sought path.now l metrics.now strings.now i }
{
    let at = names::name_at(metrics, l, i);
    let units = names::name_units(metrics, l, i);
    if !names::name_fits(strings.len(), at, units) {
        return NO_NUMBER;
    }
    let start = at as usize;
    let end = start + 2 * (units as usize);
    let n = number_of(path, &strings[start..end], sought);
    if n == NO_NUMBER {
        return NO_NUMBER;
    }
    if names::name_sound(strings, at, units) {
        n
    } else {
        NO_NUMBER
    }
}

// The least number over the entries that lie whole in the metrics, and the first entry that has it: the others can't be shown. None
// is less than 0, so the first entry with 0 ends the search.
#[tactic(auto, using(crate::proofs::Least::search_zero))]
fn search(
    metrics: &[u8],
    strings: &[u8],
    path: &[u8],
    l: Layout,
    sought: Sought,
) -> Option<PathEntry>
    requires { (length metrics.now ≤ size_limit) × SoundLayout l }
    ensures { result ≡ searched sought path.now l metrics.now strings.now }
{
    let entries = metrics.len() / (l.metrics_entry as usize);
    let mut least = NO_NUMBER;
    let mut index = 0;
    for i in 0..entries {
        let n = entry_number(metrics, strings, path, l, i as u32, sought);
        if n == 0 {
            return Some(PathEntry {
                index: i,
                number: 0,
            });
        }
        if n < least {
            least = n;
            index = i;
        }
    }
    if least < NO_NUMBER {
        return Some(PathEntry {
            index,
            number: least,
        });
    }
    None
}

// What is looked for in a file.
fn sought_in(file: &[u8], o: Opening, from: u32) -> Sought
    ensures { result ≡ sought_on o file.now from }
{
    let version = o.version;
    Sought {
        version: version,
        from: from,
        stored: little_endian::u32_at(file, layout::STORED_HASH_AT),
    }
}

// The search over the names that belong to a path, where checks 1 to 6 pass.
fn search_in(file: &[u8], o: Opening, path: &[u8], from: u32) -> Option<PathEntry>
    requires { OpenFacts file.now o }
    ensures { result ≡ searched_on o file.now path.now from }
{
    let l = o.layout;
    let h = o.head;
    let entries = h.metrics;
    let text = h.strings;
    let metrics = sections::part_of(file, entries);
    let strings = sections::part_of(file, text);
    search(metrics, strings, path, l, sought_in(file, o, from))
}

// The search over all names.
fn path_in(file: &[u8], o: Opening) -> Option<PathEntry>
    requires { OpenFacts file.now o }
    ensures { result ≡ least_pair (matches_by o file.now) o.head.metrics.count }
{
    let version = o.version;
    search_in(file, o, lists::part(file, 0, 0), hash_start(version))
}

// The least number for which any entry that can be shown matches the stored hash, and the first such entry.
pub fn find_path(file: &[u8]) -> Option<PathEntry>
    ensures { Answers path_said (path_found file.now) result }
{
    match head::read_open(file) {
        Ok(o) => path_in(file, o),
        Err(_) => None,
    }
}

// All pairs, where checks 1 to 6 pass.
fn paths_in(file: &[u8], o: Opening, pairs: &mut [u32]) -> usize
    requires { OpenFacts file.now o }
    ensures { PairsListed (all_pairs (matches_by o file.now) o.head.metrics.count) pairs.old result pairs.new }
{
    let version = o.version;
    let l = o.layout;
    let h = o.head;
    let entries = h.metrics;
    let text = h.strings;
    let metrics = sections::part_of(file, entries);
    let strings = sections::part_of(file, text);
    let sought = sought_in(file, o, hash_start(version));
    pairs::list_in(metrics, strings, lists::part(file, 0, 0), l, sought, pairs)
}

// All pairs of an entry and the number by which it matches, ordered by number and then by entry: their count, and as many whole pairs as
// fit.
pub fn list_paths(file: &[u8], pairs: &mut [u32]) -> usize
    ensures { ListsPaths file.now pairs.old result pairs.new }
{
    match head::read_open(file) {
        Ok(o) => paths_in(file, o, pairs),
        Err(_) => 0,
    }
}
