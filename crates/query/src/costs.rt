// Document 03, A4: what a file costs to read, in one pass over its entries.
ghost use Rattle.std.specs.Prelude.{◌≡◌, ◌≤◌};
ghost use Rattle.lists.specs.Answer.{Answers};
ghost use Rattle.lists.specs.Count.{sum_below};
ghost use Rattle.layout.specs.Versions.{size_limit};
ghost use Rattle.head.specs.Opened.{OpenFacts};
ghost use Rattle.query.specs.Cost.{whole_entries, name_cost, directory_cost, names_cost, directories_cost, cost_asked, cost_said};

use head::Opening;
use layout::Layout;

// Bytes of names, with their zero units, and of directories, each at its least.
#[derive(Clone, Copy, Debug, PartialEq, Eq)]
pub struct FileCost {
    pub names: u64,
    pub directories: u64,
}

// How many entries of that size lie whole in some bytes, of so many.
fn whole_entries(bytes: &[u8], size: u16, count: u32) -> u32
    requires { 1 ≤ size }
    ensures { result ≡ whole_entries bytes.now size count }
{
    let whole = bytes.len() / (size as usize);
    if whole < count as usize {
        return whole as u32;
    }
    count
}

// The bytes of the names, with their zero units, of the first entries that fit a strings section of that size.
fn names_cost(metrics: &[u8], l: Layout, size: usize, entries: u32) -> u64
    requires { size ≤ size_limit }
    ensures { result ≡ sum_below (name_cost l metrics.now size) entries }
{
    let mut sum: u64 = 0;
    for i in 0..entries {
        let at = names::name_at(metrics, l, i);
        let units = names::name_units(metrics, l, i);
        if names::name_fits(size, at, units) {
            sum += 2 * (units as u64) + 2;
        }
    }
    sum
}

// The bytes of the directories of the first volumes, four each at least, and of a volume no more than the section has.
fn directories_cost(section: &[u8], l: Layout, size: usize, entries: u32) -> u64
    requires { size ≤ size_limit }
    ensures { result ≡ sum_below (directory_cost l section.now size) entries }
{
    let mut sum: u64 = 0;
    for i in 0..entries {
        let bytes = 4 * (volumes::directory_count(section, l, i) as usize);
        sum += bytes.min(size) as u64;
    }
    sum
}

// Both, where checks 1 to 6 pass.
fn cost_in(file: &[u8], o: Opening) -> FileCost
    requires { OpenFacts file.now o }
    ensures { result ≡ record { names = names_cost o file.now; directories = directories_cost o file.now } }
{
    let l = o.layout;
    let h = o.head;
    let entries = h.metrics;
    let metrics = sections::part_of(file, entries);
    let listed = h.volumes;
    let section = sections::part_of(file, listed);
    FileCost {
        names: names_cost(
            metrics,
            l,
            h.strings.len,
            whole_entries(metrics, l.metrics_entry, entries.count),
        ),
        directories: directories_cost(
            section,
            l,
            listed.len,
            whole_entries(section, l.volume_entry, listed.count),
        ),
    }
}

// What a file costs to read: the bytes of its names and directories that a reader looks at, each as often as it is named.
pub fn cost(file: &[u8]) -> Option<FileCost>
    ensures { Answers cost_said (cost_asked file.now) result }
{
    let opening = head::read_open(file).ok()?;
    Some(cost_in(file, opening))
}
