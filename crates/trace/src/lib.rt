// Checks 11 to 13 on a list of next indexes, the table of predecessors and the chain count.
#![tactic(auto)]

ghost use Rattle.std.specs.Prelude.{◌≡◌, ◌⊎◌, ◌*◌, ◌<◌, List, ℕ, length};
ghost use Rattle.lists.specs.Pairs.{first_of};
ghost use Rattle.little_endian.specs.Number.{le};
ghost use Rattle.layout.specs.Head.{entry_offset};
ghost use Rattle.incremental.specs.Decision.{refusal};
ghost use Rattle.trace.specs.Links.{end, after, nexts, firsts, predecessors, LinkListAnswer};
ghost use Rattle.trace.specs.Private.{Distinct, first_cyclic, LinkedBuffer, FilledBuffer, refusal_of};
ghost use Rattle.trace.specs.Private.{Stored, Passed, CyclesAnswered, LinksAnswered};
ghost use Rattle.trace.specs.Reads.{read-nexts, read-firsts};

use incremental::{Refusal, check};

const END: u32 = 4294967295;

// A list of next indexes: how many there are, and the one of each entry. It is passed by value, so that a loop that writes need not
// read it again.
pub trait Nexts: Copy + Drop {
    ghost indexes: { Self → List ℕ };

    // What is read as the one of entry i, be there such an entry or not.
    ghost read: { Self → ℕ → ℕ };

    fn count(&self) -> u32
        ensures { result ≡ length (indexes self.now) };

    fn next(&self, i: u32) -> u32
        ensures { result ≡ read self.now i };

    ghost agrees: { (x : Self) (i : ℕ) → i < length (indexes x) → read x i ≡ after (indexes x) i };
}

// Those in a file: the first field of each of so many entries of that size.
#[derive(Clone, Copy)]
pub struct Entries<'a> {
    pub section: &'a [u8],
    pub size: u16,
    pub entries: u32,
}

impl<'a> Nexts for Entries<'a> {
    ghost indexes = { λ e. nexts e.section.now e.size e.entries };

    ghost read = { λ e i. le 4 e.section.now (i * e.size) };

    #[tactic(auto, using(crate::proofs::Steps::listed))]
    fn count(&self) -> u32 {
        self.entries
    }

    fn next(&self, i: u32) -> u32 {
        little_endian::u32_at(self.section, i as usize * (self.size as usize))
    }

    ghost agrees = { λ e. read-nexts e.section.now e.size e.entries };
}

// Those that a description gives: the first number of each of so many pairs in a flat table.
#[derive(Clone, Copy)]
pub struct Pairs<'a> {
    pub table: &'a [u32],
    pub pairs: u32,
}

impl<'a> Nexts for Pairs<'a> {
    ghost indexes = { λ p. firsts p.table.now p.pairs };

    ghost read = { λ p. first_of p.table.now };

    #[tactic(auto, using(crate::proofs::Steps::listed))]
    fn count(&self) -> u32 {
        self.pairs
    }

    // So many pairs begin in the table, which a loop asks once; past them the number is 0.
    fn next(&self, i: u32) -> u32 {
        let i = i as usize;
        if i < self.table.len().div_ceil(2) {
            self.table[2 * i]
        } else {
            0
        }
    }

    ghost agrees = { λ p. read-firsts p.table.now p.pairs };
}

// What a check refuses: an entry astray, one that two entries name, one on a cycle.
#[derive(Clone, Copy, Debug, PartialEq, Eq)]
enum Broken {
    Astray(u32),
    Shared(u32),
    Cyclic(u32),
}

impl Broken {
    // As a refusal, where the entries start at `start` in the file.
    fn refusal(self, start: u32, size: u16) -> Refusal
        ensures { result ≡ refusal_of (entry_offset start size) self }
    {
        match self {
            Broken::Astray(i) => refused(11, start, size, i),
            Broken::Shared(i) => refused(12, start, size, i),
            Broken::Cyclic(i) => refused(13, start, size, i),
        }
    }
}

// The refusal of a check at entry i, of entries of that size from `start`.
fn refused(number: u32, start: u32, size: u16, i: u32) -> Refusal
    ensures { result ≡ refusal number i (entry_offset start size i) }
{
    incremental::refuse(number, i as usize, layout::entry_offset(start, size, i))
}

// What the pass for checks 11 and 12 counts: the entries that end a chain, and whether every next index is above its own.
#[derive(Clone, Copy, Debug, PartialEq, Eq)]
struct Pass {
    ends: usize,
    forward: bool,
}

// Entry i names `next`, whose place comes to hold i, or ends a chain. `least` is the smallest entry that was named twice so far.
fn store_predecessor(buffer: &mut [u32], i: u32, next: u32, least: u32) -> u32
    requires { (next ≡ end) ⊎ (next < length buffer.old) }
    ensures { Stored i next least buffer.old result buffer.new }
{
    if next == END {
        return least;
    }
    let at = next as usize;
    let earlier = buffer[at];
    buffer[at] = i;
    if earlier == END {
        return least;
    }
    next.min(least)
}

// Checks 11 and 12: the first entry astray, or else the smallest entry that two entries name. All in one pass, since a large
// section has to come from memory each time. A filled buffer becomes the table of predecessors where no entry is astray. `least` is
// the number of entries while none is named twice: a minimum is quicker than an Option.
fn store_predecessors<N: Nexts>(links: N, buffer: &mut [u32]) -> Result<Pass, Broken>
    requires { FilledBuffer (N.indexes links) buffer.old }
    ensures { Passed (N.indexes links) (length buffer.old) result buffer.new }
{
    let entries = links.count();
    let mut least = entries;
    let mut ends: usize = 0;
    let mut forward = true;
    for i in 0..entries {
        let next = links.next(i);
        if next == END {
            ends += 1;
        } else if entries <= next {
            return Err(Broken::Astray(i));
        }
        least = store_predecessor(buffer, i, next, least);
        forward = forward & (i < next);
    }
    if least < entries {
        return Err(Broken::Shared(least));
    }
    Ok(Pass { ends, forward })
}

// The table of predecessors, whatever the buffer held.
fn build_table<N: Nexts>(links: N, buffer: &mut [u32])
    requires { LinkedBuffer (N.indexes links) buffer.old }
    ensures { buffer.new ≡ predecessors (N.indexes links) (length buffer.old) }
{
    lists::fill(buffer);
    let _ = store_predecessors(links, buffer);
}

// Check 13: the smallest entry on a cycle. Each entry is walked over once: its place then holds the walk's first entry. A walk
// that comes back to its own first entry has found the cycle; since no two entries name one, a walk meets no other entry of its own.
// Two loops, left by label: document 01 names the form.
fn first_cyclic<N: Nexts>(links: N, marks: &mut [u32]) -> Option<u32>
    requires { LinkedBuffer (N.indexes links) marks.old × Distinct (N.indexes links) }
    ensures { result ≡ first_cyclic (N.indexes links) }
{
    lists::fill(marks);
    let mut found = None;
    'entries: for i in 0..links.count() {
        let mut j = i;
        while j != END {
            let at = j as usize;
            if marks[at] != END {
                break;
            }
            marks[at] = i;
            j = links.next(j);
            if j == i {
                found = Some(i);
                break 'entries;
            }
        }
    }
    found
}

// Check 13, and the table of predecessors built again where it passes.
fn check_cycles<N: Nexts>(links: N, buffer: &mut [u32]) -> Result<(), Broken>
    requires { LinkedBuffer (N.indexes links) buffer.old × Distinct (N.indexes links) }
    ensures { CyclesAnswered (N.indexes links) (length buffer.old) result buffer.new }
{
    if let Some(i) = first_cyclic(links, buffer) {
        return Err(Broken::Cyclic(i));
    }
    build_table(links, buffer);
    Ok(())
}

// Checks 11 to 13 with a filled buffer, and the chain count. Where every next index is above its own, as in the files that Windows
// writes, no entry is on a cycle: no walk is needed, and the table stands as it is.
#[tactic(auto, using(crate::proofs::Answers::links_refused, crate::proofs::Answers::passed_linked, crate::proofs::Answers::links_forward, crate::proofs::Answers::links_cycle))]
fn check_entries<N: Nexts>(links: N, buffer: &mut [u32]) -> Result<usize, Broken>
    requires { FilledBuffer (N.indexes links) buffer.old }
    ensures { LinksAnswered (N.indexes links) (length buffer.old) result buffer.new }
{
    let pass = store_predecessors(links, buffer)?;
    if pass.forward {
        return Ok(pass.ends);
    }
    check_cycles(links, buffer)?;
    Ok(pass.ends)
}

// Check 7, then checks 11 to 13 on entries of that size, which start at `start` in the file, and the chain count. Where all pass, the
// buffer becomes the table of predecessors, and else every place of it holds END.
#[tactic(auto, using(crate::proofs::Answers::answer_room, crate::proofs::Answers::answer_broken))]
pub fn check_links<N: Nexts>(
    links: N,
    start: u32,
    size: u16,
    predecessors: &mut [u32],
) -> Result<usize, Refusal>
    ensures { LinkListAnswer (entry_offset start size) (N.indexes links) (length predecessors.old) result predecessors.new }
{
    let places = predecessors.len();
    lists::fill(predecessors);
    check(7, sections::places_fault(places, links.count()))?;
    match check_entries(links, predecessors) {
        Ok(chains) => Ok(chains),
        Err(broken) => {
            lists::fill(predecessors);
            Err(broken.refusal(start, size))
        }
    }
}
