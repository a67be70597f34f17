// The walk over all chains of a file: every trace entry once, and the sum of their block counts.
#![tactic(auto)]

ghost use Rattle.std.specs.Prelude.{◌≡◌, length, ◌+◌, ◌*◌, ◌≤◌};
ghost use Rattle.little_endian.specs.Number.{le};
ghost use Rattle.trace.specs.Links.{nexts};
ghost use Rattle.walk.specs.Walk.{blocks, chain_of, walk, Walks};
ghost use Rattle.walk.specs.Private.{ChainFits, WalkFits, After, no_visits, Accepts};

use head::Opening;
use incremental::Refusal;

const END: u32 = 4294967295;

// How many entries have been visited, and what their block counts add up to.
#[derive(Clone, Copy, Debug, PartialEq, Eq)]
pub struct Visits {
    pub steps: usize,
    pub total: u64,
}

// The size of a trace entry that has a next index, the same in every version. The walk waits for each entry's next index, and a product
// with a constant is there sooner.
const ENTRY: usize = 12;

// Where its fields stand.
const NEXT: usize = 0;

const BLOCK_COUNT: usize = 4;

// The number at `field` of entry i, which is there: the next index at 0, the block count at 4.
fn field_at(section: &[u8], i: u32, field: usize) -> u32
    requires { (field ≤ 4) × (i * 12 + 8 ≤ length section.now) }
    ensures { result ≡ le 4 section.now (i * 12 + field) }
{
    let at = i as usize * ENTRY + field;
    little_endian::u32_at(&section[at..at + 4], 0)
}

// The chain of entry `head`, written behind the entries visited so far.
fn walk_chain(section: &[u8], entries: u32, head: u32, before: Visits, order: &mut [u32]) -> Visits
    requires { ChainFits (nexts section.now 12 entries) head before (length order.old) × (entries * 12 ≤ length section.now) }
    ensures { After (blocks section.now 12 entries) (chain_of (nexts section.now 12 entries) head) before order.old result
        order.new }
{
    let mut steps = before.steps;
    let mut total = before.total;
    let mut j = head;
    while j < entries {
        order[steps] = j;
        total += field_at(section, j, BLOCK_COUNT) as u64;
        steps += 1;
        j = field_at(section, j, NEXT);
    }
    Visits { steps, total }
}

// The chains of all heads in index order. A head is an entry without a predecessor.
fn walk_chains(section: &[u8], entries: u32, predecessors: &[u32], order: &mut [u32]) -> Visits
    requires { WalkFits (nexts section.now 12 entries) predecessors.now (length order.old) × (entries * 12 ≤ length section.now) }
    ensures { After (blocks section.now 12 entries) (walk (nexts section.now 12 entries)) no_visits order.old result
        order.new }
{
    let mut visits = Visits { steps: 0, total: 0 };
    for h in 0..entries {
        if predecessors[h as usize] == END {
            visits = walk_chain(section, entries, h, visits, order);
        }
    }
    visits
}

// The walk of a file that is accepted: 23, or all chains.
fn walk_opened(
    file: &[u8],
    o: Opening,
    predecessors: &mut [u32],
    order: &mut [u32],
) -> Result<Visits, Refusal>
    requires { Accepts file.now predecessors.old o }
    ensures { Walks file.now predecessors.old order.old result predecessors.new order.new }
{
    let l = o.layout;
    let head = o.head;
    let entries = sections::link_count(l, head);
    if order.len() < entries as usize {
        lists::fill(predecessors);
        return Err(incremental::refuse(23, 0, 0));
    }
    let section = sections::part_of(file, head.trace);
    Ok(walk_chains(section, entries, predecessors, order))
}

// All chains of a file from each head in index order, and the sum of the block counts along them.
pub fn walk(file: &[u8], predecessors: &mut [u32], order: &mut [u32]) -> Result<Visits, Refusal>
    ensures { Walks file.now predecessors.old order.old result predecessors.new order.new }
{
    let (_, opening) = reader::read_opened(file, predecessors)?;
    walk_opened(file, opening, predecessors, order)
}
