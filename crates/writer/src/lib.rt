// Test files on demand: a file of version 17 or 23 from a name, tables of pairs and sections. Here are the functions that lay its bytes
// into a borrowed place; each writes from a place on, and what lies behind stays.
#![tactic(auto)]

ghost use Rattle.std.specs.Prelude.{◌≡◌, ◌++◌, ◌+◌, ◌-◌, ◌*◌, ◌/◌, ◌≤◌, length, replicate};
ghost use Rattle.layout.specs.Versions.{first_section};
ghost use Rattle.writer.specs.LaidOut.{bytes_of, unit_bytes, entries, head, laid_by};
ghost use Rattle.writer.specs.Writes.{description_of};
ghost use Rattle.writer.specs.Private.{patch, Ordered, with_gaps, numbers_at, pair_of, pair_bytes, fields_behind};

use crate::draft::{Draft, Shape};

mod contents;
mod draft;
mod write;

pub use contents::Contents;
pub use write::write_file;

fn put_zeros(output: &mut [u8], from: usize, to: usize)
    requires { (from ≤ to) × (to ≤ length output.old) }
    ensures { output.new ≡ patch output.old from (replicate (to - from) 0) }
{
    output[from..to].fill(0);
}

// The library asks of C for memcpy and memset alone, and `copy_from_slice` comes out as memmove.
fn put_bytes(output: &mut [u8], at: usize, bytes: &[u8])
    requires { at + length bytes.now ≤ length output.old }
    ensures { output.new ≡ patch output.old at bytes.now }
{
    for (i, b) in bytes.iter().enumerate() {
        output[at + i] = *b;
    }
}

// A number at a place, and zeros up to it.
fn put_field(output: &mut [u8], from: usize, at: usize, n: u32)
    requires { (from ≤ at) × (at + 4 ≤ length output.old) }
    ensures { output.new ≡ patch output.old from (replicate (at - from) 0 ++ bytes_of 4 n) }
{
    put_zeros(output, from, at);
    put_bytes(output, at, &n.to_le_bytes());
}

// Numbers at their places in rising order, and zeros between them.
fn put_fields(output: &mut [u8], start: usize, fields: &[(usize, u32)])
    requires { Ordered start (numbers_at fields.now) (length output.old) }
    ensures { output.new ≡ patch output.old start (with_gaps start (numbers_at fields.now)) }
{
    let mut from = start;
    for &(at, n) in fields {
        put_field(output, from, at, n);
        from = at + 4;
    }
}

// Units of a name.
fn put_units(output: &mut [u8], at: usize, units: &[u16])
    requires { at + 2 * length units.now ≤ length output.old }
    ensures { output.new ≡ patch output.old at (unit_bytes units.now) }
{
    for (i, unit) in units.iter().enumerate() {
        put_bytes(output, at + 2 * i, &unit.to_le_bytes());
    }
}

// An entry: the numbers of a pair at their places, and all other bytes zero.
fn put_pair(output: &mut [u8], at: usize, shape: Shape, first: u32, second: u32)
    requires { at + shape.size ≤ length output.old }
    ensures { output.new ≡ patch output.old at (pair_of shape first second) }
{
    put_zeros(output, at, at + shape.size);
    put_bytes(output, at + shape.first, &first.to_le_bytes());
    put_bytes(output, at + shape.second, &second.to_le_bytes());
}

// An array of entries one behind another, one for each pair of a table; an odd last number is ignored.
fn put_pairs(output: &mut [u8], at: usize, shape: Shape, table: &[u32])
    requires { at + length table.now / 2 * shape.size ≤ length output.old }
    ensures { output.new ≡ patch output.old at (entries (pair_bytes shape table.now) (length table.now / 2)) }
{
    for i in 0..table.len() / 2 {
        put_pair(
            output,
            at + i * shape.size,
            shape,
            table[2 * i],
            table[2 * i + 1],
        );
    }
}

// The fields of the head behind the program name, and zeros between them, from the name's end on.
fn put_behind(output: &mut [u8], from: usize, draft: Draft)
    requires { (from ≤ 76) × (first_section draft.layout ≤ length output.old) }
    ensures { output.new ≡ patch output.old from (with_gaps from (fields_behind draft.entry.layout draft.entry.plan draft.entry.contents)) }
{
    let layout = draft.layout;
    let plan = draft.plan;
    let contents = draft.contents;
    let time_at = layout.run_time_at as usize;
    let time = contents.run_time;
    put_fields(
        output,
        from,
        &[
            (layout::STORED_HASH_AT, contents.stored_hash),
            (layout::METRICS_OFFSET_AT, layout.first_section as u32),
            (layout::METRICS_COUNT_AT, plan.metrics),
            (layout::TRACE_OFFSET_AT, plan.trace_at),
            (layout::TRACE_COUNT_AT, plan.trace),
            (layout::STRINGS_OFFSET_AT, plan.strings_at),
            (layout::STRINGS_SIZE_AT, plan.strings),
            (layout::VOLUMES_OFFSET_AT, plan.volumes_at),
            (layout::VOLUMES_COUNT_AT, contents.volume_count),
            (layout::VOLUMES_SIZE_AT, plan.volumes),
            (time_at, (time % 4294967296) as u32),
            (time_at + 4, (time / 4294967296) as u32),
            (layout.run_count_at as usize, contents.run_count),
        ],
    );
}

// The head: what stands before the first section.
fn put_head(output: &mut [u8], draft: Draft)
    requires { first_section draft.layout ≤ length output.old }
    ensures { output.new ≡ patch output.old 0 (head draft.entry.version draft.entry.layout (description_of draft.entry.contents)) }
{
    put_fields(
        output,
        0,
        &[
            (layout::VERSION_AT, u32::from(draft.version)),
            (layout::SIGNATURE_AT, layout::SIGNATURE),
            (layout::DECLARED_SIZE_AT, draft.plan.size),
        ],
    );
    let name_at = layout::PROGRAM_NAME_AT;
    put_units(output, name_at, &draft.contents.name[..draft.units]);
    put_behind(output, name_at + 2 * draft.units, draft);
    put_zeros(
        output,
        draft.layout.run_count_at as usize + 4,
        draft.layout.first_section as usize,
    );
}

// The whole file.
fn put_file(output: &mut [u8], draft: Draft)
    requires { draft.plan.size ≤ length output.old }
    ensures { output.new ≡ patch output.old 0 (laid_by draft.entry.version draft.entry.layout (description_of draft.entry.contents)) }
{
    let layout = draft.layout;
    let plan = draft.plan;
    let contents = draft.contents;
    let name_and_length = Shape {
        first: layout.name_offset_at as usize,
        second: layout.name_length_at as usize,
        size: layout.metrics_entry as usize,
    };
    // The size is that of both versions: the loop is quicker by a constant.
    let next_and_blocks = Shape {
        first: 0,
        second: 4,
        size: 12,
    };
    put_head(output, draft);
    put_pairs(
        output,
        layout.first_section as usize,
        name_and_length,
        contents.metrics,
    );
    put_pairs(
        output,
        plan.trace_at as usize,
        next_and_blocks,
        contents.trace,
    );
    put_bytes(output, plan.strings_at as usize, contents.strings);
    put_bytes(output, plan.volumes_at as usize, contents.volumes);
}
