// The checks on what a file is to be made from, in the reader's order, and the writer.
ghost use Rattle.std.specs.Prelude.{◌≡◌, length};
ghost use Rattle.layout.specs.Versions.{layout_of};
ghost use Rattle.writer.specs.Writes.{description_of, writable, write_answer, file_for, Writes};
ghost use Rattle.writer.specs.Plans.{Writable, planned};
ghost use Rattle.writer.specs.Private.{carried_units, record_for, SectionsAnswered, Drafted, DraftedBy, Widths};

use crate::Contents;
use crate::draft::{Draft, Plan};
use incremental::{Refusal, check, given, refuse};
use layout::{Layout, Version};
use names::Pairs;
use reader::{Acceptance, RunTimes};

// What the lengths give: a plan, where its size is within the limit. Each length is compared before it is multiplied, so that no product
// wraps.
fn plan_of(layout: Layout, contents: Contents) -> Option<Plan>
    requires { Writable layout }
    ensures { result ≡ planned layout (description_of contents.entry) }
{
    let limit = layout::SIZE_LIMIT as usize;
    let metrics = contents.metrics.len() / 2;
    let trace = contents.trace.len() / 2;
    let strings = contents.strings.len();
    let volumes = contents.volumes.len();
    if limit < metrics.max(trace).max(strings).max(volumes) {
        return None;
    }
    let trace_at = layout.first_section as usize + metrics * (layout.metrics_entry as usize);
    let strings_at = trace_at + trace * (layout.trace_entry as usize);
    let size = strings_at + strings + volumes;
    if limit < size {
        return None;
    }
    Some(Plan {
        metrics: metrics as u32,
        trace: trace as u32,
        trace_at: trace_at as u32,
        strings_at: strings_at as u32,
        strings: strings as u32,
        volumes_at: (strings_at + strings) as u32,
        volumes: volumes as u32,
        size: size as u32,
    })
}

// How many units of a name the file carries: those before its first zero, if they leave room for a zero behind them.
fn carried_units(name: &[u16]) -> Option<usize>
    ensures { result ≡ carried_units name.now }
{
    let most = layout::PROGRAM_NAME_UNITS as usize;
    let first = &name[..name.len().min(most)];
    let units = first.iter().take_while(|unit| **unit != 0).count();
    if units < most { Some(units) } else { None }
}

// Checks 7 to 15. Where they pass, the buffer is the table of predecessors.
fn check_sections(draft: Draft, predecessors: &mut [u32]) -> Result<usize, Refusal>
    ensures { SectionsAnswered draft.entry.layout (description_of draft.entry.contents) (length predecessors.old) result predecessors.new }
{
    let layout = draft.layout;
    let plan = draft.plan;
    let contents = draft.contents;
    check(7, sections::places_fault(predecessors.len(), plan.trace))?;
    check(
        8,
        sections::entries_fault(
            contents.volume_count,
            layout.volume_entry,
            contents.volumes.len(),
        ),
    )?;
    let names = Pairs {
        table: contents.metrics,
    };
    let start = layout.first_section as u32;
    check(
        9,
        names::misfit_fault(&names, layout, start, plan.metrics, contents.strings.len()),
    )?;
    check(
        10,
        names::unsound_fault(&names, layout, start, plan.metrics, contents.strings),
    )?;
    let nexts = trace::Pairs {
        table: contents.trace,
        pairs: plan.trace,
    };
    let chains = trace::check_links(nexts, plan.trace_at, layout.trace_entry, predecessors)?;
    volumes::check_volumes(
        contents.volumes,
        layout,
        plan.volumes_at,
        contents.volume_count,
    )?;
    Ok(chains)
}

// The record of the file that is written.
fn record_of(draft: Draft, chains: usize) -> Acceptance
    ensures { result ≡ record_for draft.entry.version draft.entry.layout (description_of draft.entry.contents) chains }
{
    let plan = draft.plan;
    let contents = draft.contents;
    let times = RunTimes {
        count: 1,
        latest: contents.run_time,
        second: 0,
        third: 0,
        fourth: 0,
        fifth: 0,
        sixth: 0,
        seventh: 0,
        eighth: 0,
    };
    Acceptance {
        version: u32::from(draft.version),
        declared_size: plan.size,
        name_units: draft.units,
        stored_hash: contents.stored_hash,
        times,
        run_count: contents.run_count,
        metrics_count: plan.metrics,
        trace_count: plan.trace,
        volume_count: contents.volume_count,
        chain_count: chains,
    }
}

// The writer, where checks 1 to 4 have passed.
fn write_planned(
    draft: Draft,
    predecessors: &mut [u32],
    output: &mut [u8],
) -> Result<Acceptance, Refusal>
    ensures { DraftedBy draft.entry.version draft.entry.layout (description_of draft.entry.contents) (length predecessors.old) output.old result
        predecessors.new output.new }
{
    let chains = check_sections(draft, predecessors)?;
    if output.len() < draft.plan.size as usize {
        return Err(refuse(20, 0, 0));
    }
    crate::put_file(output, draft);
    Ok(record_of(draft, chains))
}

// Each number of a slice has its width: a proof knows that of a slice that is a parameter, and not of one in a struct.
fn have_widths(name: &[u16], metrics: &[u32], trace: &[u32])
    ensures { Widths name.now metrics.now trace.now }
{}

// The writer for a version.
fn write_version(
    version: Version,
    contents: Contents,
    predecessors: &mut [u32],
    output: &mut [u8],
) -> Result<Acceptance, Refusal>
    requires { Writable (layout_of version) }
    ensures { DraftedBy version (layout_of version) (description_of contents.entry) (length predecessors.old) output.old result
        predecessors.new output.new }
{
    have_widths(contents.name, contents.metrics, contents.trace);
    let layout = Layout::of(version);
    let plan = given(3, layout::DECLARED_SIZE_AT, plan_of(layout, contents))?;
    let units = given(4, layout::PROGRAM_NAME_AT, carried_units(contents.name))?;
    let draft = Draft {
        version,
        layout,
        contents,
        plan,
        units,
    };
    write_planned(draft, predecessors, output)
}

// The version that is written under a number.
#[tactic(auto, unfolding(crate::specs::Writes::writable))]
fn written_version(number: u32) -> Option<Version>
    ensures { result ≡ writable number }
{
    match number {
        17 => Some(Version::V17),
        23 => Some(Version::V23),
        _ => None,
    }
}

// The writer. Where it accepts, the buffer is the table.
fn write_checked(
    version: u32,
    contents: Contents,
    predecessors: &mut [u32],
    output: &mut [u8],
) -> Result<Acceptance, Refusal>
    ensures { Drafted (write_answer version (description_of contents.entry) (length predecessors.old) (length output.old))
        (file_for (writable version) (description_of contents.entry)) output.old result predecessors.new output.new }
{
    let version = given(1, layout::VERSION_AT, written_version(version))?;
    write_version(version, contents, predecessors, output)
}

// Lays a file out into a borrowed place. It answers as the whole-file reader does on that file, and 20 where the place is too short.
pub fn write_file(
    version: u32,
    contents: Contents,
    predecessors: &mut [u32],
    output: &mut [u8],
) -> Result<Acceptance, Refusal>
    ensures { Writes version (description_of contents.entry) predecessors.old output.old result predecessors.new output.new }
{
    let verdict = write_checked(version, contents, predecessors, output);
    if verdict.is_err() {
        lists::fill(predecessors);
    }
    verdict
}
