ghost use Rattle.std.specs.Prelude.{◌≡◌, ◌≤◌, length};
ghost use Rattle.layout.specs.Head.{declared_size_at};
ghost use Rattle.incremental.specs.Decision.{refusal};
ghost use Rattle.incremental.specs.Plan.{run, answer_of};
ghost use Rattle.sections.specs.Fields.{link_count};
ghost use Rattle.head.specs.Opened.{OpenFacts};
ghost use Rattle.reader.specs.Checks.{names_required, trace_required, volumes_required};
ghost use Rattle.reader.specs.Checks.{counts_plan, fits_plan, texts_plan, trace_plan, volumes_plan, rest_plan};
ghost use Rattle.reader.specs.Checks.{prefix_answer, ReadsPrefix, ReadsFile, ReadsOpened};
ghost use Rattle.reader.specs.Private.{TraceAnswer, EntriesFit, verdict_of, whole_stop, WholeAnswer};

use crate::verdict::Acceptance;
use head::Opening;
use incremental::{Refusal, Stop, check, reach};
use names::Entries;

// Checks 7 and 8, with so many places in the working buffer.
fn check_counts(file: &[u8], o: Opening, places: usize) -> Result<(), Stop>
    ensures { answer_of result ≡ run (counts_plan places o) file.now }
{
    let volumes = o.head.volumes;
    reach(file, o.layout.head_end as usize)?;
    check(
        7,
        sections::places_fault(places, sections::link_count(o.layout, o.head)),
    )?;
    check(
        8,
        sections::entries_fault(volumes.count, o.layout.volume_entry, volumes.len),
    )?;
    Ok(())
}

// Document 01: the reach of check 10.
fn names_required(o: Opening) -> usize
    ensures { result ≡ names_required o.layout o.head }
{
    if o.head.metrics.count == 0 {
        return o.layout.head_end as usize;
    }
    o.head.metrics.end.max(o.head.strings.end)
}

// Check 9.
fn check_fits(file: &[u8], o: Opening) -> Result<(), Stop>
    ensures { answer_of result ≡ run (fits_plan o) file.now }
{
    let layout = o.layout;
    let section = o.head.metrics;
    let metrics = sections::part_of(reach(file, section.end)?, section);
    let names = Entries { metrics, layout };
    check(
        9,
        names::misfit_fault(
            &names,
            layout,
            section.at,
            section.count,
            o.head.strings.len,
        ),
    )?;
    Ok(())
}

// Check 10.
fn check_texts(file: &[u8], o: Opening) -> Result<(), Stop>
    ensures { answer_of result ≡ run (texts_plan o) file.now }
{
    let layout = o.layout;
    let section = o.head.metrics;
    let known = reach(file, names_required(o))?;
    let metrics = sections::part_of(known, section);
    let strings = sections::part_of(known, o.head.strings);
    let names = Entries { metrics, layout };
    check(
        10,
        names::unsound_fault(&names, layout, section.at, section.count, strings),
    )?;
    Ok(())
}

// Document 01: the reach of checks 11 to 13.
fn trace_required(o: Opening) -> usize
    ensures { result ≡ trace_required o.layout o.head }
{
    if o.layout.has_next {
        return o.head.trace.end;
    }
    o.layout.head_end as usize
}

// Checks 11 to 13: the chain count. Where they pass, the buffer is the table of predecessors.
fn check_trace(file: &[u8], o: Opening, predecessors: &mut [u32]) -> Result<usize, Stop>
    requires { link_count o.layout o.head ≤ length predecessors.old }
    ensures { TraceAnswer (run (trace_plan o) file.now) (length predecessors.old) result predecessors.new }
{
    let size = o.layout.trace_entry;
    let section = o.head.trace;
    let entries = sections::part_of(reach(file, trace_required(o))?, section);
    let nexts = trace::Entries {
        section: entries,
        size,
        entries: sections::link_count(o.layout, o.head),
    };
    let chains = trace::check_links(nexts, section.at, size, predecessors)?;
    Ok(chains)
}

// Document 01: the reach of checks 14 and 15.
fn volumes_required(o: Opening) -> usize
    ensures { result ≡ volumes_required o.layout o.head }
{
    if o.head.volumes.count == 0 {
        return o.layout.head_end as usize;
    }
    o.head.volumes.end
}

// Checks 14 and 15, where 8 has passed.
fn check_volumes(file: &[u8], o: Opening) -> Result<(), Stop>
    requires { OpenFacts file.now o × EntriesFit o }
    ensures { answer_of result ≡ run (volumes_plan o) file.now }
{
    let section = o.head.volumes;
    let volumes = sections::part_of(reach(file, volumes_required(o))?, section);
    Ok(volumes::check_volumes(volumes, o.layout, section.at, section.count)?)
}

// Checks 7 to 15 and the record.
fn check_rest(file: &[u8], o: Opening, predecessors: &mut [u32]) -> Result<Acceptance, Stop>
    requires { OpenFacts file.now o }
    ensures { verdict_of result predecessors.new ≡ run (rest_plan (length predecessors.old) o) file.now }
{
    check_counts(file, o, predecessors.len())?;
    check_fits(file, o)?;
    check_texts(file, o)?;
    let chains = check_trace(file, o, predecessors)?;
    check_volumes(file, o)?;
    let end = o.layout.head_end as usize;
    Ok(crate::verdict::record_of(o, &file[..end], chains))
}

// All checks. Where they accept, the buffer is the table.
fn check_all(file: &[u8], predecessors: &mut [u32]) -> Result<Acceptance, Stop>
    ensures { verdict_of result predecessors.new ≡ prefix_answer file.now (length predecessors.old) }
{
    let opening = head::read_open(file)?;
    check_rest(file, opening, predecessors)
}

// The verdict on a prefix of a file.
pub fn read_prefix(file: &[u8], predecessors: &mut [u32]) -> Result<Acceptance, Stop>
    ensures { ReadsPrefix file.now predecessors.old result predecessors.new }
{
    match check_all(file, predecessors) {
        Ok(accepted) => Ok(accepted),
        Err(stop) => {
            lists::fill(predecessors);
            Err(stop)
        }
    }
}

// Refusal 16 or 17 of a file that is not as long as it says.
fn wrong_length(number: u32) -> Refusal
    ensures { result ≡ refusal number 0 declared_size_at }
{
    incremental::refuse(number, 0, layout::DECLARED_SIZE_AT)
}

// What stops the checks on a prefix, said of a whole file: no more bytes will come, so what is wanted is missing.
fn whole_stop(stop: Stop) -> Refusal
    ensures { result ≡ whole_stop stop }
{
    match stop {
        Stop::Refused(refusal) => refusal,
        Stop::Wanted(_) => wrong_length(16),
    }
}

// All checks on a whole file, with what 1 to 6 give.
fn check_whole(file: &[u8], predecessors: &mut [u32]) -> Result<(Acceptance, Opening), Refusal>
    ensures { WholeAnswer file.now (length predecessors.old) result predecessors.new }
{
    let opening = match head::read_open(file) {
        Ok(o) => o,
        Err(stop) => return Err(whole_stop(stop)),
    };
    let accepted = match check_rest(file, opening, predecessors) {
        Ok(a) => a,
        Err(stop) => return Err(whole_stop(stop)),
    };
    let size = accepted.declared_size as usize;
    if file.len() < size {
        return Err(wrong_length(16));
    }
    if size < file.len() {
        return Err(wrong_length(17));
    }
    Ok((accepted, opening))
}

// The verdict on a whole file, with what checks 1 to 6 give, for those who go on from there.
pub fn read_opened(file: &[u8], predecessors: &mut [u32]) -> Result<(Acceptance, Opening), Refusal>
    ensures { ReadsOpened file.now predecessors.old result predecessors.new }
{
    match check_whole(file, predecessors) {
        Ok(accepted) => Ok(accepted),
        Err(refusal) => {
            lists::fill(predecessors);
            Err(refusal)
        }
    }
}

// The verdict on a whole file.
pub fn read_file(file: &[u8], predecessors: &mut [u32]) -> Result<Acceptance, Refusal>
    ensures { ReadsFile file.now predecessors.old result predecessors.new }
{
    let (accepted, _) = read_opened(file, predecessors)?;
    Ok(accepted)
}
