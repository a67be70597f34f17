// The fields of the head, the sections that they describe, and what checks 2 to 8 find wrong in them.
#![tactic(auto)]

ghost use Rattle.std.specs.Prelude.{◌≡◌, ◌≤◌};
ghost use Rattle.lists.specs.Part.{IsPart};
ghost use Rattle.incremental.specs.Decision.{fault};
ghost use Rattle.sections.specs.Fields.{offset_field_at, signature_fault, size_fault, name_units_in, name_end, section_of, head_of, outside, outside_fault, shares};
ghost use Rattle.sections.specs.Fields.{overlap_fault, places_fault, entries_fault, form_in, link_count};

use incremental::Fault;
use layout::{Layout, SIZE_LIMIT};

// A section of the file: offset, length in bytes, end, and the count that its head has.
#[derive(Clone, Copy, Debug, PartialEq, Eq)]
pub struct Section {
    pub at: u32,
    pub len: usize,
    pub end: usize,
    pub count: u32,
}

#[derive(Clone, Copy, Debug, PartialEq, Eq)]
pub struct Head {
    // Document 01: S.
    pub declared_size: u32,
    pub metrics: Section,
    pub trace: Section,
    pub strings: Section,
    pub volumes: Section,
}

// The bytes of a section, as many as there are.
pub fn part_of(bytes: &[u8], s: Section) -> &[u8]
    ensures { IsPart bytes.entry s.at s.len result }
{
    lists::part(bytes, s.at as usize, s.len)
}

// Check 2.
#[tactic(auto, unfolding(crate::specs::Fields::signature_fault))]
pub fn signature_fault(b: &[u8]) -> Option<Fault>
    ensures { result ≡ signature_fault b.now }
{
    if little_endian::u32_at(b, layout::SIGNATURE_AT) == layout::SIGNATURE {
        None
    } else {
        Some(Fault {
            index: 0,
            offset: layout::SIGNATURE_AT,
        })
    }
}

// Check 3.
#[tactic(auto, unfolding(crate::specs::Fields::size_fault))]
pub fn size_fault(b: &[u8], l: Layout) -> Option<Fault>
    ensures { result ≡ size_fault l b.now }
{
    let size = little_endian::u32_at(b, layout::DECLARED_SIZE_AT);
    if size < l.head_end as u32 {
        return Some(Fault {
            index: 0,
            offset: layout::DECLARED_SIZE_AT,
        });
    }
    if SIZE_LIMIT < size {
        return Some(Fault {
            index: 0,
            offset: layout::DECLARED_SIZE_AT,
        });
    }
    None
}

// How many of the program name's units lie whole in so many bytes.
#[tactic(auto, unfolding(crate::specs::Fields::name_units_in))]
fn name_units_in(length: usize) -> u32
    ensures { result ≡ name_units_in length }
{
    if length < layout::PROGRAM_NAME_AT {
        return 0;
    }
    if length < layout::STORED_HASH_AT {
        return ((length - layout::PROGRAM_NAME_AT) / 2) as u32;
    }
    layout::PROGRAM_NAME_UNITS
}

// Check 4: the number of the program name's units before its first zero. A unit that has not come whole is no zero.
pub fn name_end(b: &[u8]) -> Option<usize>
    ensures { result ≡ name_end b.now }
{
    let units = name_units_in(b.len());
    little_endian::first_zero_unit(b, layout::PROGRAM_NAME_AT as u32, units)
}

// Check 21: the layout of the head form, where the version's is `l`.
#[tactic(auto, unfolding(crate::specs::Fields::form_in))]
pub fn find_form(b: &[u8], l: Layout) -> Option<Layout>
    ensures { result ≡ form_in l b.now }
{
    if l.form_required == 0 {
        return Some(l);
    }
    let size = little_endian::u32_at(b, layout::DECLARED_SIZE_AT);
    let form = Layout::of_form(little_endian::u32_at(b, layout::METRICS_OFFSET_AT))?;
    if size < form.head_end as u32 {
        return None;
    }
    Some(form)
}

// A section by its offset and length. An empty one ends at H, so that no byte is waited for on its account.
fn section_of(h: usize, at: u32, len: usize, count: u32) -> Section
    requires { len ≤ 281474976710656 }
    ensures { result ≡ section_of h at len count }
{
    let end = if len == 0 { h } else { at as usize + len };
    Section {
        at,
        len,
        end,
        count,
    }
}

// The declared size and the sections. An empty section ends at H.
pub fn head_of(l: Layout, b: &[u8]) -> Head
    ensures { result ≡ head_of l b.now }
{
    let h = l.head_end as usize;
    let files = little_endian::u32_at(b, layout::METRICS_COUNT_AT);
    let links = little_endian::u32_at(b, layout::TRACE_COUNT_AT);
    let text = little_endian::u32_at(b, layout::STRINGS_SIZE_AT);
    let metrics = section_of(
        h,
        little_endian::u32_at(b, layout::METRICS_OFFSET_AT),
        files as usize * (l.metrics_entry as usize),
        files,
    );
    let trace = section_of(
        h,
        little_endian::u32_at(b, layout::TRACE_OFFSET_AT),
        links as usize * (l.trace_entry as usize),
        links,
    );
    let strings = section_of(
        h,
        little_endian::u32_at(b, layout::STRINGS_OFFSET_AT),
        text as usize,
        text,
    );
    let volumes = section_of(
        h,
        little_endian::u32_at(b, layout::VOLUMES_OFFSET_AT),
        little_endian::u32_at(b, layout::VOLUMES_SIZE_AT) as usize,
        little_endian::u32_at(b, layout::VOLUMES_COUNT_AT),
    );
    Head {
        declared_size: little_endian::u32_at(b, layout::DECLARED_SIZE_AT),
        metrics,
        trace,
        strings,
        volumes,
    }
}

// Whether a section of nonzero length starts before H or ends after S.
fn is_outside(h: usize, size: u32, s: Section) -> bool
    ensures { result ≡ outside h size s }
{
    if s.len == 0 {
        return false;
    }
    if (s.at as usize) < h {
        return true;
    }
    (size as usize) < s.end
}

// The fault of a section, by its number: its field is the section's offset in the head.
fn section_fault(n: usize) -> Option<Fault>
    ensures { result ≡ Some (fault n (offset_field_at n)) }
{
    match n {
        1 => Some(Fault {
            index: n,
            offset: layout::METRICS_OFFSET_AT,
        }),
        2 => Some(Fault {
            index: n,
            offset: layout::TRACE_OFFSET_AT,
        }),
        3 => Some(Fault {
            index: n,
            offset: layout::STRINGS_OFFSET_AT,
        }),
        _ => Some(Fault {
            index: n,
            offset: layout::VOLUMES_OFFSET_AT,
        }),
    }
}

// Check 5.
pub fn outside_fault(l: Layout, h: Head) -> Option<Fault>
    ensures { result ≡ outside_fault l h }
{
    let start = l.head_end as usize;
    let size = h.declared_size;
    let metrics = h.metrics;
    let trace = h.trace;
    let strings = h.strings;
    let volumes = h.volumes;
    if is_outside(start, size, metrics) {
        return section_fault(1);
    }
    if is_outside(start, size, trace) {
        return section_fault(2);
    }
    if is_outside(start, size, strings) {
        return section_fault(3);
    }
    if is_outside(start, size, volumes) {
        return section_fault(4);
    }
    None
}

// Whether two sections have a byte in common.
fn share(s: Section, t: Section) -> bool
    ensures { result ≡ shares s t }
{
    if s.len == 0 {
        return false;
    }
    if t.len == 0 {
        return false;
    }
    if t.end <= s.at as usize {
        return false;
    }
    (t.at as usize) < s.end
}

// Check 6.
pub fn overlap_fault(h: Head) -> Option<Fault>
    ensures { result ≡ overlap_fault h }
{
    let metrics = h.metrics;
    let trace = h.trace;
    let strings = h.strings;
    let volumes = h.volumes;
    if share(metrics, trace) {
        return section_fault(2);
    }
    if share(metrics, strings) {
        return section_fault(3);
    }
    if share(trace, strings) {
        return section_fault(3);
    }
    if share(metrics, volumes) {
        return section_fault(4);
    }
    if share(trace, volumes) {
        return section_fault(4);
    }
    if share(strings, volumes) {
        return section_fault(4);
    }
    None
}

// How many trace entries have a next index.
#[tactic(auto, unfolding(crate::specs::Fields::link_count))]
pub fn link_count(l: Layout, h: Head) -> u32
    ensures { result ≡ link_count l h }
{
    if l.has_next {
        return h.trace.count;
    }
    0
}

// Check 7.
pub fn places_fault(places: usize, count: u32) -> Option<Fault>
    ensures { result ≡ places_fault places count }
{
    if places < count as usize {
        return Some(Fault {
            index: 0,
            offset: layout::TRACE_COUNT_AT,
        });
    }
    None
}

// Check 8.
pub fn entries_fault(count: u32, entry: u16, size: usize) -> Option<Fault>
    ensures { result ≡ entries_fault count entry size }
{
    if size < count as usize * (entry as usize) {
        return Some(Fault {
            index: 0,
            offset: layout::VOLUMES_COUNT_AT,
        });
    }
    None
}
