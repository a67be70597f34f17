// Where a file keeps its fields: the head's, which every version has, and the constants of each version, kept together.
#![tactic(auto)]

ghost use Rattle.std.specs.Prelude.{◌≡◌, ◌<◌, ◌^◌, IfErr};
ghost use Rattle.lists.specs.Answer.{Answers};
ghost use Rattle.layout.specs.Head.{entry_offset};
ghost use Rattle.std.specs.Result.{result_ok};
ghost use Rattle.layout.specs.Versions.{layout_of, forms, form_at, version_number, version_of, known_said};

// Offsets in the head.
pub const VERSION_AT: usize = 0;

pub const SIGNATURE_AT: usize = 4;

pub const DECLARED_SIZE_AT: usize = 12;

pub const PROGRAM_NAME_AT: usize = 16;

pub const STORED_HASH_AT: usize = 76;

pub const METRICS_OFFSET_AT: usize = 84;

pub const METRICS_COUNT_AT: usize = 88;

pub const TRACE_OFFSET_AT: usize = 92;

pub const TRACE_COUNT_AT: usize = 96;

pub const STRINGS_OFFSET_AT: usize = 100;

pub const STRINGS_SIZE_AT: usize = 104;

pub const VOLUMES_OFFSET_AT: usize = 108;

pub const VOLUMES_COUNT_AT: usize = 112;

pub const VOLUMES_SIZE_AT: usize = 116;

// The units of the program name, its zero unit among them.
pub const PROGRAM_NAME_UNITS: u32 = 30;

// 53 43 43 41 as a number.
pub const SIGNATURE: u32 = 0x41434353;

// The greatest declared size.
pub const SIZE_LIMIT: u32 = 67_108_864;

#[derive(Clone, Copy, Debug, PartialEq, Eq)]
pub enum Version {
    V17,
    V23,
    V26,
    V30,
}

// A number that is no version's.
#[derive(Clone, Copy, Debug, PartialEq, Eq)]
pub struct UnknownVersion(pub u32);

// Where a version keeps its fields, and how long its entries are, in bytes. Each is a small number, so that no product of one with a
// 32-bit count wraps.
#[derive(Clone, Copy, Debug, PartialEq, Eq)]
pub struct Layout {
    // Where the latest run time stands, and how many there are one after another, each of 8 bytes.
    pub run_time_at: u16,
    pub time_count: u16,
    pub run_count_at: u16,
    // Document 01: H, the end of the last field read.
    pub head_end: u16,
    // The size of a metrics entry, and in it the places of the name's offset and of its length.
    pub metrics_entry: u16,
    pub name_offset_at: u16,
    pub name_length_at: u16,
    pub volume_entry: u16,
    // The size of a trace entry, and whether its first field is a next index.
    pub trace_entry: u16,
    pub has_next: bool,
    // Where Windows starts the first section.
    pub first_section: u16,
    // How many bytes tell the head form; 0 where the version has one form.
    pub form_required: u16,
    // The place of the file reference in a metrics entry; 0 where the version has none.
    pub file_reference_at: u16,
}

impl Layout {
    pub const V17: Layout = Layout {
        run_time_at: 120,
        time_count: 1,
        run_count_at: 144,
        head_end: 148,
        metrics_entry: 20,
        name_offset_at: 8,
        name_length_at: 12,
        volume_entry: 40,
        trace_entry: 12,
        has_next: true,
        first_section: 152,
        form_required: 0,
        file_reference_at: 0,
    };

    pub const V23: Layout = Layout {
        run_time_at: 128,
        time_count: 1,
        run_count_at: 152,
        head_end: 156,
        metrics_entry: 32,
        name_offset_at: 12,
        name_length_at: 16,
        volume_entry: 104,
        trace_entry: 12,
        has_next: true,
        first_section: 240,
        form_required: 0,
        file_reference_at: 24,
    };

    pub const V26: Layout = Layout {
        run_time_at: 128,
        time_count: 8,
        run_count_at: 208,
        head_end: 212,
        metrics_entry: 32,
        name_offset_at: 12,
        name_length_at: 16,
        volume_entry: 104,
        trace_entry: 12,
        has_next: true,
        first_section: 304,
        form_required: 0,
        file_reference_at: 24,
    };

    // The one head form of version 30 that is known: that of version 26, with entries of its own.
    pub const V30: Layout = Layout {
        run_time_at: Layout::V26.run_time_at,
        time_count: Layout::V26.time_count,
        run_count_at: Layout::V26.run_count_at,
        head_end: Layout::V26.head_end,
        metrics_entry: Layout::V26.metrics_entry,
        name_offset_at: Layout::V26.name_offset_at,
        name_length_at: Layout::V26.name_length_at,
        volume_entry: 96,
        trace_entry: 8,
        has_next: false,
        first_section: Layout::V26.first_section,
        form_required: 88,
        file_reference_at: Layout::V26.file_reference_at,
    };

    // Of a version with several head forms, the one with the smallest H.
    pub fn of(version: Version) -> Layout
        ensures { result ≡ layout_of version }
    {
        match version {
            Version::V17 => Layout::V17,
            Version::V23 => Layout::V23,
            Version::V26 => Layout::V26,
            Version::V30 => Layout::V30,
        }
    }

    // The head form of version 30 whose metrics array starts there, if it is known.
    pub fn of_form(start: u32) -> Option<Layout>
        ensures { result ≡ form_at start forms }
    {
        if start == Layout::V30.first_section as u32 {
            return Some(Layout::V30);
        }
        None
    }
}

// The number that stands in a file of a version.
impl From<Version> for u32 {
    ghost from_gives = { λ v n. n ≡ version_number v };

    fn from(version: Version) -> u32 {
        match version {
            Version::V17 => 17,
            Version::V23 => 23,
            Version::V26 => 26,
            Version::V30 => 30,
        }
    }
}

// The version of a number, where it is one of the four.
impl TryFrom<u32> for Version {
    type Error = UnknownVersion;

    ghost try_from_gives = { λ n r. Answers known_said (version_of n) (result_ok r) × IfErr r (λ u. u.0 ≡ n) };

    #[tactic(auto, unfolding(crate::specs::Versions::version_of))]
    fn try_from(number: u32) -> Result<Self, UnknownVersion> {
        match number {
            17 => Ok(Version::V17),
            23 => Ok(Version::V23),
            26 => Ok(Version::V26),
            30 => Ok(Version::V30),
            _ => Err(UnknownVersion(number)),
        }
    }
}

// Where entry i of an array starts in the file: entries of that size from `start`. No sum with it wraps.
pub fn entry_offset(start: u32, size: u16, i: u32) -> usize
    ensures { (result ≡ entry_offset start size i) × (result < 2 ^ 49) }
{
    start as usize + i as usize * (size as usize)
}
