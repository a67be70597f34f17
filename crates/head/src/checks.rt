ghost use Rattle.std.specs.Prelude.{◌≡◌};
ghost use Rattle.incremental.specs.Plan.{run, answer_of};
ghost use Rattle.head.specs.Checks.{start_plan, form_plan, section_plan, open_plan};

use incremental::{Stop, check, given, reach};
use layout::{Layout, Version};
use sections::Head;

// Document 01: the reach of check 4, the end of the program name.
const NAME_REACH: usize = 76;

// What checks 1 to 4 give: the version with its layout, and the name's units before its first zero.
#[derive(Clone, Copy, Debug, PartialEq, Eq)]
pub struct Start {
    pub version: Version,
    pub layout: Layout,
    pub name_units: usize,
}

// What checks 1 to 6 give.
#[derive(Clone, Copy, Debug, PartialEq, Eq)]
pub struct Opening {
    pub version: Version,
    pub layout: Layout,
    pub name_units: usize,
    pub head: Head,
}

// Checks 1 to 4, in their order.
#[tactic(auto, using(crate::proofs::Steps::steps), unfolding(crate::specs::Checks::start_plan))]
pub fn read_start(file: &[u8]) -> Result<Start, Stop>
    ensures { answer_of result ≡ run start_plan file.now }
{
    let number = little_endian::u32_at(reach(file, 4)?, layout::VERSION_AT);
    let version = given(1, layout::VERSION_AT, Version::try_from(number).ok())?;
    let layout = Layout::of(version);
    check(2, sections::signature_fault(reach(file, 8)?))?;
    check(3, sections::size_fault(reach(file, 16)?, layout))?;
    let end = sections::name_end(reach(file, NAME_REACH)?);
    let name_units = given(4, layout::PROGRAM_NAME_AT, end)?;
    Ok(Start {
        version,
        layout,
        name_units,
    })
}

// Check 21: the start with the layout of its head form.
#[tactic(auto, using(crate::proofs::Steps::steps), unfolding(crate::specs::Checks::form_plan))]
fn check_form(file: &[u8], start: Start) -> Result<Start, Stop>
    ensures { answer_of result ≡ run (form_plan start) file.now }
{
    let least = start.layout;
    let known = reach(file, least.form_required as usize)?;
    let layout = given(
        21,
        layout::METRICS_OFFSET_AT,
        sections::find_form(known, least),
    )?;
    Ok(Start {
        version: start.version,
        layout,
        name_units: start.name_units,
    })
}

// Checks 5 and 6.
#[tactic(auto, using(crate::proofs::Steps::steps), unfolding(crate::specs::Checks::section_plan))]
fn check_sections(file: &[u8], start: Start) -> Result<Opening, Stop>
    ensures { answer_of result ≡ run (section_plan start) file.now }
{
    let layout = start.layout;
    let head = sections::head_of(layout, reach(file, layout.head_end as usize)?);
    check(5, sections::outside_fault(layout, head))?;
    check(6, sections::overlap_fault(head))?;
    Ok(Opening {
        version: start.version,
        layout,
        name_units: start.name_units,
        head,
    })
}

// Checks 1 to 6, with 21 among them.
#[tactic(auto, using(crate::proofs::Steps::steps), unfolding(crate::specs::Checks::open_plan))]
pub fn read_open(file: &[u8]) -> Result<Opening, Stop>
    ensures { answer_of result ≡ run open_plan file.now }
{
    let start = read_start(file)?;
    let formed = check_form(file, start)?;
    check_sections(file, formed)
}
