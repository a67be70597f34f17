// The catalogue line: size, stored hash, run count and version in digits, and a line feed. A new line has 8 digits for the size, an old
// one 6: the width below, which is no const parameter, as that is no plainer. Both are read, and only new lines are written.
#![tactic(auto)]

ghost use Rattle.std.specs.Prelude.{◌≡◌, true, ◌+◌, ◌≤◌, ◌++◌, length, drop};
ghost use Rattle.lines.specs.Lines.{is_line};
ghost use Rattle.catalogue.specs.Private.{reading_as};
ghost use Rattle.lists.specs.Count.{pick};
ghost use Rattle.catalogue.specs.Line.{fields_in, line_of, size_in_range, can_form, reading, read_answer, no_line, Writing};
ghost use Rattle.catalogue.specs.declared.Unwritten.TheVariants as unwritten;

use layout::{Layout, SIZE_LIMIT, Version};

// The limit for the size of an old line.
const OLD_SIZE_LIMIT: u32 = 16_777_215;

// The bytes of a new line.
const LINE_BYTES: usize = 27;

// What a line says of a file.
#[derive(Clone, Copy, Debug, PartialEq, Eq)]
pub struct Fields {
    pub size: u32,
    pub hash: u32,
    pub runs: u32,
    pub version: u32,
}

// Bytes or fields that give no line. Of bytes that are read it is refusal 18.
#[derive(Clone, Copy, Debug, PartialEq, Eq)]
pub struct NoLine;

// Why no line is written, which is refusal 19: the output is too short, or the fields can form no line.
#[derive(Clone, Copy, Debug, PartialEq, Eq)]
pub enum Unwritten {
    NoRoom,
    NoLine,
}

impl From<NoLine> for Unwritten {
    ghost from_gives = { λ _ e. e ≡ unwritten.NoLine };

    fn from(_none: NoLine) -> Unwritten {
        Unwritten::NoLine
    }
}

// The fields of a line of digits whose size has that width.
#[tactic(auto, using(crate::proofs::Line::number_small, lines::proofs::Lines::line_number), unfolding(crate::specs::Line::fields_in))]
fn fields_of(line: &[u8], width: usize) -> Fields
    requires { (width ≤ 8) × (is_line (width + 18) line.now ≡ true) }
    ensures { result ≡ fields_in width line.now }
{
    Fields {
        size: digits::number_in(line, 0, width) as u32,
        hash: digits::number_in(line, width, 8) as u32,
        runs: digits::number_in(line, width + 8, 8) as u32,
        version: digits::number_in(line, width + 16, 2) as u32,
    }
}

// Whether fields can form a line: a known version, and a size from the end of its head to the limit.
fn can_form(fields: Fields, limit: u32) -> bool
    ensures { result ≡ can_form limit fields }
{
    match Version::try_from(fields.version) {
        Ok(version) => size_in_range(version, fields.size, limit),
        Err(_) => false,
    }
}

fn size_in_range(version: Version, size: u32, limit: u32) -> bool
    ensures { result ≡ size_in_range limit (Some version) size }
{
    let least = Layout::of(version).head_end as u32;
    least <= size && size <= limit
}

// Fields that can form a line.
fn formed(fields: Fields, limit: u32) -> Result<Fields, NoLine>
    ensures { result ≡ pick (can_form limit fields) (Ok fields) (Err no_line) }
{
    if can_form(fields, limit) {
        Ok(fields)
    } else {
        Err(NoLine)
    }
}

// The fields of a line of that width and limit.
#[tactic(auto, using(crate::proofs::Line::read_formed, crate::proofs::Line::read_no_line))]
fn read_as(line: &[u8], width: usize, limit: u32) -> Result<Fields, NoLine>
    requires { width ≤ 8 }
    ensures { read_answer result ≡ reading_as width limit line.now }
{
    if !lines::is_line(line, width + 18) {
        return Err(NoLine);
    }
    formed(fields_of(line, width), limit)
}

// A line's fields. Its length tells an old line.
#[tactic(auto, using(crate::proofs::Line::read_old, crate::proofs::Line::read_new))]
pub fn read_line(line: &[u8]) -> Result<Fields, NoLine>
    ensures { read_answer result ≡ reading line.now }
{
    if line.len() == 25 {
        read_as(line, 6, OLD_SIZE_LIMIT)
    } else {
        read_as(line, 8, SIZE_LIMIT)
    }
}

// The digits of the fields and the line feed, where there is room for them.
#[tactic(auto, using(crate::proofs::NumbersWritten::line_written))]
fn write_fields(output: &mut [u8], fields: Fields, width: usize)
    requires { width + 19 ≤ length output.old }
    ensures { output.new ≡ line_of width fields ++ drop (width + 19) output.old }
{
    digits::write_number(output, 0, width, fields.size as u64);
    digits::write_number(output, width, 8, fields.hash as u64);
    digits::write_number(output, width + 8, 8, fields.runs as u64);
    digits::write_number(output, width + 16, 2, fields.version as u64);
    output[width + 18] = b'\n';
}

// The new line into the first 27 bytes of the output, which stays as it was where no line is written.
pub fn write_line(fields: Fields, output: &mut [u8]) -> Result<(), Unwritten>
    ensures { Writing fields output.old result output.new }
{
    if output.len() < LINE_BYTES {
        return Err(Unwritten::NoRoom);
    }
    write_fields(output, formed(fields, SIZE_LIMIT)?, 8);
    Ok(())
}
