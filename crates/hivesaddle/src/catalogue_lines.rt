// A catalogue line, read and written.
ghost use Rattle.std.specs.Prelude.{◌≡◌};
ghost use Rattle.catalogue.specs.Line.{reading, read_answer};
ghost use Rattle.hivesaddle.specs.Output.{Answered, line_values, line_said, fields_of, LineWriting};
ghost use Rattle.hivesaddle.specs.Private.{said_by, saying};

use crate::replies::{Reply, put_reply};
use catalogue::{Fields, NoLine};

// The refusal of bytes that are no line.
const NO_LINE: u32 = 18;

// A line's fields in the order of the output.
fn fields_reply(number: u32, f: Fields) -> Reply<4>
    ensures { said_by result ≡ saying number (line_values f) }
{
    Reply::new(
        number,
        [
            f.size as u64,
            f.hash as u64,
            f.runs as u64,
            f.version as u64,
        ],
    )
}

fn line_reply(answer: Result<Fields, NoLine>) -> Reply<4>
    ensures { said_by result ≡ line_said (read_answer answer) }
{
    match answer {
        Ok(f) => fields_reply(0, f),
        Err(_) => {
            let none = Fields {
                size: 0,
                hash: 0,
                runs: 0,
                version: 0,
            };
            fields_reply(NO_LINE, none)
        }
    }
}

// 0 and the line's size, stored hash, run count and version, or 18 and zeros.
pub fn hs_catalogue_read(line: &[u8], out: &mut [u64]) -> u32
    ensures { Answered (line_said (reading line.now)) result out.old out.new }
{
    put_reply(line_reply(catalogue::read_line(line)), out)
}

// 0 and the new line in the first 27 bytes of the output, or 19 and the output as it was.
pub fn hs_catalogue_write(size: u32, hash: u32, runs: u32, version: u32, output: &mut [u8]) -> u32
    ensures { LineWriting (fields_of size hash runs version) output.old result output.new }
{
    let fields = Fields {
        size,
        hash,
        runs,
        version,
    };
    match catalogue::write_line(fields, output) {
        Ok(()) => 0,
        Err(_) => 19,
    }
}
