// The static library for C and Rust: each function of `hivesaddle` under its exported name, with the same promise.
#![tactic(auto)]

ghost use Rattle.std.specs.Prelude.{◌≡◌};
ghost use Rattle.hivesaddle.specs.Output.{interface, PrefixOut, FileOut, WalkOut, WriteOut, Answered, line_said, fields_of, LineWriting, ReplayOut, progress_of, BeginOut, FeedOut, FinishOut, YearOut};
ghost use Rattle.writer.specs.LaidOut.{description};
ghost use Rattle.path_hash.specs.Hash.{xp, vista, hash2008};
ghost use Rattle.power_hash.specs.Powers.{hash_powers, swap_answer, swap_said};
ghost use Rattle.catalogue.specs.Line.{reading};
ghost use Rattle.query.specs.Queries.{place_said, program_place, entry_place, volume_asked, volume_said, reference_asked, reference_said, places_needed, places_said};
ghost use Rattle.query.specs.Contents.{ListsDirectories, ListsReferences, entry_reference_asked, entry_reference_said};
ghost use Rattle.query.specs.Cost.{cost_asked, cost_said};
ghost use Rattle.path_search.specs.From.{path_found_from};
ghost use Rattle.path_search.specs.Search.{path_found, path_said, ListsPaths};

// The interface that this library has: a program can see whether it is that of the header it was compiled with.
#[unsafe(no_mangle)]
pub extern "C" fn hs_interface() -> u32
    ensures { result ≡ interface }
{
    hivesaddle::hs_interface()
}

// The verdict on a prefix: 0 accepted, 1 refused, 2 more bytes wanted.
#[unsafe(no_mangle)]
pub extern "C" fn hs_read_prefix(file: &[u8], predecessors: &mut [u32], out: &mut [u64]) -> u32
    ensures { PrefixOut file.now predecessors.old result predecessors.new out.old out.new }
{
    hivesaddle::files::hs_read_prefix(file, predecessors, out)
}

// The verdict on a whole file.
#[unsafe(no_mangle)]
pub extern "C" fn hs_read_file(file: &[u8], predecessors: &mut [u32], out: &mut [u64]) -> u32
    ensures { FileOut file.now predecessors.old result predecessors.new out.old out.new }
{
    hivesaddle::files::hs_read_file(file, predecessors, out)
}

// The writer of test files: 0 written, 1 refused; `out` as the readers'.
#[unsafe(no_mangle)]
pub extern "C" fn hs_write_file(
    version: u32,
    name: &[u16],
    stored_hash: u32,
    run_time: u64,
    run_count: u32,
    metrics: &[u32],
    trace: &[u32],
    strings: &[u8],
    volumes: &[u8],
    volume_count: u32,
    predecessors: &mut [u32],
    output: &mut [u8],
    out: &mut [u64],
) -> u32
    ensures { WriteOut version (description name.now stored_hash run_time run_count metrics.now trace.now
        strings.now volumes.now volume_count) predecessors.old output.old result predecessors.new
        output.new out.old out.new }
{
    hivesaddle::files::hs_write_file(
        version,
        name,
        stored_hash,
        run_time,
        run_count,
        metrics,
        trace,
        strings,
        volumes,
        volume_count,
        predecessors,
        output,
        out,
    )
}

// The walk over all chains of a file: 0 walked, 1 refused.
#[unsafe(no_mangle)]
pub extern "C" fn hs_walk(
    file: &[u8],
    predecessors: &mut [u32],
    order: &mut [u32],
    out: &mut [u64],
) -> u32
    ensures { WalkOut file.now predecessors.old order.old result predecessors.new order.new
        out.old out.new }
{
    hivesaddle::files::hs_walk(file, predecessors, order, out)
}

#[unsafe(no_mangle)]
pub extern "C" fn hs_hash_xp(numbers: &[u32]) -> u32
    ensures { result ≡ xp numbers.now }
{
    hivesaddle::hashes::hs_hash_xp(numbers)
}

#[unsafe(no_mangle)]
pub extern "C" fn hs_hash_vista(numbers: &[u32]) -> u32
    ensures { result ≡ vista numbers.now }
{
    hivesaddle::hashes::hs_hash_vista(numbers)
}

#[unsafe(no_mangle)]
pub extern "C" fn hs_hash_2008(numbers: &[u32]) -> u32
    ensures { result ≡ hash2008 numbers.now }
{
    hivesaddle::hashes::hs_hash_2008(numbers)
}

#[unsafe(no_mangle)]
pub extern "C" fn hs_hash_xp_bytes(text: &[u8]) -> u32
    ensures { result ≡ xp text.now }
{
    hivesaddle::hashes::hs_hash_xp_bytes(text)
}

#[unsafe(no_mangle)]
pub extern "C" fn hs_hash_vista_bytes(text: &[u8]) -> u32
    ensures { result ≡ vista text.now }
{
    hivesaddle::hashes::hs_hash_vista_bytes(text)
}

#[unsafe(no_mangle)]
pub extern "C" fn hs_hash_2008_bytes(text: &[u8]) -> u32
    ensures { result ≡ hash2008 text.now }
{
    hivesaddle::hashes::hs_hash_2008_bytes(text)
}

// The Vista hash on the table of powers of 37.
#[unsafe(no_mangle)]
pub extern "C" fn hs_hash_powers(numbers: &[u32]) -> u32
    ensures { result ≡ hash_powers numbers.now }
{
    hivesaddle::hashes::hs_hash_powers(numbers)
}

#[unsafe(no_mangle)]
pub extern "C" fn hs_hash_powers_bytes(text: &[u8]) -> u32
    ensures { result ≡ hash_powers text.now }
{
    hivesaddle::hashes::hs_hash_powers_bytes(text)
}

// The hash of a path whose first p numbers are swapped for another start, from the old hash.
#[unsafe(no_mangle)]
pub extern "C" fn hs_hash_swap(
    old_hash: u32,
    old: &[u32],
    p: u64,
    start: &[u32],
    out: &mut [u64],
) -> u32
    ensures { Answered (swap_said (swap_answer old_hash old.now p start.now)) result out.old out.new }
{
    hivesaddle::hashes::hs_hash_swap(old_hash, old, p, start, out)
}

#[unsafe(no_mangle)]
pub extern "C" fn hs_hash_swap_bytes(
    old_hash: u32,
    old: &[u8],
    p: u64,
    start: &[u8],
    out: &mut [u64],
) -> u32
    ensures { Answered (swap_said (swap_answer old_hash old.now p start.now)) result out.old out.new }
{
    hivesaddle::hashes::hs_hash_swap_bytes(old_hash, old, p, start, out)
}

// 0 and the line's size, stored hash, run count and version, or 18 and zeros.
#[unsafe(no_mangle)]
pub extern "C" fn hs_catalogue_read(line: &[u8], out: &mut [u64]) -> u32
    ensures { Answered (line_said (reading line.now)) result out.old out.new }
{
    hivesaddle::catalogue_lines::hs_catalogue_read(line, out)
}

// 0 and the new line in the first 27 bytes of the output, or 19 and the output as it was.
#[unsafe(no_mangle)]
pub extern "C" fn hs_catalogue_write(
    size: u32,
    hash: u32,
    runs: u32,
    version: u32,
    output: &mut [u8],
) -> u32
    ensures { LineWriting (fields_of size hash runs version) output.old result output.new }
{
    hivesaddle::catalogue_lines::hs_catalogue_write(size, hash, runs, version, output)
}

// How many working places the readers need for the file, where checks 1 to 6 pass.
#[unsafe(no_mangle)]
pub extern "C" fn hs_places(file: &[u8], out: &mut [u64]) -> u32
    ensures { Answered (places_said (places_needed file.now)) result out.old out.new }
{
    hivesaddle::queries::hs_places(file, out)
}

// Whether the program name can be shown: its offset in the file and its length in bytes.
#[unsafe(no_mangle)]
pub extern "C" fn hs_program_name(file: &[u8], out: &mut [u64]) -> u32
    ensures { Answered (place_said (program_place file.now)) result out.old out.new }
{
    hivesaddle::queries::hs_program_name(file, out)
}

// Whether the name of metrics entry i can be shown: its offset in the file and its length in bytes.
#[unsafe(no_mangle)]
pub extern "C" fn hs_entry_name(file: &[u8], i: u64, out: &mut [u64]) -> u32
    ensures { Answered (place_said (entry_place file.now i)) result out.old out.new }
{
    hivesaddle::queries::hs_entry_name(file, i, out)
}

// Volume i: creation time, serial number, counts of references and directories, and the path's offset and length in bytes.
#[unsafe(no_mangle)]
pub extern "C" fn hs_volume(file: &[u8], i: u64, out: &mut [u64]) -> u32
    ensures { Answered (volume_said (volume_asked file.now i)) result out.old out.new }
{
    hivesaddle::queries::hs_volume(file, i, out)
}

// Reference k of volume i: entry index and sequence number.
#[unsafe(no_mangle)]
pub extern "C" fn hs_reference(file: &[u8], i: u64, k: u64, out: &mut [u64]) -> u32
    ensures { Answered (reference_said (reference_asked file.now i k)) result out.old out.new }
{
    hivesaddle::queries::hs_reference(file, i, k, out)
}

// All directories of a volume, each the file offset of its first unit and its units without the last zero: their count, and as many
// whole pairs as fit.
#[unsafe(no_mangle)]
pub extern "C" fn hs_directories(file: &[u8], volume: u64, pairs: &mut [u32]) -> u64
    ensures { ListsDirectories file.now volume pairs.old result pairs.new }
{
    hivesaddle::queries::hs_directories(file, volume, pairs)
}

// All references of a volume, each its entry index and its sequence number, in the same way.
#[unsafe(no_mangle)]
pub extern "C" fn hs_references(file: &[u8], volume: u64, pairs: &mut [u64]) -> u64
    ensures { ListsReferences file.now volume pairs.old result pairs.new }
{
    hivesaddle::queries::hs_references(file, volume, pairs)
}

// The file reference of metrics entry i: whether the version has the field, entry index and sequence number.
#[unsafe(no_mangle)]
pub extern "C" fn hs_entry_reference(file: &[u8], i: u64, out: &mut [u64]) -> u32
    ensures { Answered (entry_reference_said (entry_reference_asked file.now i)) result out.old out.new }
{
    hivesaddle::queries::hs_entry_reference(file, i, out)
}

// What a file costs to read, where checks 1 to 6 pass: the bytes of its names and of its directories.
#[unsafe(no_mangle)]
pub extern "C" fn hs_cost(file: &[u8], out: &mut [u64]) -> u32
    ensures { Answered (cost_said (cost_asked file.now)) result out.old out.new }
{
    hivesaddle::queries::hs_cost(file, out)
}

// The least number for which any entry matches the stored hash, and the first such entry.
#[unsafe(no_mangle)]
pub extern "C" fn hs_find_path(file: &[u8], out: &mut [u64]) -> u32
    ensures { Answered (path_said (path_found file.now)) result out.old out.new }
{
    hivesaddle::queries::hs_find_path(file, out)
}

// The same over the names that begin with the path of a volume, with a start in place of it.
#[unsafe(no_mangle)]
pub extern "C" fn hs_find_path_from(file: &[u8], volume: u64, start: &[u8], out: &mut [u64]) -> u32
    ensures { Answered (path_said (path_found_from file.now volume start.now)) result out.old out.new }
{
    hivesaddle::queries::hs_find_path_from(file, volume, start, out)
}

// All pairs of an entry and the number by which it matches: their count, and as many whole pairs as fit.
#[unsafe(no_mangle)]
pub extern "C" fn hs_list_paths(file: &[u8], pairs: &mut [u32]) -> u64
    ensures { ListsPaths file.now pairs.old result pairs.new }
{
    hivesaddle::queries::hs_list_paths(file, pairs)
}

// The best reading for each start: 0, or 22 and the number of the first bad line.
#[unsafe(no_mangle)]
pub extern "C" fn hs_replay(
    recording: &[u8],
    times: &[u64],
    boards: &[u8],
    work: &mut [u32],
    answers: &mut [u64],
    out: &mut [u64],
) -> u32
    ensures { ReplayOut recording.now times.now boards.now work.old answers.old result
        work.new answers.new out.old out.new }
{
    hivesaddle::recordings::hs_replay(recording, times, boards, work, answers, out)
}

// Before the first piece of a recording: the starts served are put in order, and their answers are none.
#[unsafe(no_mangle)]
pub extern "C" fn hs_replay_begin(
    times: &[u64],
    boards: &[u8],
    work: &mut [u32],
    answers: &mut [u64],
    out: &mut [u64],
) -> u32
    ensures { BeginOut times.now boards.now work.old answers.old result work.new
        answers.new out.old out.new }
{
    hivesaddle::recordings::hs_replay_begin(times, boards, work, answers, out)
}

// A piece, behind the bytes of the one before that were not used.
#[unsafe(no_mangle)]
pub extern "C" fn hs_replay_feed(
    lines: u64,
    bad: u64,
    piece: &[u8],
    times: &[u64],
    boards: &[u8],
    work: &[u32],
    answers: &mut [u64],
    out: &mut [u64],
) -> u32
    ensures { FeedOut (progress_of lines bad) piece.now times.now boards.now work.now
        answers.old result answers.new out.old out.new }
{
    hivesaddle::recordings::hs_replay_feed(lines, bad, piece, times, boards, work, answers, out)
}

// After the last piece, where so many bytes were not used: 0, or 22 and the number of the first bad line.
#[unsafe(no_mangle)]
pub extern "C" fn hs_replay_finish(
    lines: u64,
    bad: u64,
    waiting: u64,
    times: &[u64],
    boards: &[u8],
    work: &mut [u32],
    answers: &mut [u64],
    out: &mut [u64],
) -> u32
    ensures { FinishOut (progress_of lines bad) waiting times.now boards.now work.old answers.old result
        work.new answers.new out.old out.new }
{
    hivesaddle::recordings::hs_replay_finish(lines, bad, waiting, times, boards, work, answers, out)
}

// The table at year's end: 0, or refusal 18, 24 or 26.
#[unsafe(no_mangle)]
pub extern "C" fn hs_year_table(
    lines: &[u8],
    hashes: &[u32],
    answers: &[u64],
    rows: &mut [u64],
    out: &mut [u64],
) -> u32
    ensures { YearOut lines.now hashes.now answers.now result rows.old rows.new out.old
        out.new }
{
    hivesaddle::recordings::hs_year_table(lines, hashes, answers, rows, out)
}
