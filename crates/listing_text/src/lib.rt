// What the listing program writes, into a borrowed output.
#![tactic(auto)]

ghost use Rattle.std.specs.Prelude.{◌≡◌, ◌++◌, ◌∷◌, [], ◌≤◌, length};
ghost use Rattle.std.specs.Fn.{FnOnceReturnsAtMut};
ghost use Rattle.text.specs.Decimal.{decimal};
ghost use Rattle.text.specs.Put.{Puts};
ghost use Rattle.text.specs.declared.Text.{Text};
ghost use Rattle.listing_text.specs.Listing.{line, shown_unit, shown_name, path_text, accepted_text, refused_text, listing, Listed};
ghost use Rattle.listing_text.specs.Private.{count_lines, places_left};

use path_search::PathEntry;
use reader::Acceptance;
use text::Text;

// The longest file that is read.
const FILE_LIMIT: usize = 49_151;

// A name unit as it is shown.
fn shown_unit(u: u16) -> u8
    ensures { result ≡ shown_unit u }
{
    if (33..=126).contains(&u) {
        u as u8
    } else {
        b'?'
    }
}

// The units of the program name.
fn put_name(text: &mut Text, file: &[u8], units: usize)
    requires { units ≤ 30 }
    ensures { Puts text.old (shown_name file.now units) text.new }
{
    for k in 0..units {
        let unit = little_endian::u16_at(file, layout::PROGRAM_NAME_AT + 2 * k);
        text.put(shown_unit(unit));
    }
}

// Two numbers and the blank between them.
fn put_pair(text: &mut Text, a: u64, b: u64)
    ensures { Puts text.old (decimal a ++ (32 ∷ decimal b)) text.new }
{
    text.put_decimal(a);
    text.put(b' ');
    text.put_decimal(b);
}

fn put_path(text: &mut Text, found: Option<PathEntry>)
    ensures { Puts text.old (path_text found) text.new }
{
    match found {
        Some(entry) => put_pair(text, entry.index as u64, entry.number as u64),
        None => text.put_all(b"none"),
    }
}

// A line of a word and what a closure says behind it.
fn put_line<'a, F: FnOnce(&mut Text<'a>)>(text: &mut Text<'a>, word: &[u8], say: F)
    requires { F.IsAlwaysCallable say }
    ensures { (p : Text) × (q : Text) × Puts text.old word.now p × FnOnceReturnsAtMut F.FnOnce say p tt q × Puts q (10 ∷ []) text.new }
{
    text.put_all(word);
    say(text);
    text.put(b'\n');
}

// A line of a word and a number.
fn put_count(text: &mut Text, word: &[u8], n: u64)
    ensures { Puts text.old (line (word.now ++ decimal n)) text.new }
{
    put_line(text, word, |text| text.put_decimal(n));
}

// The four counts.
fn put_counts(text: &mut Text, a: Acceptance)
    ensures { Puts text.old (count_lines a) text.new }
{
    put_count(text, b"runs ", a.run_count as u64);
    put_count(text, b"files ", a.metrics_count as u64);
    put_count(text, b"chains ", a.chain_count as u64);
    put_count(text, b"volumes ", a.volume_count as u64);
}

// The listing of a file that is accepted.
fn put_accepted(text: &mut Text, file: &[u8], a: Acceptance)
    requires { a.name_units ≤ 30 }
    ensures { Puts text.old (accepted_text a file.now) text.new }
{
    let path = path_search::find_path(file);
    put_count(text, b"version ", a.version as u64);
    put_line(text, b"name ", |text| put_name(text, file, a.name_units));
    put_line(text, b"hash ", |text| text.put_hex(8, a.stored_hash as u64));
    put_counts(text, a);
    put_line(text, b"path ", |text| put_path(text, path));
}

fn put_refused(text: &mut Text, number: u64, index: u64)
    ensures { Puts text.old (refused_text number index) text.new }
{
    put_line(text, b"refused ", |text| put_pair(text, number, index));
}

// The listing of a file, and what is left in the working buffer.
fn put_listing(text: &mut Text, file: &[u8], predecessors: &mut [u32])
    ensures listed { Puts text.old (listing file.now (length predecessors.old)) text.new }
    ensures places { predecessors.new ≡ places_left file.now (length predecessors.old) }
{
    if FILE_LIMIT < file.len() {
        lists::fill(predecessors);
        return text.put_all(b"too long\n");
    }
    match reader::read_file(file, predecessors) {
        Ok(a) => put_accepted(text, file, a),
        Err(r) => put_refused(text, r.number as u64, r.index as u64),
    }
}

// The listing of a file that has been read, up to the limit of the program's buffer, into the output from its start: the number of
// bytes written. In 256 bytes every listing has room; of a smaller output as many bytes are written as fit. The working buffer may
// hold anything before and holds what the whole-file reader leaves, or is filled where the file is too long.
pub fn list(file: &[u8], predecessors: &mut [u32], out: &mut [u8]) -> usize
    ensures { Listed file.now predecessors.old out.old result predecessors.new out.new }
{
    let mut text = Text::new(out);
    put_listing(&mut text, file, predecessors);
    text.len()
}
