// The lines of a script, each read once.
#![tactic(auto, using(errors::specs::Rules::picks), unfolding(errors::specs::Choice::pick, bench::specs::Texts::put_at, bench_input::specs::Table::input_of, crate::specs::Readings::behind_feed))]

ghost use Rattle.std.specs.Prelude.{◌≡◌, ℕ, ◌+◌, ◌≤◌, length, take};
ghost use Rattle.std.proofs.Math.Seq.{slice};
ghost use Rattle.bench_input.specs.Arguments.{bytes_room};
ghost use Rattle.bench_input.specs.Readings.{input_in};
ghost use Rattle.bench_input.specs.Table.{input_of};
ghost use Rattle.bench.specs.Texts.{placed, put_at};
ghost use Rattle.cut_script.specs.Answer.{script_limit, line_count_limit};
ghost use Rattle.cut_lines.specs.Readings.{used_by, behind_feed, EntriesOf};

use super::LINE_COUNT_LIMIT;
use bench::{prefix, text};
use bench_input::{BYTES_ROOM, Input};
use octets::scan;

// What a line says, where it begins, and where the next one does. Its byte strings stand from there on in an array beside.
#[derive(Clone, Copy)]
pub struct Entry {
    pub input: Option<Input>,
    pub from: usize,
    pub to: usize,
}

// No lines yet.
pub(crate) fn none() -> [Entry; LINE_COUNT_LIMIT]
    ensures { length result ≡ line_count_limit }
{
    let entry = Entry {
        input: None,
        from: 0,
        to: 0,
    };
    [entry; LINE_COUNT_LIMIT]
}

// How many bytes the byte strings of a line take.
fn used(input: Option<Input>) -> usize
    ensures { result ≡ used_by input }
{
    match input {
        Some(Input::Call(_, _, ends)) => ends[3],
        Some(Input::Event(_, n)) => n,
        None => 0,
    }
}

// The first n bytes of an array, put from a place on.
fn put(n: usize, strings: &[u8; BYTES_ROOM], bytes: &mut [u8], at: usize) -> usize
    ensures bytes_after { placed result bytes.new ≡ put_at at (take n strings.now) bytes.old }
    ensures strings_len { length strings.now ≡ bytes_room }
{
    text::put(prefix(n, strings), bytes, at)
}

// Reads a line, and puts its byte strings from a place on, where there is room for as many bytes as the line has.
fn read_line(line: &[u8], bytes: &mut [u8], at: usize) -> Option<Input>
    requires { at + length line.now ≤ length bytes.old }
    ensures bytes_unchanged { (take at bytes.new ≡ take at bytes.old) × (length bytes.new ≡ length bytes.old) }
    ensures by_index { (to : ℕ) → at + length line.now ≤ to → input_in (slice at to bytes.new) result ≡ input_of line.now }
{
    let mut strings = [0u8; BYTES_ROOM];
    let input = bench_input::read(line, &mut strings);
    put(used(input), &strings, bytes, at);
    input
}

// Reads the lines of a script that is not over-long, and says how many they are; nothing where they are too many.
pub(crate) fn read(
    script: &[u8],
    bytes: &mut [u8],
    entries: &mut [Entry; LINE_COUNT_LIMIT],
) -> Option<usize>
    requires { (length script.now ≤ length bytes.old) × (length script.now ≤ script_limit) × (length entries.old ≡ line_count_limit) }
    ensures { EntriesOf script.now bytes.new entries.new result × (length bytes.new ≡ length bytes.old) }
{
    let mut n = 0;
    let mut at = 0;
    // Kept: a line begins where the one before it ended; n is the next entry's place, and part of the answer.
    while at < script.len() {
        if n == LINE_COUNT_LIMIT {
            return None;
        }
        let stop = scan::find(script, at, script.len(), b'\n');
        let input = read_line(&script[at..stop], bytes, at);
        let to = behind(stop, script.len());
        entries[n] = Entry {
            input,
            from: at,
            to,
        };
        n += 1;
        at = to;
    }
    Some(n)
}

// The place behind the line feed at a place, or the end where there is none.
fn behind(stop: usize, len: usize) -> usize
    ensures { result ≡ behind_feed stop len }
{
    if stop < len { stop + 1 } else { len }
}
