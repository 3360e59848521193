// A line of the program `session`, read: a call or an event. The bytes of its BITRATE and HEX arguments stand one behind the
// other at the start of a lent buffer, and a call has the places where they end.
#![tactic(auto, using(errors::specs::Rules::picks), unfolding(errors::specs::Choice::pick, bench::specs::Words::words_of_lem, crate::specs::Table::input_of, crate::specs::Table::row_for, crate::specs::Table::said))]

mod arguments;
mod letters;
mod table;

ghost use Rattle.std.specs.Prelude.{◌≡◌, List, ℕ, map, ◌≤◌, length, drop};
ghost use Rattle.std.proofs.Math.Seq.{slice};
ghost use Rattle.bench.specs.Words.{words_of_lem};
ghost use Rattle.bench_input.specs.Arguments.{word_at, line_limit, bytes_room};
ghost use Rattle.bench_input.specs.Table.{table as table_of, row_for, said, by_row, input_of};
ghost use Rattle.bench_input.specs.Readings.{EndsFor, end_at, taken_in, row_in, input_in, EndsInOrder, Reads};

use bench::{prefix, words};
use calls::start::Numbers;
use letters::{STRINGS, Taken};
use table::{LINE_TABLE, Row};

// The longest line, without its line feed, and room for its bytes: a BITRATE has as many as its word.
pub const LINE_LIMIT: usize = 8192;

pub const BYTES_ROOM: usize = 8192;

// An event has its number behind this one in the table.
const EVENTS_FROM: u8 = 128;

// The places where four byte strings end: each begins where the one before ends, and the ends behind the last equal it.
pub type Ends = [usize; STRINGS];

// What a line says: a call by its number, or an event by its number with the number of its packet's bytes.
#[derive(Clone, Copy)]
pub enum Input {
    Call(u8, Numbers, Ends),
    Event(u8, usize),
}

// The bytes from one place up to another, as far as there are any.
pub fn slice(bytes: &[u8], from: usize, to: usize) -> &[u8]
    ensures { result.now ≡ slice from to bytes.now }
{
    let part = prefix(to, bytes);
    &part[from.min(part.len())..]
}

// What was taken, as the call or the event of a number.
fn call_or_event(number: u8, taken: Taken) -> Option<Input>
    requires { EndsFor taken.count taken.ends }
    ensures by_index { (b : List ℕ) → input_in b result ≡ said number (taken_in b taken) }
    ensures by_index_2 { (k : ℕ) (b o : List ℕ) → (end_at taken.ends 3 ≤ k) → (end_at taken.ends 3 ≤ bytes_room) → drop (end_at taken.ends 3) o ≡ drop (end_at taken.ends 3) b → EndsInOrder k result b o }
{
    if number < EVENTS_FROM {
        return Some(Input::Call(number, taken.numbers, taken.ends));
    }
    if 1 < taken.count {
        return None;
    }
    Some(Input::Event(number - EVENTS_FROM, taken.ends[0]))
}

// Reads a line by the table.
fn by_table(rows: &[Row], line: &[u8], bytes: &mut [u8]) -> Option<Input>
    requires { (map row_in rows.now ≡ table_of) × (length line.now ≤ line_limit) × (length bytes.old ≡ bytes_room) }
    ensures { Reads (length line.now) bytes.old bytes.new result (by_row (row_for table_of (word_at line.now 0) (length (words_of_lem line.now))) (words_of_lem line.now)) }
{
    let Row(_, letters, number) = table::find(rows, words::word(line, 0), words::count(line))?;
    let taken = letters::read(line, letters, bytes)?;
    call_or_event(*number, taken)
}

// Reads a line; nothing where it cannot be read. Where it can, the array is fixed: it holds the byte strings, of no more bytes than the
// line, and behind them what it held before. Where it cannot be read, all bytes of the array are free.
pub fn read(line: &[u8], bytes: &mut [u8; BYTES_ROOM]) -> Option<Input>
    ensures { Reads (length line.now) bytes.old bytes.new result (input_of line.now) }
{
    if LINE_LIMIT < line.len() {
        return None;
    }
    by_table(&LINE_TABLE, line, bytes)
}
