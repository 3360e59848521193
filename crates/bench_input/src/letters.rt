// The words of a line behind its name, each read by its letter.
#![tactic(auto, using(errors::specs::Rules::picks), unfolding(errors::specs::Choice::pick, bench::specs::Words::words_of_lem, crate::specs::Letters::arguments_of, crate::specs::Letters::number_arg, crate::specs::Letters::string_arg, crate::specs::Readings::ended_at))]

ghost use Rattle.std.specs.Prelude.{◌≡◌, List, ℕ, ◌+◌, ◌≤◌, ◌<◌, length, drop};
ghost use Rattle.std.proofs.Math.Option.{some};
ghost use Rattle.bench.specs.Words.{words_of_lem};
ghost use Rattle.bench_input.specs.Arguments.{Read, line_limit, bytes_room};
ghost use Rattle.bench_input.specs.Letters.{number_arg, string_arg, arguments_of, no_arguments, first_number_letter};
ghost use Rattle.bench_input.specs.Readings.{given, hex_in, Behind, EndsFor, ended_at, next_in, TakenWithin, Takes, end_at};

use super::arguments;
use bench::words;
use calls::start::Numbers;

// What was read of a line: its numbers, the number of its byte strings, and where they end.
// Kept: the ends behind the last equal it, so that all four are read; the count says how many were taken.
#[derive(Clone, Copy)]
pub struct Taken {
    pub numbers: Numbers,
    pub count: usize,
    pub ends: [usize; STRINGS],
}

// How many byte strings a line can have.
pub const STRINGS: usize = 4;

// A number, by its letter.
fn read_number(letter: u8, word: &[u8], numbers: Numbers) -> Option<Numbers>
    ensures { (f : Numbers → Read) → given result f ≡ number_arg letter word.now numbers f }
{
    match letter {
        b'x' => arguments::read_byte(word).map(|x| Numbers { x, ..numbers }),
        b'y' => arguments::read_byte(word).map(|y| Numbers { y, ..numbers }),
        b'f' => arguments::read_flag(word).map(|x| Numbers { x, ..numbers }),
        b'p' => arguments::read_presence(word).map(|x| Numbers { x, ..numbers }),
        b'w' => arguments::read_word(word).map(|word| Numbers { word, ..numbers }),
        b'm' => arguments::read_ms(word).map(|ms| Numbers { ms, ..numbers }),
        b't' => arguments::read_wait(word).map(|wait| Numbers {
            word: wait.unwrap_or(0),
            y: u8::from(wait.is_some()),
            ..numbers
        }),
        b'z' => arguments::read_name(word, b"padded").map(|x| Numbers { x, ..numbers }),
        b's' => arguments::read_name(word, b"split").map(|x| Numbers { x, ..numbers }),
        b'u' => arguments::read_wait(word).map(|wait| Numbers {
            ms: u32::from(wait.unwrap_or(0)),
            y: u8::from(wait.is_some()),
            ..numbers
        }),
        _ => None,
    }
}

// The bytes of a byte string, by its letter, from a place on.
fn string(letter: u8, word: &[u8], bytes: &mut [u8], at: usize) -> Option<usize>
    requires { at + length word.now ≤ length bytes.old }
    ensures by_index { (f : List ℕ → Read) → hex_in at result bytes.new f ≡ string_arg letter word.now f }
    ensures behind { Behind at result (length word.now) bytes.old bytes.new }
{
    match letter {
        b'H' => arguments::read_hex(word, bytes, at),
        b'N' => arguments::read_hex_or_none(word, bytes, at),
        b'B' => arguments::read_text(word, bytes, at),
        b'2' => arguments::read_whole(word, bytes, at, 2),
        b'3' => arguments::read_whole(word, bytes, at, 3),
        _ => None,
    }
}

// The ends with one more byte string behind so many.
fn with_end(mut ends: [usize; STRINGS], count: usize, end: usize) -> [usize; STRINGS]
    requires { count < 4 }
    ensures { result ≡ ended_at ends count end }
{
    ends[count..].fill(end);
    ends
}

// One more byte string behind those that were taken.
// Kept: a state of reading, which the four functions hand on: as a ghost field of `Taken` it would have to hold while the ends are filled in.
fn with_string(letter: u8, word: &[u8], taken: Taken, bytes: &mut [u8]) -> Option<Taken>
    requires { (letter < first_number_letter) × EndsFor taken.count taken.ends × (end_at taken.ends 3 + length word.now ≤ length bytes.old) }
    ensures { Takes letter word.now taken bytes.old bytes.new result }
{
    if STRINGS <= taken.count {
        return None;
    }
    let end = string(letter, word, bytes, taken.ends[STRINGS - 1])?;
    Some(Taken {
        count: taken.count + 1,
        ends: with_end(taken.ends, taken.count, end),
        ..taken
    })
}

// One more number.
fn with_number(letter: u8, word: &[u8], taken: Taken) -> Option<Taken>
    requires { (first_number_letter ≤ letter) × EndsFor taken.count taken.ends }
    ensures { (b : List ℕ) → Takes letter word.now taken b b result }
{
    let numbers = read_number(letter, word, taken.numbers)?;
    Some(Taken { numbers, ..taken })
}

// One more word, by its letter.
fn argument(letter: u8, word: &[u8], taken: Taken, bytes: &mut [u8]) -> Option<Taken>
    requires { EndsFor taken.count taken.ends × (end_at taken.ends 3 + length word.now ≤ length bytes.old) }
    ensures { Takes letter word.now taken bytes.old bytes.new result }
{
    if letter < b'a' {
        with_string(letter, word, taken, bytes)
    } else {
        with_number(letter, word, taken)
    }
}

// All words behind the name.
pub(crate) fn read(line: &[u8], letters: &[u8], bytes: &mut [u8]) -> Option<Taken>
    requires { (length line.now ≤ line_limit) × (length bytes.old ≡ bytes_room) × (length letters.now + 1 ≡ length (words_of_lem line.now)) }
    ensures some_after { next_in bytes.new result some ≡ arguments_of letters.now (drop 1 (words_of_lem line.now)) no_arguments }
    ensures taken_within { TakenWithin 0 (length line.now) bytes.old bytes.new result }
{
    let mut taken = Taken {
        numbers: Numbers {
            ms: 0,
            word: 0,
            x: 0,
            y: 0,
            caller: 0,
        },
        count: 0,
        ends: [0; STRINGS],
    };
    for (k, letter) in letters.iter().enumerate() {
        taken = argument(*letter, words::word(line, k + 1), taken, bytes)?;
    }
    Some(taken)
}
