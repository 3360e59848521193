// A line taken apart: `round`, the number, and the cards.
#![tactic(auto, using(errors::specs::Rules::picks), unfolding(errors::specs::Choice::pick, bench::specs::Hex::is_hex_of, bench::specs::WordLaws::words_behind, bench::specs::Words::words_of_lem, crate::specs::Lines::are_cards, crate::specs::Lines::before_colon, crate::specs::Lines::behind_colon, crate::specs::Lines::identified, crate::specs::Lines::is_card, crate::specs::Lines::place_among, crate::specs::Lines::record_of_word, crate::specs::Lines::record_with, crate::specs::Lines::records_of_words, crate::specs::Lines::said_of))]

ghost use Rattle.std.specs.Prelude.{◌≡◌, Bool, ◌≤◌, ◌<◌, length, drop, MatchOption};
ghost use Rattle.bench.specs.Hex.{is_hex_of};
ghost use Rattle.bench.specs.Texts.{Appends};
ghost use Rattle.bench.specs.Words.{words_of_lem};
ghost use Rattle.bench.specs.WordLaws.{words_behind};
ghost use Rattle.presence_lines.specs.Lines.{line_limit, records_room, place_among, before_colon, behind_colon, is_identifier, is_card, record_with, identified, record_of_word, are_cards, records_of_words, said_of};
ghost use Rattle.presence_lines.specs.Readings.{PutsRecord, read_in, read_bytes};
ghost use Rattle.presence_list.specs.Names.{identifier_limit};

use bench::{hex, number, prefix, text, words};
use presence_list::IDENTIFIER_LIMIT;

// How many bytes an identifier has at most that can be read, and that a record holds.
const HEX_LIMIT: usize = 1024;

pub const HELD: usize = IDENTIFIER_LIMIT as usize;

// The length in the record of a longer identifier.
const OVER_LENGTH: u8 = IDENTIFIER_LIMIT + 1;

// The names of the kinds and of the bitrates, by their numbers.
pub const KINDS: &[u8] = b"A T1 B F DEP";

pub const BITRATES: &[u8] = b"106A 212F 424F 106B 212B 424B 848B";

// A round's number, and how many bytes its records have at the start of the lent buffer.
#[derive(Clone, Copy, Debug, PartialEq, Eq)]
pub(crate) struct RoundLine {
    pub number: u32,
    pub len: usize,
}

// The place of the word among the words of a text, if it is one of them.
fn index_among(word: &[u8], text: &[u8]) -> Option<usize>
    ensures { MatchOption result (place_among word.now (words_of_lem text.now) ≡ length (words_of_lem text.now)) (λ i. (i ≡ place_among word.now (words_of_lem text.now)) × (i < length (words_of_lem text.now))) }
{
    for i in 0..words::count(text) {
        if framing::is_exactly(word, words::word(text, i)) {
            return Some(i);
        }
    }
    None
}

// What stands before and behind the first colon of a word.
fn at_colon(word: &[u8]) -> (&[u8], &[u8])
    ensures { (result.0.now ≡ before_colon word.now) × (result.1.now ≡ behind_colon word.now) }
{
    let n = octets::scan::find(word, 0, word.len(), b':');
    if n < word.len() {
        (&word[..n], &word[n + 1..])
    } else {
        (word, &[])
    }
}

// Whether the word is HEX that can be read.
fn is_identifier(word: &[u8]) -> bool
    ensures { result ≡ is_identifier word.now }
{
    hex::is_hex(word) && word.len() / 2 <= HEX_LIMIT
}

// Kept: a struct of these would be built by the callers and opened here, which is no plainer.
fn put_record(
    kind: u8,
    identifier: &[u8],
    len: u8,
    bitrate: u8,
    records: &mut [u8],
    at: usize,
) -> usize
    requires { length identifier.now ≤ identifier_limit }
    ensures { Appends at (record_with kind identifier.now len bitrate) records.old result records.new }
{
    let zeros = [0u8; HELD];
    let head = [kind];
    let last = [len, bitrate, 0];
    let second = text::put(&head, records, at);
    let third = text::put(identifier, records, second);
    let fourth = text::put(prefix(HELD - identifier.len(), &zeros), records, third);
    text::put(&last, records, fourth)
}

// The record of an identifier; of one that is too long for it the length alone, as one over the limit.
fn put_identified(kind: u8, word: &[u8], bitrate: u8, records: &mut [u8], at: usize) -> usize
    requires { is_hex_of word.now ≡ Bool.true }
    ensures { Appends at (identified kind word.now bitrate) records.old result records.new }
{
    let mut identifier = [0u8; HELD];
    let n = word.len() / 2;
    if HELD < n {
        return put_record(kind, prefix(0, word), OVER_LENGTH, bitrate, records, at);
    }
    let Ok(k) = hex::read(word, &mut identifier) else {
        return at;
    };
    put_record(kind, prefix(k, &identifier), n as u8, bitrate, records, at)
}

// Puts the record of a card, `KIND:HEX:BITRATE`, into the buffer from a place on, and gives the place behind it.
fn read_card(word: &[u8], records: &mut [u8], at: usize) -> Option<usize>
    ensures { PutsRecord result (is_card word.now) at (record_of_word word.now) records.old records.new }
{
    let (name, rest) = at_colon(word);
    let (identifier, rate) = at_colon(rest);
    let kind = index_among(name, KINDS)?;
    let bitrate = index_among(rate, BITRATES)?;
    if !is_identifier(identifier) {
        return None;
    }
    Some(put_identified(kind as u8, identifier, bitrate as u8, records, at))
}

// Kept: each word is looked for from the end of the one before it; `words::word` would look for it from the line's start.
// Puts the records of the cards behind a place of the line into the buffer, each behind the other, and gives the place behind them.
fn read_cards(line: &[u8], from: usize, records: &mut [u8]) -> Option<usize>
    requires { from ≤ length line.now }
    ensures { PutsRecord result (are_cards (words_behind (drop from line.now))) 0 (records_of_words (words_behind (drop from line.now))) records.old records.new }
{
    let n = line.len();
    let mut at = from;
    let mut len = 0;
    while at < n {
        let end = octets::scan::find(line, at + 1, n, b' ');
        len = read_card(&line[at + 1..end], records, len)?;
        at = end;
    }
    Some(len)
}

// The round that the line says, its records at the start of the lent buffer.
pub(crate) fn read_line(line: &[u8], records: &mut [u8]) -> Option<RoundLine>
    requires { (length line.now ≤ line_limit) × (records_room ≤ length records.old) }
    ensures { (read_in result records.new ≡ said_of (words_of_lem line.now)) × (read_bytes result ≤ records_room) }
{
    let n = line.len();
    let end = octets::scan::find(line, 0, n, b' ');
    if n <= end {
        return None;
    }
    if framing::is_exactly(&line[..end], b"round") {
        let second = octets::scan::find(line, end + 1, n, b' ');
        let number = number::read(&line[end + 1..second])?;
        let len = read_cards(line, second, records)?;
        return Some(RoundLine { number, len });
    }
    None
}
