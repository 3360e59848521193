// The lines of the input, one after the other, and what is written for each.
#![tactic(auto, using(framing::specs::Rules::steps), unfolding(errors::specs::Choice::pick, crate::specs::Lines::last_line, crate::specs::Lines::unread_of))]

ghost use Rattle.std.specs.Prelude.{◌≡◌, Bool, List, [], ◌∷◌, ◌++◌, ℕ, ◌+◌, slice_set, ◌≤◌, ◌<◌, length};
ghost use Rattle.io.specs.Counts.{IsPrefixLen};
ghost use Rattle.bench.specs.Texts.{Appends};
ghost use Rattle.bench.specs.Lines.{feed, Begun, NoFeed, before_feed, NextLine, next_of, unread_line, unread_in, counted_line, unread_of, last_of, nothing as nothing_unread};

use super::text;
use std::io::Read;

// What of the lent buffer was read and is no part of a line yet.
#[derive(Clone, Copy, Debug, PartialEq, Eq)]
pub struct Unread {
    pub from: usize,
    pub to: usize,
}

// The length of a line that stands at the start of the lent buffer; or that the buffer is too short for it; or that there is none.
// Kept: a program answers each of the three ways by itself, and an Option of a Result would hide their names.
#[derive(Clone, Copy, Debug, PartialEq, Eq)]
pub enum Line {
    Text(usize),
    OverLong,
    End,
}

// A line, and what is still unread.
#[derive(Clone, Copy, Debug, PartialEq, Eq)]
pub struct Given {
    pub line: Line,
    pub unread: Unread,
}

// What a program goes on with after a line, and the length of the text that it put for the line.
#[derive(Clone, Copy, Debug, PartialEq, Eq)]
pub struct Answered<S> {
    pub state: S,
    pub len: usize,
}

impl<S> Answered<S> {
    // A line feed behind the text.
    pub fn fed(self, out: &mut [u8]) -> Answered<S>
        ensures state { result.state ≡ self.state }
        ensures text { Appends self.len (feed ∷ []) out.old result.len out.new }
        ensures byte { self.len < length out.old → (result.len ≡ self.len + 1) × (out.new ≡ slice_set out.old self.len feed) }
    {
        let len = text::put(b"\n", out, self.len);
        Answered { len, ..self }
    }
}

impl Unread {
    // Nothing was read yet.
    pub fn nothing() -> Unread
        ensures { result ≡ nothing_unread }
    {
        Unread { from: 0, to: 0 }
    }
}

// Adds a part behind the `len` bytes of a line, as much of it as the buffer takes. A line that the buffer does not hold has no length.
fn add(part: &[u8], line: &mut [u8], len: Option<usize>) -> Option<usize>
    ensures { (t l : List ℕ) → Begun t l len line.old → Begun (t ++ part.now) l result line.new }
{
    let len = len?;
    let room = line.len().checked_sub(len)?;
    if room < part.len() {
        text::put(&part[..room], line, len);
        return None;
    }
    Some(text::put(part, line, len))
}

// How many bytes stand before the first line feed: all of them where there is none.
fn before_feed(part: &[u8]) -> usize
    ensures { (result ≡ before_feed part.now) × IsPrefixLen result part.now }
{
    octets::scan::find(part, 0, part.len(), b'\n')
}

fn line_of(len: Option<usize>) -> Line
    ensures { result ≡ counted_line len }
{
    match len {
        Some(n) => Line::Text(n),
        None => Line::OverLong,
    }
}

// Reads once, and says how many bytes came: none at the end of the input. A read that fails gives none either.
fn fill<R: Read>(input: &mut R, buffer: &mut [u8]) -> usize
    ensures { IsPrefixLen result buffer.new }
{
    input.read(buffer).unwrap_or(0)
}

// Reads until the buffer is full or no more bytes come, and gives how many stand at its start.
pub fn read_full<R: Read>(input: &mut R, buffer: &mut [u8]) -> usize
    ensures { IsPrefixLen result buffer.new }
{
    let mut done = 0;
    // Kept: counts the bytes that came, of which a read may bring any number.
    while done < buffer.len() {
        let n = fill(input, &mut buffer[done..]);
        if n == 0 {
            break;
        }
        done += n;
    }
    done
}

// What is unread of a buffer of n bytes: nothing where the places are none of the buffer's.
fn within(unread: Unread, n: usize) -> Unread
    ensures { result ≡ unread_of unread n }
{
    if unread.from <= unread.to && unread.to <= n {
        unread
    } else {
        Unread::nothing()
    }
}

// The last line, if it has any byte.
fn last(len: Option<usize>) -> Given
    ensures { result ≡ last_of len }
{
    Given {
        line: match len {
            Some(0) => Line::End,
            _ => line_of(len),
        },
        unread: Unread::nothing(),
    }
}

// Reads on until a line feed or the end of the input, behind the `start` bytes of a line.
// A loop has to end, and nothing says that the input does: it counts its turns up to a number that no run comes to. Were it
// come to, the line would be given as far as it was read.
fn read_on<R: Read>(
    input: &mut R,
    start: Option<usize>,
    buffer: &mut [u8],
    line: &mut [u8],
) -> Given
    ensures { (t l : List ℕ) → NoFeed t → Begun t l start line.old → NextLine t l result.line line.new (unread_in result.unread buffer.new) }
{
    let mut len = start;
    // Kept: the input may have any length and a loop must end, so it counts turns, up to a number that no run comes to.
    for _ in 0..u64::MAX {
        let to = fill(input, buffer);
        if to == 0 {
            return last(len);
        }
        let part = &buffer[..to];
        let stop = before_feed(part);
        len = add(&part[..stop], line, len);
        if stop < to {
            return Given {
                line: line_of(len),
                unread: Unread { from: stop + 1, to },
            };
        }
    }
    last(len)
}

// Kept: a struct of the input, its buffer and what is unread of it would own a buffer of one size; lent one by one, the buffer has any.
// Puts the next line, without its line feed, at the start of `line`. The last line may lack its line feed.
// The input is read only where the unread bytes have no line feed. No contract can say what comes then: what is given is fixed by it, and
// the bytes of `buffer` that are not among the unread ones afterwards are free.
pub fn next<R: Read>(input: &mut R, unread: Unread, buffer: &mut [u8], line: &mut [u8]) -> Given
    ensures line_after { before_feed (unread_in unread buffer.old) < length (unread_in unread buffer.old) → next_of result buffer.new line.new ≡ unread_line unread buffer.old line.old }
    ensures next_line { NextLine (unread_in unread buffer.old) line.old result.line line.new (unread_in result.unread buffer.new) }
{
    let rest = within(unread, buffer.len());
    let part = &buffer[rest.from..rest.to];
    let stop = before_feed(part);
    let len = add(&part[..stop], line, Some(0));
    if stop < part.len() {
        return Given {
            line: line_of(len),
            unread: Unread {
                from: rest.from + stop + 1,
                ..rest
            },
        };
    }
    read_on(input, len, buffer, line)
}

// Writes the first n bytes to standard output. False where there are none, or they could not be written.
pub fn write(rt: &impl Print, out: &[u8], n: usize) -> bool
    ensures { result ≡ Bool.true → (0 < n) × (n ≤ length out.now) }
{
    0 < n && n <= out.len() && rt.write_all(&out[..n]).is_ok()
}

// Hands the lines of standard input to `answer`, one after the other, until it gives false; each stands at the start of `line`.
// `next` has the contract of a line, by the bytes that come; free is what the operating system reads.
pub fn for_each<R: std::io::Input, F: FnMut(Line, &[u8]) -> bool>(
    rt: &R,
    line: &mut [u8],
    mut answer: F,
)
    requires { F.IsAlwaysCallable answer }
{
    let mut input = rt.reader();
    let mut buffer = io::large_buffer();
    let mut unread = Unread::nothing();
    // Kept: the input may have any length and a loop must end, so it counts turns, up to a number that no run comes to.
    for _ in 0..u64::MAX {
        let given = next(&mut input, unread, &mut buffer, line);
        unread = given.unread;
        if !answer(given.line, line) {
            return;
        }
    }
}
