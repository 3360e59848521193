// Many scripts from standard input, each cut down by itself. Before a script stands a line with its number of bytes; a line is printed for
// each: where its stretch starts, or the refusal.
#![tactic(auto)]

ghost use Rattle.std.specs.Prelude.{◌≡◌, ◌<◌, length};

use bench::lines;
use cut_lines::cut;
use std::io::Result;

const INPUT_ROOM: usize = 524288;

fn room() -> [u8; INPUT_ROOM]
    ensures { 524288 ≡ length result }
{
    [0; INPUT_ROOM]
}

// The number that the bytes write; one that grows too large stays as it is.
fn number(digits: &[u8]) -> usize {
    digits.iter().fold(0, |n, digit| {
        if n < INPUT_ROOM {
            n * 10 + usize::from(digit.saturating_sub(b'0'))
        } else {
            n
        }
    })
}

// The number on the first line, and what stands behind the line.
fn split_header(input: &[u8]) -> (usize, &[u8])
    ensures { 0 < length input.now → length result.1.now < length input.now }
{
    match input.iter().position(|b| *b < b'0') {
        Some(end) => (number(&input[..end]), &input[end + 1..]),
        None => (number(input), &[]),
    }
}

fn write_cuts(rt: &impl Print, input: &[u8]) -> Result<()> {
    let mut rest = input;
    // Kept: each script says how long it is; nothing is counted.
    while !rest.is_empty() {
        let (len, behind) = split_header(rest);
        if behind.len() < len {
            return Ok(());
        }
        let (script, next) = behind.split_at(len);
        match cut(script) {
            Ok(place) => rt.println(place)?,
            Err(refusal) => rt.println(refusal)?,
        }
        rest = next;
    }
    Ok(())
}

fn main(rt: HostRuntime) -> Result<()> {
    let mut input = room();
    let n = lines::read_full(&mut rt.reader(), &mut input);
    write_cuts(&rt, &input[..n])
}
