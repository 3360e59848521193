// The program `cut`: a script on standard input, the stretch or a refusal on standard output.
#![tactic(auto, using(errors::specs::Rules::picks), unfolding(errors::specs::Choice::pick, cut_script::specs::Answer::cut_of, cut_script::specs::Answer::written_for))]

ghost use Rattle.std.specs.Prelude.{◌≡◌, ◌≤◌, length};
ghost use Rattle.bench.specs.Texts.{placed, placed_at};
ghost use Rattle.cut_script.specs.Answer.{script_limit, cut_of, written_for};

use super::{CutRefusal, cut};
use bench::{lines, text};
use bench_input::slice;
use std::io::Read;

// One byte more than a script may have tells one that is over-long.
const INPUT_ROOM: usize = 65537;

fn room() -> [u8; INPUT_ROOM]
    ensures { 65537 ≡ length result }
{
    [0; INPUT_ROOM]
}

// Reads what is left of the input. A loop has to end: it counts its turns up to a number that no run comes to.
fn read_rest<R: Read>(input: &mut R) {
    let mut rest = io::large_buffer();
    // Kept: the input may have any length and a loop must end, so it counts turns, up to a number that no run comes to.
    for _ in 0..u64::MAX {
        if lines::read_full(input, &mut rest) == 0 {
            return;
        }
    }
}

// Puts what is written for a script at the start of `out`, which has room for the longest script.
pub fn put_cut(script: &[u8], out: &mut [u8]) -> usize
    ensures { script_limit ≤ length out.old → placed result out.new ≡ placed_at 0 (written_for script.now (cut_of script.now)) out.old }
{
    match cut(script) {
        Ok(place) => text::put(slice(script, place, script.len()), out, 0),
        Err(CutRefusal::OverLong) => text::put(b"refused 3\n", out, 0),
        Err(CutRefusal::NoRefusal) => text::put(b"refused 29\n", out, 0),
    }
}

// Cuts standard input down, which is read to its end even where it is over-long. `put_cut` has the contract of what is written; free is what the
// operating system reads and writes.
pub fn run<R: Input + Print>(rt: &R) {
    let mut reader = rt.reader();
    let mut input = room();
    let n = lines::read_full(&mut reader, &mut input);
    if n == INPUT_ROOM {
        read_rest(&mut reader);
    }
    let mut out = io::large_buffer();
    let len = put_cut(&input[..n], &mut out);
    lines::write(rt, &out, len);
}
