// Prints every frame of a payload of at most 2 bytes, under the six settings in turn, in hex, one a line (document 02, N12). With an
// argument it prints a summary of these lines in their place.
#![tactic(auto)]

mod summary;

use acceptance::{Entry, lines};
use std::env::{Env, FillError};
use std::io::Result;
use summary::Summary;

// How many entries there are: under each of the six settings 1 payload of no byte, 256 of one and 65,536 of two.
const ENTRIES: usize = 394758;

// Whether the program was given an argument, of any length.
fn has_argument(rt: &impl Env) -> bool {
    !matches!(rt.arg(1, &mut [0u8; 1]), Err(FillError::NotPresent))
}

// No contract can say what is written: `lines::put_lines` says what each block is, and acceptance's `printed` what they are together.
fn main(rt: HostRuntime) -> Result<()> {
    let summed = has_argument(&rt);
    let mut summary = Summary::empty();
    let mut buffer = io::large_buffer();
    let mut step = Ok(Some(Entry::first()));
    let mut left = ENTRIES;
    // Kept: entries are taken a block at a time, as many as a block has room for.
    while left > 0 {
        let block = lines::put_lines(step, &mut buffer);
        let text = &buffer[..block.len];
        step = block.step;
        left -= block.count;
        if summed {
            summary = summary.with(&rt, block.count, text)?;
        } else {
            rt.write_all(text)?;
        }
    }
    if summed {
        summary.print(&rt)?;
    }
    Ok(())
}
