// Document 02, N14: a fault script, cut down to its shortest end that still shows its fault.
#![tactic(auto, using(errors::specs::Rules::picks), unfolding(errors::specs::Choice::pick, cut_script::specs::Answer::cut_of))]

mod entries;
mod program;
mod runs;
mod shown;

ghost use Rattle.std.specs.Prelude.{◌≡◌, length};
ghost use Rattle.cut_script.specs.Answer.{script_limit, cut_of};
ghost use Rattle.cut_lines.specs.Readings.{answer_in};

pub use program::run;
use std::fmt;

// The longest script in bytes, line feeds counted, and in lines.
pub const SCRIPT_LIMIT: usize = 65536;

pub const LINE_COUNT_LIMIT: usize = 4096;

// Why there is no stretch: 3, or 29 where there is no line or no refusal on the last one.
#[derive(Clone, Copy, Debug, PartialEq, Eq)]
pub enum CutRefusal {
    OverLong,
    NoRefusal,
}

impl fmt::Display for CutRefusal {
    fn fmt<W: fmt::Write>(&self, f: &mut fmt::Formatter<W>) -> fmt::Result {
        f.write_str(match self {
            CutRefusal::OverLong => "refused 3",
            CutRefusal::NoRefusal => "refused 29",
        })
    }
}

fn room() -> [u8; SCRIPT_LIMIT]
    ensures { length result ≡ script_limit }
{
    [0; SCRIPT_LIMIT]
}

// Where the stretch starts, which goes to the script's end.
pub fn cut(script: &[u8]) -> Result<usize, CutRefusal>
    ensures { answer_in result ≡ cut_of script.now }
{
    if SCRIPT_LIMIT < script.len() {
        return Err(CutRefusal::OverLong);
    }
    let mut bytes = room();
    let mut entries = entries::none();
    let Some(n) = entries::read(script, &mut bytes, &mut entries) else {
        return Err(CutRefusal::OverLong);
    };
    if n == 0 {
        return Err(CutRefusal::NoRefusal);
    }
    let lines = &entries[..n];
    let Some(fault) = runs::whole(lines, &bytes) else {
        return Err(CutRefusal::NoRefusal);
    };
    let i = runs::shortest(lines, &bytes, fault);
    Ok(lines[i].from)
}
