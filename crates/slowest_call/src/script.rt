// The script of a kind: the number of its events, and its lines.
ghost use Rattle.std.specs.Prelude.{◌≡◌, [], ◌+◌, ◌*◌, ◌<◌, ◌^◌, get_or};
ghost use Rattle.framing.specs.Build.{left};
ghost use Rattle.errors.specs.Refusals.{returned};
ghost use Rattle.bench.specs.Texts.{Appends};
ghost use Rattle.slowest_call.specs.Kinds.{most};
ghost use Rattle.slowest_call.specs.Tables.{run_fields, start_text, acks_text, run_text};
ghost use Rattle.slowest_call.specs.Texts.{kind_count, kind_at, script_text, script_of};

use super::table::{KIND_COUNT, RUN_TABLE, Runs};
use bench::{number, text};
use errors::Refusal;

// Document 02's idle reads, at most, and room for any script and a line feed.
pub const IDLE_LIMIT: u32 = 32;

pub const SCRIPT_ROOM: usize = 2048;

// So many idle reads: ACK again and again.
// Kept: as `bench::text` has it: a buffer and a place in it.
fn put_acks(idle: u32, out: &mut [u8], at: usize) -> usize
    ensures { Appends at (acks_text idle) out.old result out.new }
{
    let mut behind = at;
    for _ in 0..idle {
        behind = text::put(b" ; pkt 0000FF00FF00", out, behind);
    }
    behind
}

// A kind's run: its fields in the table.
#[derive(Clone, Copy)]
struct Run<'a> {
    runs: Runs<'a>,
    kind: u8,
    ghost known: { kind < kind_count },
}

impl<'a> Run<'a> {
    // The k-th of the kind's four fields.
    fn field(&self, k: usize) -> &'a [u8]
        requires { k < 4 }
        ensures { result.now ≡ get_or run_fields (4 * self.now.kind + k) [] }
    {
        self.runs.field(4 * self.kind as usize + k)
    }

    // The lines that lead to the run's start: none for an opening.
    fn put_start(&self, out: &mut [u8], at: usize) -> usize
        ensures { Appends at (start_text (kind_at self.now.kind)) out.old result out.new }
    {
        if self.kind == 0 {
            return at;
        }
        let behind = text::put(self.runs.field(4 * KIND_COUNT as usize), out, at);
        text::put(b" ; ", out, behind)
    }

    // The most events of a kind that are no idle reads.
    fn most(&self) -> u64
        ensures { (result ≡ most (kind_at self.now.kind)) × (result < 2 ^ 32) }
    {
        let Some(n) = number::read(self.field(1)) else {
            return 0;
        };
        n as u64
    }

    // The lines of the run itself.
    fn put_run(&self, idle: u32, out: &mut [u8], at: usize) -> usize
        ensures { Appends at (run_text (kind_at self.now.kind) idle) out.old result out.new }
    {
        let waiting = text::put(self.field(2), out, at);
        let acked = put_acks(idle, out, waiting);
        text::put(self.field(3), out, acked)
    }

    // The text of a script.
    fn put_script(&self, idle: u32, out: &mut [u8]) -> usize
        ensures { Appends 0 (script_text (kind_at self.now.kind) idle) out.old result out.new }
    {
        let counted = text::put_decimal(self.most() + idle as u64, out, 0);
        let spaced = text::put(b" ", out, counted);
        let started = self.put_start(out, spaced);
        self.put_run(idle, out, started)
    }
}

// The script of a kind's longest run with so many idle reads at the start of `out`, and its length. 4 for no such kind, 3 for more idle
// reads than document 02 names: nothing is written then.
pub fn script(kind: u8, idle: u32, out: &mut [u8; SCRIPT_ROOM]) -> Result<usize, Refusal>
    ensures { left (returned result) out.new ≡ script_of kind idle out.old }
{
    if kind >= KIND_COUNT {
        return Err(Refusal::BadArgument);
    }
    if IDLE_LIMIT < idle {
        return Err(Refusal::OverLong);
    }
    let runs = Runs { table: &RUN_TABLE };
    let run = Run { runs, kind };
    Ok(run.put_script(idle, out))
}
