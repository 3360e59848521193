// Registers (chipset.rs): the data that each command sends, and its response.
#![tactic(auto, unfolding(errors::specs::Choice::pick, stages::specs::Starts::asserted, crate::specs::Commands::first_of, crate::specs::Responses::first_answer, crate::specs::Responses::written_answer, crate::specs::Responses::found_written_of))]

ghost use Rattle.std.specs.Prelude.{◌≡◌, ◌<◌};
ghost use Rattle.protocol.specs.Rules.{any_nonzero_of};
ghost use Rattle.protocol.specs.Calls.{read_register, write_register_of, read_single_register_of, write_single_register_of};
ghost use Rattle.protocol.specs.Arguments.{registers as registers_of};
ghost use Rattle.protocol.specs.Names.{registers_clock};
ghost use Rattle.stages.specs.Decided.{DecisionRefines, AnswerRefines, Commands};
ghost use Rattle.stages.specs.Stages.{cmd};
ghost use Rattle.stages.specs.Starts.{limited, asserted, Starts};
ghost use Rattle.chipset.specs.Commands.{first_of, read_command, write_command};
ghost use Rattle.chipset.specs.Responses.{found_written_of, written_answer, first_answer};

use super::response::{part, with_length};
use super::{ALL_BYTES_KIND, FIRST_BYTE_KIND, REGISTERS_WRITTEN_KIND, clock, err};
use errors::{Fault, Refusal};
use stages::put::DATA_LIMIT;
use stages::start::Start;
use stages::{Command, Decision, Layout, start};

// The command codes.
pub const READ_REGISTER_CODE: u8 = 0x06;

pub const WRITE_REGISTER_CODE: u8 = 0x08;

// The most registers of one command.
const REGISTER_LIMIT: usize = 64;

// Whole words or triples, of so many registers at most.
fn whole_registers(bytes: &[u8], size: usize) -> bool
    requires { 0 < size }
    ensures { result ≡ registers_of size bytes.now }
{
    bytes.len() % size == 0 && bytes.len() / size <= REGISTER_LIMIT
}

// Whole registers are sent as they are.
#[tactic(auto, using(stages::specs::Starts::starts_not, stages::specs::Starts::starts_true), unfolding(stages::specs::Starts::asserted))]
fn of_registers(
    kind: u8,
    code: u8,
    size: usize,
    bytes: &[u8],
    command: &mut [u8; DATA_LIMIT],
) -> Result<Start, Refusal>
    requires { 0 < size }
    ensures { Starts result command.old command.new (asserted (registers_of size bytes.now) (limited kind (cmd code registers_clock bytes.now))) }
{
    if !whole_registers(bytes, size) {
        return Err(Refusal::BadArgument);
    }
    start::command(kind, code, clock::REGISTERS_CLOCK, &[bytes], command)
}

// The addresses as they are sent, high byte first.
pub fn read_register(addresses: &[u8], command: &mut [u8; DATA_LIMIT]) -> Result<Start, Refusal>
    ensures { Starts result command.old command.new (first_of (read_register addresses.now)) }
{
    of_registers(ALL_BYTES_KIND, READ_REGISTER_CODE, 2, addresses, command)
}

// For each register its address, high byte first, and its value.
pub fn write_register(registers: &[u8], command: &mut [u8; DATA_LIMIT]) -> Result<Start, Refusal>
    ensures { Starts result command.old command.new (first_of (write_register_of registers.now)) }
{
    of_registers(
        REGISTERS_WRITTEN_KIND,
        WRITE_REGISTER_CODE,
        3,
        registers,
        command,
    )
}

// Whether a byte is not 0.
pub fn any_nonzero(bytes: &[u8]) -> bool
    ensures { result ≡ any_nonzero_of bytes.now }
{
    bytes.iter().any(|byte| *byte != 0)
}

// A register was not written.
pub fn write_register_response(response: &[u8]) -> Decision
    ensures { AnswerRefines response.now result (written_answer response.now) }
{
    if any_nonzero(response) {
        Decision::Refused(Fault::Status(err::REGISTER_WRITE_FAILED))
    } else {
        part(0, 0)
    }
}

// A register was written, the last command of a call: the answer is what was found.
pub fn found_written(found: &[u8], response: &[u8]) -> Decision
    ensures { DecisionRefines found.now response.now result (found_written_of found.now response.now) }
{
    if any_nonzero(response) {
        Decision::Refused(Fault::Status(err::REGISTER_WRITE_FAILED))
    } else {
        Decision::Done(Layout::found(found))
    }
}

pub fn read_single_register(address: u16, command: &mut [u8; DATA_LIMIT]) -> Result<Start, Refusal>
    ensures { Starts result command.old command.new (first_of (read_single_register_of address)) }
{
    start::command(
        FIRST_BYTE_KIND,
        READ_REGISTER_CODE,
        clock::REGISTERS_CLOCK,
        &[&address.to_be_bytes()],
        command,
    )
}

// The same as a stage's command.
pub fn read_single_register_command(address: u16) -> Command
    ensures { Commands result (read_command address) }
{
    Command::fixed(
        READ_REGISTER_CODE,
        clock::REGISTERS_CLOCK,
        &address.to_be_bytes(),
    )
}

pub fn read_single_register_response(response: &[u8]) -> Decision
    ensures { AnswerRefines response.now result (first_answer response.now) }
{
    with_length(response, 1, part(0, 1))
}

pub fn write_single_register(
    address: u16,
    value: u8,
    command: &mut [u8; DATA_LIMIT],
) -> Result<Start, Refusal>
    ensures { Starts result command.old command.new (first_of (write_single_register_of address value)) }
{
    start::command(
        REGISTERS_WRITTEN_KIND,
        WRITE_REGISTER_CODE,
        clock::REGISTERS_CLOCK,
        &[&address.to_be_bytes(), &[value]],
        command,
    )
}

pub fn write_single_register_command(address: u16, value: u8) -> Command
    ensures { Commands result (write_command address value) }
{
    let [high, low] = address.to_be_bytes();
    Command::fixed(
        WRITE_REGISTER_CODE,
        clock::REGISTERS_CLOCK,
        &[high, low, value],
    )
}
