// get_firmware_version, reset_mode, parameters and RF configuration (chipset.rs): the data that each sends, and its response.
#![tactic(auto, unfolding(errors::specs::Choice::pick, stages::specs::Starts::asserted, crate::specs::Commands::first_of, crate::specs::Responses::version_answer))]

ghost use Rattle.protocol.specs.Calls.{version, reset_mode_of, set_parameters_of, rf_configuration_of, rf_field_off_of};
ghost use Rattle.stages.specs.Decided.{AnswerRefines, Commands};
ghost use Rattle.stages.specs.Starts.{Starts};
ghost use Rattle.chipset.specs.Commands.{first_of, reset_command};
ghost use Rattle.chipset.specs.Responses.{version_answer};

use super::response::{part, with_length};
use super::{NO_BYTES_KIND, RESET_MODE_KIND, VERSION_KIND, clock};
use errors::Refusal;
use stages::put::{DATA_LIMIT, put_all};
use stages::start::Start;
use stages::{Command, Decision, start};

// The command codes.
pub const GET_FIRMWARE_VERSION_CODE: u8 = 0x02;

pub const SET_PARAMETERS_CODE: u8 = 0x12;

const RESET_MODE_CODE: u8 = 0x18;

pub const RF_CONFIGURATION_CODE: u8 = 0x32;

// The fewest bytes of get_firmware_version's response.
pub const VERSION_NEED: usize = 4;

// What reset_mode clears.
const RESET_MODE_DATA: u8 = 0x01;

// RF configuration: items, and the field on or off.
pub const RF_FIELD_ITEM: u8 = 0x01;

pub const FIELD_ON: u8 = 0x01;

pub const FIELD_OFF: u8 = 0x02;

pub const TIMEOUTS_ITEM: u8 = 0x02;

pub const MAX_RTY_COM_ITEM: u8 = 0x04;

pub const MAX_RETRIES_ITEM: u8 = 0x05;

pub const ANALOG_106A_ITEM: u8 = 0x0A;

// The time-outs of ATR_RES and of the exchange, behind their item.
pub const ATR_RES_TIMEOUTS: [u8; 4] = [TIMEOUTS_ITEM, 0x0B, 0x0B, 0x0A];

pub fn get_firmware_version(command: &mut [u8; DATA_LIMIT]) -> Result<Start, Refusal>
    ensures { Starts result command.old command.new (first_of version) }
{
    start::command(
        VERSION_KIND,
        GET_FIRMWARE_VERSION_CODE,
        clock::COMMAND_CLOCK,
        &[],
        command,
    )
}

pub fn get_firmware_version_response(response: &[u8]) -> Decision
    ensures { AnswerRefines response.now result (version_answer response.now) }
{
    with_length(response, VERSION_NEED, part(0, 3))
}

// The reset's command is that of its kind's stage 0; its response is not looked at.
pub fn reset_mode(command: &mut [u8; DATA_LIMIT]) -> Result<Start, Refusal>
    ensures { Starts result command.old command.new (first_of reset_mode_of) }
{
    let n = put_all(&[], command);
    start::staged(RESET_MODE_KIND, n)
}

pub fn reset_mode_command() -> Command
    ensures { Commands result reset_command }
{
    Command::fixed(RESET_MODE_CODE, clock::COMMAND_CLOCK, &[RESET_MODE_DATA])
}

pub fn set_parameters(flags: u8, command: &mut [u8; DATA_LIMIT]) -> Result<Start, Refusal>
    ensures { Starts result command.old command.new (first_of (set_parameters_of flags)) }
{
    start::command(
        NO_BYTES_KIND,
        SET_PARAMETERS_CODE,
        clock::COMMAND_CLOCK,
        &[&[flags]],
        command,
    )
}

pub fn rf_configuration(
    item: u8,
    config: &[u8],
    command: &mut [u8; DATA_LIMIT],
) -> Result<Start, Refusal>
    ensures { Starts result command.old command.new (first_of (rf_configuration_of item config.now)) }
{
    start::command(
        NO_BYTES_KIND,
        RF_CONFIGURATION_CODE,
        clock::COMMAND_CLOCK,
        &[&[item], config],
        command,
    )
}

pub fn rf_field_off(command: &mut [u8; DATA_LIMIT]) -> Result<Start, Refusal>
    ensures { Starts result command.old command.new (first_of rf_field_off_of) }
{
    start::command(
        NO_BYTES_KIND,
        RF_CONFIGURATION_CODE,
        clock::COMMAND_CLOCK,
        &[&[RF_FIELD_ITEM, FIELD_OFF]],
        command,
    )
}
