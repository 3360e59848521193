// How each call starts, by its number: its first command, for which bytes are put by, or its refusal at once.
#![tactic(auto, using(errors::specs::Rules::picks), unfolding(errors::specs::Choice::pick, crate::specs::Numbers::call_of, crate::specs::Firsts::start_for, crate::specs::Firsts::device_first))]

ghost use Rattle.std.specs.Prelude.{Bool, ◌≡◌, ◌≤◌, ◌<◌, MatchResult};
ghost use Rattle.errors.specs.declared.Refusal.TheVariants.{BadArgument};
ghost use Rattle.stages.specs.Starts.{Starts};
ghost use Rattle.device.specs.Transceive.{timeout_of};
ghost use Rattle.protocol.specs.Arguments.{flag, ms_of, is_long_wait};
ghost use Rattle.protocol.specs.Calls.{device, read_without_encryption, write_without_encryption, timed};
ghost use Rattle.calls.specs.Numbers.{call_of, call_in, initiator_calls, target_calls, device_calls, block_calls};
ghost use Rattle.calls.specs.Firsts.{start_for, start_by};

use chipset::{general, initiator, registers, target};
use device::blocks::{read_without_encryption, write_without_encryption};
use device::transceive::transceive;
use discovery::dep::detect_dep;
use discovery::poll_type_f::poll_type_f;
use discovery::type_a::detect_type_a;
use discovery::type_a_split::detect_type_a_split;
use discovery::type_b::detect_type_b;
use discovery::type_f::detect_type_f;
use errors::Refusal;
use stages::put::DATA_LIMIT;
use stages::start::Start;

// A call's arguments that are numbers: milliseconds, a word of 16 bits, two bytes, and its caller. What a call does not use counts for
// nothing; each has a caller.
#[repr(C)]
#[derive(Clone, Copy, Debug, PartialEq, Eq)]
pub struct Numbers {
    pub ms: u32,
    pub word: u16,
    pub x: u8,
    pub y: u8,
    pub caller: u8,
}

// The numbers of the calls.
// Kept: numbers and no enum, since C callers pass any number and one that has no call is refused.
pub const OPEN_CALL: u8 = 0;

pub const GET_FIRMWARE_VERSION_CALL: u8 = 1;

pub const RESET_MODE_CALL: u8 = 2;

pub const SET_PARAMETERS_CALL: u8 = 3;

pub const RF_CONFIGURATION_CALL: u8 = 4;

pub const READ_REGISTER_CALL: u8 = 5;

pub const WRITE_REGISTER_CALL: u8 = 6;

pub const READ_SINGLE_REGISTER_CALL: u8 = 7;

pub const WRITE_SINGLE_REGISTER_CALL: u8 = 8;

pub const IN_LIST_PASSIVE_TARGET_CALL: u8 = 9;

pub const IN_DATA_EXCHANGE_CALL: u8 = 10;

pub const IN_COMMUNICATE_THRU_CALL: u8 = 11;

pub const IN_JUMP_FOR_DEP_CALL: u8 = 12;

pub const TG_INIT_TARGET_CALL: u8 = 13;

pub const TG_SET_GENERAL_BYTES_CALL: u8 = 14;

pub const TG_GET_INITIATOR_COMMAND_CALL: u8 = 15;

pub const TG_RESPONSE_TO_INITIATOR_CALL: u8 = 16;

pub const TG_GET_TARGET_STATUS_CALL: u8 = 17;

pub const RF_FIELD_OFF_CALL: u8 = 18;

pub const DETECT_TYPE_A_CALL: u8 = 19;

pub const DETECT_TYPE_B_CALL: u8 = 20;

pub const DETECT_TYPE_F_CALL: u8 = 21;

pub const DETECT_DEP_CALL: u8 = 22;

pub const TRANSCEIVE_CALL: u8 = 23;

pub const POLL_TYPE_F_CALL: u8 = 24;

pub const DETECT_TYPE_A_SPLIT_CALL: u8 = 25;

pub const READ_WITHOUT_ENCRYPTION_CALL: u8 = 26;

pub const WRITE_WITHOUT_ENCRYPTION_CALL: u8 = 27;

pub const LAST_CALL: u8 = WRITE_WITHOUT_ENCRYPTION_CALL;

// All arguments of a call: its numbers and its lists of bytes.
#[derive(Clone, Copy)]
struct Arguments<'a> {
    numbers: Numbers,
    first: &'a [u8],
    second: &'a [u8],
    third: &'a [u8],
    fourth: &'a [u8],
}

// The calls below an initiator's: the chip's version, mode, parameters and registers.
fn chip(number: u8, arguments: &Arguments, command: &mut [u8; DATA_LIMIT]) -> Result<Start, Refusal>
    requires { number < initiator_calls }
    ensures { Starts result command.old command.new (start_by (call_in number arguments.now)) }
{
    let Arguments { numbers, first, .. } = *arguments;
    let Numbers { word, x, .. } = numbers;
    match number {
        GET_FIRMWARE_VERSION_CALL => general::get_firmware_version(command),
        RESET_MODE_CALL => general::reset_mode(command),
        SET_PARAMETERS_CALL => general::set_parameters(x, command),
        RF_CONFIGURATION_CALL => general::rf_configuration(x, first, command),
        READ_REGISTER_CALL => registers::read_register(first, command),
        WRITE_REGISTER_CALL => registers::write_register(first, command),
        READ_SINGLE_REGISTER_CALL => registers::read_single_register(word, command),
        WRITE_SINGLE_REGISTER_CALL => registers::write_single_register(word, x, command),
        _ => Err(Refusal::BadArgument),
    }
}

// A byte as a flag: the flags of a call are bytes in the C interface.
fn is_set(x: u8) -> bool
    ensures { result ≡ flag x }
{
    x != 0
}

// What an initiator does, and the start of a target.
fn as_initiator(
    number: u8,
    arguments: &Arguments,
    command: &mut [u8; DATA_LIMIT],
) -> Result<Start, Refusal>
    requires { (initiator_calls ≤ number) × (number < target_calls) }
    ensures { Starts result command.old command.new (start_by (call_in number arguments.now)) }
{
    let Arguments {
        numbers,
        first,
        second,
        third,
        fourth,
    } = *arguments;
    let Numbers { ms, x, y, .. } = numbers;
    match number {
        IN_LIST_PASSIVE_TARGET_CALL => initiator::in_list_passive_target(x, y, first, command),
        IN_DATA_EXCHANGE_CALL => initiator::in_data_exchange(first, ms, command),
        IN_COMMUNICATE_THRU_CALL => initiator::in_communicate_thru(first, ms, command),
        IN_JUMP_FOR_DEP_CALL => initiator::in_jump_for_dep(
            is_set(x),
            y,
            first,
            second,
            third,
            command,
        ),
        _ => target::tg_init_target(x, first, second, third, fourth, ms, command),
    }
}

// What a target does, and the field.
fn as_target(
    number: u8,
    arguments: &Arguments,
    command: &mut [u8; DATA_LIMIT],
) -> Result<Start, Refusal>
    requires { (target_calls ≤ number) × (number < device_calls) }
    ensures { Starts result command.old command.new (start_by (call_in number arguments.now)) }
{
    let Arguments { numbers, first, .. } = *arguments;
    let ms = numbers.ms;
    match number {
        TG_SET_GENERAL_BYTES_CALL => target::tg_set_general_bytes(first, command),
        TG_GET_INITIATOR_COMMAND_CALL => target::tg_get_initiator_command(ms, command),
        TG_RESPONSE_TO_INITIATOR_CALL => target::tg_response_to_initiator(first, command),
        TG_GET_TARGET_STATUS_CALL => target::tg_get_target_status(command),
        _ => general::rf_field_off(command),
    }
}

// The ms of a read or a write of FeliCa blocks: they have 16 bits.
// Kept: a flag and a number are what C passes; what comes out is an Option.
fn block_timeout(given: bool, ms: u32) -> Result<Option<u16>, Refusal>
    ensures { MatchResult result (λ t. (is_long_wait given ms ≡ Bool.false) × (timeout_of t ≡ ms_of given ms)) (λ e. (is_long_wait given ms ≡ Bool.true) × (e ≡ BadArgument)) }
{
    if !given {
        return Ok(None);
    }
    match u16::try_from(ms) {
        Ok(ms) => Ok(Some(ms)),
        Err(_) => Err(Refusal::BadArgument),
    }
}

fn read_blocks(
    numbers: Numbers,
    idm: &[u8],
    blocks: &[u8],
    command: &mut [u8; DATA_LIMIT],
) -> Result<Start, Refusal>
    ensures { Starts result command.old command.new (start_for (timed (flag numbers.y) numbers.ms (device (read_without_encryption idm.now numbers.word blocks.now (ms_of (flag numbers.y) numbers.ms))))) }
{
    let timeout = block_timeout(is_set(numbers.y), numbers.ms)?;
    read_without_encryption(idm, numbers.word, blocks, timeout, command)
}

fn write_blocks(
    numbers: Numbers,
    idm: &[u8],
    blocks: &[u8],
    bytes: &[u8],
    command: &mut [u8; DATA_LIMIT],
) -> Result<Start, Refusal>
    ensures { Starts result command.old command.new (start_for (timed (flag numbers.y) numbers.ms (device (write_without_encryption idm.now numbers.word blocks.now bytes.now (ms_of (flag numbers.y) numbers.ms))))) }
{
    let timeout = block_timeout(is_set(numbers.y), numbers.ms)?;
    write_without_encryption(idm, numbers.word, blocks, bytes, timeout, command)
}

// FeliCa blocks. A number that has no call is refused with 4.
fn later(
    number: u8,
    arguments: &Arguments,
    command: &mut [u8; DATA_LIMIT],
) -> Result<Start, Refusal>
    requires { block_calls ≤ number }
    ensures { Starts result command.old command.new (start_by (call_in number arguments.now)) }
{
    let Arguments {
        numbers,
        first,
        second,
        third,
        ..
    } = *arguments;
    match number {
        READ_WITHOUT_ENCRYPTION_CALL => read_blocks(numbers, first, second, command),
        WRITE_WITHOUT_ENCRYPTION_CALL => write_blocks(numbers, first, second, third, command),
        _ => Err(Refusal::BadArgument),
    }
}

// The discoveries and transceive, and those behind them.
fn on_device(
    number: u8,
    arguments: &Arguments,
    command: &mut [u8; DATA_LIMIT],
) -> Result<Start, Refusal>
    requires { device_calls ≤ number }
    ensures { Starts result command.old command.new (start_by (call_in number arguments.now)) }
{
    let Arguments {
        numbers,
        first,
        second,
        third,
        ..
    } = *arguments;
    let Numbers { word, x, y, .. } = numbers;
    match number {
        DETECT_TYPE_A_CALL => detect_type_a(first, second, command),
        DETECT_TYPE_B_CALL => detect_type_b(first, second, command),
        DETECT_TYPE_F_CALL => detect_type_f(first, word, x, y, command),
        DETECT_DEP_CALL => detect_dep(first, second, command),
        TRANSCEIVE_CALL => {
            let ms = is_set(y).then_some(word);
            transceive(first, second, is_set(x), third, ms, command)
        }
        POLL_TYPE_F_CALL => poll_type_f(first, second, command),
        DETECT_TYPE_A_SPLIT_CALL => detect_type_a_split(first, second, command),
        _ => later(number, arguments, command),
    }
}

// A call of an open reader, by its number: what is put by goes into `command`.
// Kept: the parameters are those of every call, by number (decision 23); behind this function they are one struct.
pub fn start(
    number: u8,
    numbers: Numbers,
    first: &[u8],
    second: &[u8],
    third: &[u8],
    fourth: &[u8],
    command: &mut [u8; DATA_LIMIT],
) -> Result<Start, Refusal>
    ensures { Starts result command.old command.new (start_by (call_of number numbers first.now second.now third.now fourth.now)) }
{
    let arguments = Arguments {
        numbers,
        first,
        second,
        third,
        fourth,
    };
    if number < IN_LIST_PASSIVE_TARGET_CALL {
        return chip(number, &arguments, command);
    }
    if number < TG_SET_GENERAL_BYTES_CALL {
        return as_initiator(number, &arguments, command);
    }
    if number < DETECT_TYPE_A_CALL {
        return as_target(number, &arguments, command);
    }
    on_device(number, &arguments, command)
}
