// The opening (`Device::new` of device.rs): the command of each stage, and what follows each reply. transceive and the FeliCa blocks have files of their own.
#![tactic(auto, using(errors::specs::Rules::picked), unfolding(errors::specs::Choice::pick, protocol::specs::Device::hex_digit_of, crate::specs::Opening::is_reset_stage, crate::specs::Opening::opening_command, crate::specs::Opening::settings_command, crate::specs::Opening::version_kept, crate::specs::Opening::opening_decision, stages::specs::Stages::with_length))]

pub mod blocks;
pub mod transceive;

ghost use Rattle.std.specs.Prelude.{List, ◌++◌, ◌≡◌, ℕ, ◌≤◌, ◌<◌, length, take};
ghost use Rattle.protocol.specs.Names.{command_clock};
ghost use Rattle.protocol.specs.Calls.{rf_configuration_code};
ghost use Rattle.stages.specs.Stages.{cmd};
ghost use Rattle.stages.specs.Decided.{Lays, DecisionRefines, Commands, fixed_limit};
ghost use Rattle.device.specs.Opening.{opening_command, settings_command, is_reset_stage, version_kept, opening_decision};
ghost use Rattle.protocol.specs.Device.{hex_digit_of, name_prefix, name_bytes};

use chipset::{ciu, clock, general, registers};
use errors::Fault;
use general::{
    ANALOG_106A_ITEM, ATR_RES_TIMEOUTS, FIELD_OFF, MAX_RETRIES_ITEM, MAX_RTY_COM_ITEM,
    RF_FIELD_ITEM,
};
use stages::put::append;
use stages::{Command, Decision, FIXED_LIMIT, Layout};

// The kind of the opening; the other kinds are of chipset and discovery.
// Kept: a kind is a byte of the session, where any byte may stand, and the theorems speak of every number.
pub const OPENING_KIND: u8 = 1;

// The RF settings for 106A, behind their item.
const RF_106A: [u8; FIXED_LIMIT] = [
    ANALOG_106A_ITEM,
    0x5A,
    0xF4,
    0x3F,
    0x11,
    0x4D,
    0x85,
    0x61,
    0x6F,
    0x26,
    0x62,
    0x87,
];

// The stages.
// Kept: a stage is a byte of the session, where any byte may stand, and the theorems speak of every number.
const RESET_STAGE: u8 = 0;

const VERSION_STAGE: u8 = 1;

const FIELD_OFF_STAGE: u8 = 2;

const TIMEOUTS_STAGE: u8 = 3;

const MAX_RTY_COM_STAGE: u8 = 4;

const MAX_RETRIES_STAGE: u8 = 5;

const ANALOG_STAGE: u8 = 6;

const PARAMETERS_STAGE: u8 = 7;

const RESET_AGAIN_STAGE: u8 = 8;

pub const RF_CFG_STAGE: u8 = 9;

// RFCfg of RAM-07 as the opening leaves it.
const OPENING_RF_CFG: u8 = 0x59;

// The parameters that the opening sets.
const OPENING_PARAMETERS: u8 = 0x08;

// An RF configuration of an item, with its bytes.
fn configured(bytes: &[u8]) -> Command
    ensures { length bytes.now ≤ fixed_limit → Commands result (λ pending. cmd rf_configuration_code command_clock bytes.now) }
{
    Command::fixed(general::RF_CONFIGURATION_CODE, clock::COMMAND_CLOCK, bytes)
}

// The commands of Device::new, one for each stage.
pub fn command(stage: u8) -> Command
    ensures { Commands result (opening_command stage) }
{
    match stage {
        RESET_STAGE => general::reset_mode_command(),
        VERSION_STAGE => Command::fixed(
            general::GET_FIRMWARE_VERSION_CODE,
            clock::COMMAND_CLOCK,
            &[],
        ),
        FIELD_OFF_STAGE => configured(&[RF_FIELD_ITEM, FIELD_OFF]),
        TIMEOUTS_STAGE => configured(&ATR_RES_TIMEOUTS),
        MAX_RTY_COM_STAGE => configured(&[MAX_RTY_COM_ITEM, 0x00]),
        _ => settings(stage),
    }
}

// Its later commands, from the sixth on.
fn settings(stage: u8) -> Command
    ensures { Commands result (settings_command stage) }
{
    match stage {
        MAX_RETRIES_STAGE => configured(&[MAX_RETRIES_ITEM, 0x00, 0x00, 0x01]),
        ANALOG_STAGE => configured(&RF_106A),
        PARAMETERS_STAGE => Command::fixed(
            general::SET_PARAMETERS_CODE,
            clock::COMMAND_CLOCK,
            &[OPENING_PARAMETERS],
        ),
        RESET_AGAIN_STAGE => general::reset_mode_command(),
        _ => registers::write_single_register_command(ciu::RF_CFG_RAM07, OPENING_RF_CFG),
    }
}

// Two commands are resets.
pub fn is_reset(stage: u8) -> bool
    ensures { result ≡ is_reset_stage stage }
{
    matches!(stage, RESET_STAGE | RESET_AGAIN_STAGE)
}

// A lower-case hex digit.
// Kept: `char::from_digit` gives an Option of a char, to be opened and made a byte again, and `{:x}` wants a writer over the array.
fn hex_digit(n: u8) -> u8
    requires { n < 16 }
    ensures { result ≡ hex_digit_of n }
{
    if n < 10 { 0x30 + n } else { 0x57 + n }
}

// The three version bytes of the response, and RCS956v with the dotted numbers.
fn named(dotted: &[u8]) -> Layout
    ensures { (f b : List ℕ) → 3 ≤ length b → length dotted.now ≤ 5 → Lays f b result (take 3 b ++ (name_prefix ++ dotted.now)) }
{
    let mut name = *b"RCS956v\0\0\0\0\0";
    let n = append(dotted, &mut name, 7);
    Layout::tailed(0, 3, &name[..n])
}

// The same with version, a dot, and revision.
fn chipset_name(version: u8, revision: u8) -> Layout
    ensures { (f b : List ℕ) → 3 ≤ length b → Lays f b result (take 3 b ++ name_bytes version revision) }
{
    let high = hex_digit(version / 16);
    let low = hex_digit(version % 16);
    let tens = hex_digit(revision / 16);
    let ones = hex_digit(revision % 16);
    match (version < 16, revision < 16) {
        (true, true) => named(&[low, b'.', ones]),
        (true, false) => named(&[low, b'.', tens, ones]),
        (false, true) => named(&[high, low, b'.', ones]),
        (false, false) => named(&[high, low, b'.', tens, ones]),
    }
}

// get_firmware_version was answered: the three bytes and the chip's name are kept.
fn version(response: &[u8]) -> Decision
    ensures { (f : List ℕ) → DecisionRefines f response.now result (version_kept response.now) }
{
    let [_, version, revision, _, ..] = response else {
        return Decision::Refused(Fault::ShortResponse);
    };
    Decision::Keep(FIELD_OFF_STAGE, chipset_name(*version, *revision))
}

// What follows a response, or a reset; `found` is the answer once the version is known.
pub fn decided(stage: u8, found: &[u8], response: &[u8]) -> Decision
    ensures { DecisionRefines found.now response.now result (opening_decision stage found.now response.now) }
{
    match stage {
        VERSION_STAGE => version(response),
        RESET_STAGE..RF_CFG_STAGE => Decision::Send(stage + 1),
        _ => registers::found_written(found, response),
    }
}
