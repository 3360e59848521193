// Responses, put at the start of a lent array.
#![tactic(auto, using(errors::specs::Rules::picks, crate::specs::RangeLaws::few_cards), unfolding(errors::specs::Choice::pick, chip_protocol::specs::Chip::register_value_of, chip_protocol::specs::Chip::registers_read))]

ghost use Rattle.std.specs.Prelude.{◌≡◌, Option, ◌++◌, map, ◌+◌, ◌*◌, ◌/◌, ◌≤◌, ◌<◌, eqb, length, take, get_or, IfSome, MatchOption};
ghost use Rattle.protocol.specs.Arguments.{words_in};
ghost use Rattle.chip_protocol.specs.Names.{longest_response};
ghost use Rattle.chip_protocol.specs.Packets.{responds};
ghost use Rattle.chip_protocol.specs.Chip.{card_at, listed, jumped, listed_place, partner_place, exchanged_with, register_value_of, registers_read};
ghost use Rattle.simulated_chip.specs.Memory.{field_in, place_of, place_in};
ghost use Rattle.simulated_chip.specs.Responses.{Puts, listed_or};

use super::names::{
    CIU_FIFO_DATA, CIU_TX_CONTROL, NO_TARGET, ONE_TARGET, OTHER_REGISTER, RESPONSE_LIMIT, SENS_REQ,
    SUCCESS_STATUS, TARGET_NUMBER, TIMEOUT_STATUS, TX_CONTROL_OFF, TX_CONTROL_ON,
};
use super::range::Ranged;

// The command is none that the chip knows, or asks for more than a packet holds: the manual's syntax error.
#[derive(Clone, Copy, Debug, PartialEq, Eq)]
pub struct SyntaxError;

// A response of two parts, put at the start, one behind the other; how many bytes it has.
pub(crate) fn put_response(head: &[u8], rest: &[u8], out: &mut [u8; RESPONSE_LIMIT]) -> usize
    requires { length head.now + length rest.now ≤ longest_response }
    ensures { Puts (Ok result) out.new (responds (head.now ++ rest.now)) }
{
    let n = head.len();
    octets::copy(head, out);
    octets::copy(rest, &mut out[n..]);
    n + rest.len()
}

impl Ranged<'_> {
    // A card's list data behind two bytes; one byte where no card was found.
    fn put_listed(
        self,
        place: Option<usize>,
        absent: u8,
        present: u8,
        out: &mut [u8; RESPONSE_LIMIT],
    ) -> usize
        requires { IfSome place (λ i. i < self.chip.now.state.count) }
        ensures { Puts (Ok result) out.new (responds (listed_or absent present (card_at (field_in self.entry.chip.now) (place_of place)))) }
    {
        let Some(card) = place else {
            return put_response(&[absent], &[], out);
        };
        put_response(&[present, TARGET_NUMBER], self.list_data(card), out)
    }

    // InListPassiveTarget.
    pub(crate) fn put_list(self, bytes: &[u8], out: &mut [u8; RESPONSE_LIMIT]) -> usize
        ensures { Puts (Ok result) out.new (responds (listed (card_at (field_in self.entry.chip.now) (listed_place (field_in self.entry.chip.now) bytes.now)))) }
    {
        self.put_listed(self.listed_place(bytes), NO_TARGET, ONE_TARGET, out)
    }

    // InJumpForDEP.
    pub(crate) fn put_partner(self, bytes: &[u8], out: &mut [u8; RESPONSE_LIMIT]) -> usize
        ensures { Puts (Ok result) out.new (responds (jumped (card_at (field_in self.entry.chip.now) (partner_place (field_in self.entry.chip.now) bytes.now)))) }
    {
        self.put_listed(
            self.partner_place(bytes),
            TIMEOUT_STATUS,
            SUCCESS_STATUS,
            out,
        )
    }

    // The stated reply of the card found to these bytes, behind its status.
    pub(crate) fn put_exchanged(self, bytes: &[u8], out: &mut [u8; RESPONSE_LIMIT]) -> usize
        ensures { Puts (Ok result) out.new (responds (exchanged_with (card_at (field_in self.entry.chip.now) (place_in self.entry.chip.now.state.found)) bytes.now)) }
    {
        let Some(card) = usize::from(self.chip.state.found).checked_sub(1) else {
            return put_response(&[TIMEOUT_STATUS], &[], out);
        };
        let Some(reply) = self.reply(card, bytes) else {
            return put_response(&[TIMEOUT_STATUS], &[], out);
        };
        put_response(&[SUCCESS_STATUS], reply, out)
    }
}

// What a register reads.
fn register_value(on: u8, address: usize) -> u8
    ensures { result ≡ register_value_of (eqb on 1) address }
{
    match address {
        CIU_FIFO_DATA => SENS_REQ,
        CIU_TX_CONTROL if on == 1 => TX_CONTROL_ON,
        CIU_TX_CONTROL => TX_CONTROL_OFF,
        _ => OTHER_REGISTER,
    }
}

// The number of two bytes, high byte first.
fn word_at(bytes: &[u8], at: usize) -> usize
    requires { at + 1 < length bytes.now }
    ensures { result ≡ 256 * get_or bytes.now at 0 + get_or bytes.now (at + 1) 0 }
{
    usize::from(u16::from_be_bytes([bytes[at], bytes[at + 1]]))
}

// Puts a byte for each register whose address the bytes have.
fn read_registers(on: u8, bytes: &[u8], out: &mut [u8])
    requires { length bytes.now / 2 ≤ length out.old }
    ensures { take (length bytes.now / 2) out.new ≡ map (register_value_of (eqb on 1)) (words_in bytes.now) }
{
    for i in 0..bytes.len() / 2 {
        out[i] = register_value(on, word_at(bytes, 2 * i));
    }
}

// ReadRegister; more values than fit a packet are an error.
pub(crate) fn put_registers(
    on: u8,
    bytes: &[u8],
    out: &mut [u8; RESPONSE_LIMIT],
) -> Result<usize, SyntaxError>
    ensures { Puts result out.new (registers_read (eqb on 1) bytes.now) }
{
    let count = bytes.len() / 2;
    if RESPONSE_LIMIT < count {
        return Err(SyntaxError);
    }
    read_registers(on, bytes, out);
    Ok(count)
}
