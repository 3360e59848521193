// What a reply says to the one who sent the request (document 02, N5).
#![tactic(auto, using(crate::specs::Rules::bounds), unfolding(errors::specs::Choice::pick, crate::specs::Checks::by_flags_of, crate::specs::Checks::check_of, crate::specs::Checks::is_complete, crate::specs::Checks::is_from_of))]

ghost use Rattle.std.specs.Prelude.{◌≡◌};
ghost use Rattle.felica.specs.Fields.{idm_in, count_in};
ghost use Rattle.felica.specs.Checks.{is_complete, is_from_of, by_flags_of, check_of, read_check, write_check};

use super::reply::{FLAG1_OFFSET, FLAG2_OFFSET, FLAGS_END, has_blocks};
use super::request::COUNT_OFFSET;
use super::{CODE_OFFSET, READ_REPLY_CODE, WRITE_REPLY_CODE, byte_at, idm};
use errors::Fault;

// At least 12 bytes, of which the first is their number, and, with flag 1 at 0, the whole of what was asked for; else 16.
fn is_complete(whole: bool, reply: &[u8]) -> bool
    ensures { result ≡ is_complete whole reply.now }
{
    reply.len() >= FLAGS_END
        && usize::from(byte_at(reply, 0)) == reply.len()
        && (byte_at(reply, FLAG1_OFFSET) != 0 || whole)
}

// The reply has this code, and comes from the card of this IDm.
fn is_from(code: u8, idm: &[u8], reply: &[u8]) -> bool
    ensures { result ≡ is_from_of code idm.now reply.now }
{
    byte_at(reply, CODE_OFFSET) == code && framing::is_exactly(super::idm(reply), idm)
}

// Flag 1 at 0; else 20, with both flags.
fn by_flags(flag1: u8, flag2: u8) -> Result<(), Fault>
    ensures { result ≡ by_flags_of flag1 flag2 }
{
    if flag1 == 0 {
        Ok(())
    } else {
        Err(Fault::CardStatus(flag1, flag2))
    }
}

// The reply is the one asked for; or 16, 21, 20 in this order.
fn check_reply(code: u8, idm: &[u8], whole: bool, reply: &[u8]) -> Result<(), Fault>
    ensures { result ≡ check_of code idm.now whole reply.now }
{
    if !is_complete(whole, reply) {
        return Err(Fault::ShortResponse);
    }
    if !is_from(code, idm, reply) {
        return Err(Fault::OtherCard);
    }
    by_flags(byte_at(reply, FLAG1_OFFSET), byte_at(reply, FLAG2_OFFSET))
}

// The reply to a read request, by the request's IDm and number of blocks.
pub fn check_read(request: &[u8], reply: &[u8]) -> Result<(), Fault>
    ensures { result ≡ read_check (idm_in request.now) (count_in request.now) reply.now }
{
    let n = byte_at(request, COUNT_OFFSET);
    check_reply(READ_REPLY_CODE, idm(request), has_blocks(n, reply), reply)
}

// The reply to a write request.
pub fn check_write(request: &[u8], reply: &[u8]) -> Result<(), Fault>
    ensures { result ≡ write_check (idm_in request.now) reply.now }
{
    check_reply(
        WRITE_REPLY_CODE,
        idm(request),
        reply.len() == FLAGS_END,
        reply,
    )
}
