// CRC_A and CRC_B of ISO/IEC 14443-3: checked at the end of received bytes, and added to bytes that are to be sent.
#![tactic(auto)]

ghost use Rattle.std.specs.Prelude.{List, ◌≡◌, ℕ};
ghost use Rattle.errors.specs.Refusals.{Returned, returned};
ghost use Rattle.crc.specs.Crc.{crc_kind, type_a, type_b, crc_of, checks};
ghost use Rattle.crc.specs.Answers.{added};

mod table;

use errors::Refusal;
use table::CRC_TABLE;

// What the two kinds differ in: the register's initial value, and whether the result is inverted.
#[derive(Clone, Copy, Debug, PartialEq, Eq)]
struct Kind {
    initial: u16,
    inverted: bool,
}

const CRC_A: Kind = Kind {
    initial: 0x6363,
    inverted: false,
};

const CRC_B: Kind = Kind {
    initial: 0xFFFF,
    inverted: true,
};

impl Kind {
    // The CRC of `bytes`, a byte at a time. `table` is filled once, before the loop: a constant that the loop itself names would be filled at each turn.
    fn of(self, bytes: &[u8]) -> u16
        ensures { result ≡ crc_of (crc_kind self.initial self.inverted) bytes.now }
    {
        let table = CRC_TABLE;
        let mut register = self.initial;
        for byte in bytes {
            let low = (register ^ u16::from(*byte)) % 256;
            register = (register >> 8) ^ table[usize::from(low)];
        }
        if self.inverted { !register } else { register }
    }

    #[tactic(auto, using(errors::specs::Rules::picks, errors::specs::Rules::same_by), unfolding(errors::specs::Choice::pick, crate::specs::Crc::checks, crate::specs::Crc::crc_bytes))]
    fn checks(self, bytes: &[u8]) -> bool
        ensures { result ≡ checks (crc_kind self.initial self.inverted) bytes.now }
    {
        let Some((message, sent)) = bytes.split_last_chunk::<2>() else {
            return false;
        };
        self.of(message).to_le_bytes() == *sent
    }

    #[tactic(auto, using(errors::specs::Rules::picks), unfolding(errors::specs::Choice::pick, errors::specs::Refusals::returned, crate::specs::Answers::added))]
    fn add(self, bytes: &[u8], out: &mut [u8]) -> Result<usize, Refusal>
        ensures { ◌≡◌ {A = Returned × List ℕ} (returned result, out.new) (added (crc_kind self.initial self.inverted) bytes.now out.old) }
    {
        let n = bytes.len();
        if out.len() < n + 2 {
            return Err(Refusal::ShortBuffer);
        }
        let crc = self.of(bytes);
        octets::copy(bytes, out);
        octets::copy(&crc.to_le_bytes(), &mut out[n..]);
        Ok(n + 2)
    }
}

// The last two bytes are the CRC_A of those before them. Under two bytes: no.
pub fn check_crc_a(data: &[u8]) -> bool
    ensures { result ≡ checks type_a «data».now }
{
    CRC_A.checks(data)
}

// The same of CRC_B.
pub fn check_crc_b(data: &[u8]) -> bool
    ensures { result ≡ checks type_b «data».now }
{
    CRC_B.checks(data)
}

// Writes `data` and its CRC_A to the start of `out`, and says how many bytes they are. A buffer that is too short is refused and left as it is.
pub fn add_crc_a(data: &[u8], out: &mut [u8]) -> Result<usize, Refusal>
    ensures { ◌≡◌ {A = Returned × List ℕ} (returned result, out.new) (added type_a «data».now out.old) }
{
    CRC_A.add(data, out)
}

// The same with CRC_B.
pub fn add_crc_b(data: &[u8], out: &mut [u8]) -> Result<usize, Refusal>
    ensures { ◌≡◌ {A = Returned × List ℕ} (returned result, out.new) (added type_b «data».now out.old) }
{
    CRC_B.add(data, out)
}
