// Type A's target data in a list, by the PN532 user manual: SENS_RES, SEL_RES, NFCID1Length, the UID and the ATS.
ghost use Rattle.std.specs.Prelude.{◌≡◌};
ghost use Rattle.targets.specs.TypeA.{is_type2, is_uid_length, is_ats, is_target_data};

// Where NFCID1Length stands, and where the UID begins.
const NFCID1_LENGTH_OFFSET: usize = 3;

const NFCID1_OFFSET: usize = 4;

// SEL_RES of a Type 2 tag: its bits 5 and 6 are 0.
pub fn is_type2(sel_res: u8) -> bool
    ensures { result ≡ is_type2 sel_res }
{
    sel_res / 32 % 4 == 0
}

// A UID of single, double or triple size.
#[tactic(auto, using(errors::specs::Rules::picks), unfolding(crate::specs::TypeA::is_uid_length))]
fn is_uid_length(length: usize) -> bool
    ensures { result ≡ is_uid_length length }
{
    matches!(length, 4 | 7 | 10)
}

// No bytes, or an ATS: its first byte is its own length.
#[tactic(auto, unfolding(crate::specs::TypeA::is_ats))]
fn is_ats(bytes: &[u8]) -> bool
    ensures { result ≡ is_ats bytes.now }
{
    bytes.len() == usize::from(bytes.first().copied().unwrap_or(0))
}

// Target data: a UID of a length that there is, and behind it an ATS or nothing.
#[tactic(auto, using(errors::specs::Rules::picks), unfolding(errors::specs::Choice::pick, crate::specs::TypeA::is_target_data))]
pub fn is_target_data(bytes: &[u8]) -> bool
    ensures { result ≡ is_target_data bytes.now }
{
    if bytes.len() < NFCID1_OFFSET {
        return false;
    }
    let uid = usize::from(bytes[NFCID1_LENGTH_OFFSET]);
    let behind = NFCID1_OFFSET + uid;
    is_uid_length(uid) && bytes.len() >= behind && is_ats(&bytes[behind..])
}
