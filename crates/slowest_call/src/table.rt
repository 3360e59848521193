// The runs, four fields for each kind: its name, its most events, its lines up to the wait of its last command, and those behind that
// wait. The last field of all has the lines that open the reader. Each field ends with `|`.
ghost use Rattle.std.specs.Prelude.{◌≡◌, [], ℕ, ◌+◌, ◌≤◌, length, get_or, drop};
ghost use Rattle.slowest_call.specs.Fields.{fields_of};
ghost use Rattle.slowest_call.specs.Kinds.{kinds};
ghost use Rattle.slowest_call.specs.Texts.{kind_named_of};
ghost use Rattle.slowest_call.specs.Tables.{run_fields, KindWithin, kind_in};

use framing::is_exactly;
use octets::scan;

pub(crate) const KIND_COUNT: u8 = 27;

// How many fields a kind has.
const FIELD_COUNT: usize = 4;

pub(crate) const RUN_TABLE: [u8; 3918] = *b"\
    open|39|open ; ok ; time ; ok ; pkt 0000FF00FF00 ; late ; ok ; ok ; slept ; ok ; pkt 0000FF00FF00 ; \
    pkt 0000FF06FAD50333013007BD00 ; ok ; pkt 0000FF00FF00 ; pkt 0000FF02FED533F800 ; ok ; pkt 0000FF00FF00 ; \
    pkt 0000FF02FED533F800 ; ok ; pkt 0000FF00FF00 ; pkt 0000FF02FED533F800 ; ok ; pkt 0000FF00FF00 ; \
    pkt 0000FF02FED533F800 ; ok ; pkt 0000FF00FF00 ; pkt 0000FF02FED533F800 ; ok ; pkt 0000FF00FF00 ; \
    pkt 0000FF02FED5131800 ; ok ; pkt 0000FF00FF00 ; late ; ok ; ok ; slept ; ok ; pkt 0000FF00FF00| ; late ; ok|\
    version|4|version ; ok ; pkt 0000FF00FF00| ; late ; ok|\
    reset_mode|6|reset_mode ; ok ; pkt 0000FF00FF00| ; late ; ok ; ok ; slept|\
    set_parameters|4|set_parameters 00 ; ok ; pkt 0000FF00FF00| ; late ; ok|\
    rf_configuration|4|rf_configuration 00 - ; ok ; pkt 0000FF00FF00| ; late ; ok|\
    read_register|4|read_register - ; ok ; pkt 0000FF00FF00| ; late ; ok|\
    write_register|4|write_register - ; ok ; pkt 0000FF00FF00| ; late ; ok|\
    read_single_register|4|read_single_register 0000 ; ok ; pkt 0000FF00FF00| ; late ; ok|\
    write_single_register|4|write_single_register 0000 00 ; ok ; pkt 0000FF00FF00| ; late ; ok|\
    in_list_passive_target|4|in_list_passive_target 01 00 - ; ok ; pkt 0000FF00FF00| ; late ; ok|\
    in_data_exchange|4|in_data_exchange 1 - ; ok ; pkt 0000FF00FF00| ; late ; ok|\
    in_communicate_thru|4|in_communicate_thru 1 - ; ok ; pkt 0000FF00FF00| ; late ; ok|\
    in_jump_for_dep|4|in_jump_for_dep 00 00 - - - ; ok ; pkt 0000FF00FF00| ; late ; ok|\
    tg_init_target|4|tg_init_target 1 00 000000000000 000000000000000000000000000000000000 00000000000000000000 - ; \
    ok ; pkt 0000FF00FF00| ; late ; ok|\
    tg_set_general_bytes|4|tg_set_general_bytes - ; ok ; pkt 0000FF00FF00| ; late ; ok|\
    tg_get_initiator_command|4|tg_get_initiator_command 1 ; ok ; pkt 0000FF00FF00| ; late ; ok|\
    tg_response_to_initiator|4|tg_response_to_initiator - ; ok ; pkt 0000FF00FF00| ; late ; ok|\
    tg_get_target_status|4|tg_get_target_status ; ok ; pkt 0000FF00FF00| ; late ; ok|\
    rf_field_off|4|rf_field_off ; ok ; pkt 0000FF00FF00| ; late ; ok|\
    detect_type_a|14|detect_type_a 106A - ; ok ; pkt 0000FF00FF00 ; pkt 0000FF03FDD54B00E000 ; ok ; \
    pkt 0000FF00FF00 ; late ; ok ; ok ; pkt 0000FF00FF00 ; pkt 0000FF04FCD54B0101DE00 ; ok ; pkt 0000FF00FF00| ; \
    late ; ok|\
    detect_type_b|11|detect_type_b 106B - ; ok ; pkt 0000FF00FF00 ; \
    pkt 0000FF0FF1D54B01010000000000000000000001DD00 ; ok ; pkt 0000FF00FF00 ; late ; ok ; ok ; pkt 0000FF00FF00| ; \
    late ; ok|\
    detect_type_f|11|detect_type_f 212F 0000 00 00 ; ok ; pkt 0000FF00FF00 ; pkt 0000FF03FDD507002400 ; ok ; \
    pkt 0000FF00FF00 ; pkt 0000FF02FED533F800 ; slept ; ok ; pkt 0000FF00FF00| ; late ; ok|\
    detect_dep|10|detect_dep 106A 00000000000000000000000000000000 ; ok ; pkt 0000FF00FF00 ; pkt 0000FF02FED533F800 ; \
    ok ; pkt 0000FF00FF00 ; pkt 0000FF04FCD5570001D300 ; ok ; pkt 0000FF00FF00| ; late ; ok|\
    transceive|4|transceive 106A none none none - ; ok ; pkt 0000FF00FF00| ; late ; ok|\
    detect_type_a_split|14|detect_type_a 106A - split ; ok ; pkt 0000FF00FF00 ; pkt 0000FF03FDD54B00E000 ; ok ; \
    pkt 0000FF00FF00 ; late ; ok ; ok ; pkt 0000FF00FF00 ; pkt 0000FF04FCD54B0101DE00 ; ok ; pkt 0000FF00FF00| ; \
    late ; ok|\
    read_without_encryption|4|read_without_encryption 0000000000000000 0000 none 00 ; ok ; pkt 0000FF00FF00| ; late ; \
    ok|\
    write_without_encryption|4|write_without_encryption 0000000000000000 0000 none 00 00000000000000000000000000000000 ; \
    ok ; pkt 0000FF00FF00| ; late ; ok|\
    open ; ok ; time ; ok ; pkt 0000FF00FF00 ; pkt 0000FF02FED5191200 ; ok ; slept ; ok ; pkt 0000FF00FF00 ; \
    pkt 0000FF06FAD50333013007BD00 ; ok ; pkt 0000FF00FF00 ; pkt 0000FF02FED533F800 ; ok ; pkt 0000FF00FF00 ; \
    pkt 0000FF02FED533F800 ; ok ; pkt 0000FF00FF00 ; pkt 0000FF02FED533F800 ; ok ; pkt 0000FF00FF00 ; \
    pkt 0000FF02FED533F800 ; ok ; pkt 0000FF00FF00 ; pkt 0000FF02FED533F800 ; ok ; pkt 0000FF00FF00 ; \
    pkt 0000FF02FED5131800 ; ok ; pkt 0000FF00FF00 ; pkt 0000FF02FED5191200 ; ok ; slept ; ok ; pkt 0000FF00FF00 ; \
    pkt 0000FF03FDD509002200|";

// The table as a text of which the fields are known.
#[derive(Clone, Copy)]
pub(crate) struct Runs<'a> {
    pub(crate) table: &'a [u8],
    ghost fields: { fields_of table.now ≡ run_fields },
}

// The place behind so many fields from a place on, each of which ends with `|`; the table's end where it has fewer.
fn behind_fields(table: &[u8], from: usize, k: usize) -> usize
    requires { from ≤ length table.now }
    ensures { (result ≤ length table.now) × ((j : ℕ) → get_or (fields_of (drop result table.now)) j [] ≡ get_or (fields_of (drop from table.now)) (k + j) []) }
{
    let mut at = from;
    for _ in 0..k {
        let end = scan::find(table, at, table.len(), b'|');
        if end == table.len() {
            return end;
        }
        at = end + 1;
    }
    at
}

// The field that starts at a place.
fn field_at(table: &[u8], at: usize) -> &[u8]
    requires { at ≤ length table.now }
    ensures { result.now ≡ get_or (fields_of (drop at table.now)) 0 [] }
{
    let to = scan::find(table, at, table.len(), b'|');
    &table[at..to]
}

// The k-th field, counted from 0; the empty part where there are fewer.
fn field(table: &[u8], k: usize) -> &[u8]
    ensures { result.now ≡ get_or (fields_of table.now) k [] }
{
    field_at(table, behind_fields(table, 0, k))
}

impl<'a> Runs<'a> {
    pub(crate) fn field(&self, k: usize) -> &'a [u8]
        ensures { result.now ≡ get_or run_fields k [] }
    {
        field(self.table, k)
    }

    // The kind of a name. The table is gone through once, from one kind to the next.
    pub(crate) fn kind_named(&self, name: &[u8]) -> Option<u8>
        ensures { (kind_in result ≡ kind_named_of kinds name.now) × KindWithin result }
    {
        let mut at = 0;
        for kind in 0..KIND_COUNT {
            if is_exactly(name, field_at(self.table, at)) {
                return Some(kind);
            }
            at = behind_fields(self.table, at, FIELD_COUNT);
        }
        None
    }
}
