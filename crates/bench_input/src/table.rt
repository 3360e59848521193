// The table of lines.
#![tactic(auto, using(errors::specs::Rules::equals), unfolding(errors::specs::Choice::pick, crate::specs::Table::is_for_of, crate::specs::Table::row_for))]

ghost use Rattle.std.specs.Prelude.{◌≡◌, map};
ghost use Rattle.bench_input.specs.Table.{row_for};
ghost use Rattle.bench_input.specs.Readings.{row_in, row_found_in};

// A row: its name, a letter for each word behind the name, and its number.
#[derive(Clone, Copy, Debug, PartialEq, Eq)]
pub(crate) struct Row(pub &'static [u8], pub &'static [u8], pub u8);

pub(crate) static LINE_TABLE: [Row; 37] = [
    Row(b"open", b"", 0x00),
    Row(b"open", b"z", 0x00),
    Row(b"version", b"", 0x01),
    Row(b"reset_mode", b"", 0x02),
    Row(b"set_parameters", b"x", 0x03),
    Row(b"rf_configuration", b"xH", 0x04),
    Row(b"read_register", b"2", 0x05),
    Row(b"write_register", b"3", 0x06),
    Row(b"read_single_register", b"w", 0x07),
    Row(b"write_single_register", b"wx", 0x08),
    Row(b"in_list_passive_target", b"xyH", 0x09),
    Row(b"in_data_exchange", b"mH", 0x0A),
    Row(b"in_communicate_thru", b"mH", 0x0B),
    Row(b"in_jump_for_dep", b"fyHHH", 0x0C),
    Row(b"tg_init_target", b"mxHHHH", 0x0D),
    Row(b"tg_set_general_bytes", b"H", 0x0E),
    Row(b"tg_get_initiator_command", b"m", 0x0F),
    Row(b"tg_response_to_initiator", b"H", 0x10),
    Row(b"tg_get_target_status", b"", 0x11),
    Row(b"rf_field_off", b"", 0x12),
    Row(b"detect_type_a", b"BH", 0x13),
    Row(b"detect_type_b", b"BH", 0x14),
    Row(b"detect_type_f", b"Bwxy", 0x15),
    Row(b"detect_dep", b"BN", 0x16),
    Row(b"transceive", b"BNptH", 0x17),
    Row(b"poll_type_f", b"B2", 0x18),
    Row(b"detect_type_a", b"BHs", 0x19),
    Row(b"read_without_encryption", b"HwuH", 0x1A),
    Row(b"write_without_encryption", b"HwuHH", 0x1B),
    Row(b"ok", b"", 0x80),
    Row(b"bad", b"", 0x81),
    Row(b"pkt", b"", 0x82),
    Row(b"pkt", b"H", 0x82),
    Row(b"time", b"", 0x83),
    Row(b"fail", b"", 0x84),
    Row(b"late", b"", 0x85),
    Row(b"slept", b"", 0x86),
];

// The row with a name and a number of words.
pub(crate) fn find<'t>(rows: &'t [Row], name: &[u8], n: usize) -> Option<&'t Row>
    ensures { row_found_in result ≡ row_for (map row_in rows.now) name.now n }
{
    for row in rows {
        if name == row.0 && row.1.len() + 1 == n {
            return Some(row);
        }
    }
    None
}
