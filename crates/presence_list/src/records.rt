// Records in memory: 20 bytes each, kind, identifier (16 bytes), the identifier's length, bitrate, and whether the card was missed in the
// last round.
ghost use Rattle.std.specs.Prelude.{◌≡◌, ◌++◌, ◌+◌, ◌*◌, ◌/◌, ◌≤◌, length, take, drop};
ghost use Rattle.presence_list.specs.Names.{record_size};
ghost use Rattle.presence_list.specs.Memory.{pieces, card_in, kept_record};

pub const RECORD_SIZE: usize = 20;

pub const LENGTH_OFFSET: usize = 17;

pub const BITRATE_OFFSET: usize = 18;

pub const MISSED_OFFSET: usize = 19;

// A record as it lies in memory.
pub type Record = [u8; RECORD_SIZE];

// The records of a memory, one behind the other.
pub(crate) fn records_in(memory: &[u8]) -> &[Record]
    ensures { result.now ≡ pieces (length memory.now / record_size) memory.now }
{
    let (records, _) = memory.as_chunks::<RECORD_SIZE>();
    records
}

// The first `count` of them.
pub fn first_records(memory: &[u8], count: usize) -> &[Record]
    requires { record_size * count ≤ length memory.now }
    ensures { result.now ≡ pieces count memory.now }
{
    &records_in(memory)[..count]
}

// Kind and identifier of a record.
pub(crate) fn card_of(record: &Record) -> &[u8]
    ensures { result.now ≡ card_in record.now }
{
    let end = usize::from(record[LENGTH_OFFSET]) + 1;
    &record[..end.min(RECORD_SIZE)]
}

// Puts a record into a memory as the one at a place.
pub(crate) fn put_at(record: &Record, memory: &mut [u8], place: usize)
    requires { record_size * place + record_size ≤ length memory.old }
    ensures { memory.new ≡ take (record_size * place) memory.old ++ (record.now ++ drop (record_size * place + record_size) memory.old) }
{
    let at = RECORD_SIZE * place;
    memory[at..at + RECORD_SIZE].copy_from_slice(record);
}

// A lent record as the list keeps it: zeros behind its identifier, and not missed.
pub(crate) fn entry_of(found: &Record) -> Record
    ensures { result ≡ kept_record found.now }
{
    let card = card_of(found);
    let mut entry = [0u8; RECORD_SIZE];
    octets::copy(card, &mut entry);
    entry[LENGTH_OFFSET] = found[LENGTH_OFFSET];
    entry[BITRATE_OFFSET] = found[BITRATE_OFFSET];
    entry
}
