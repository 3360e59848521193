// Lists of bytes that are put together at the start of an array.
ghost use Rattle.std.specs.Prelude.{◌≡◌, ◌-◌, ◌^◌, min, length};
ghost use Rattle.stages.specs.Put.{AppendsPart, Joins, joined};

// The most bytes of a command's data.
pub const DATA_LIMIT: usize = 512;

// Puts a part behind the first `len` bytes, where it fits, and answers how many there are then.
pub fn append(part: &[u8], target: &mut [u8], len: usize) -> usize
    ensures { AppendsPart part.now target.old target.new len result }
{
    if target.len() < len || target.len() - len < part.len() {
        return len;
    }
    octets::copy(part, &mut target[len..]);
    len + part.len()
}

// The length of the lists together, where that is a number of the machine's.
fn joined_length(lists: &[&[u8]]) -> usize
    ensures { result ≡ min (length (joined lists.now)) (2 ^ 64 - 1) }
{
    lists
        .iter()
        .fold(0, |len: usize, list| len.saturating_add(list.len()))
}

// Puts lists at the start, one behind the other, and answers their length; over the limit, where they are left alone.
pub fn put_all(lists: &[&[u8]], command: &mut [u8; DATA_LIMIT]) -> usize
    ensures { Joins result command.old command.new (joined lists.now) }
{
    let len = joined_length(lists);
    if DATA_LIMIT < len {
        return len;
    }
    let mut n = 0;
    for list in lists {
        n = append(list, command, n);
    }
    n
}
