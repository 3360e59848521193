// The words of a line, separated by exactly one space: `a  b` has three, and the empty line has one.

ghost use Rattle.std.specs.Prelude.{◌≡◌, [], length, get_or};
ghost use Rattle.bench.specs.Words.{words_of_lem};

// How many words the line has.
pub fn count(line: &[u8]) -> usize
    ensures { result ≡ length (words_of_lem line.now) }
{
    let mut n = 1;
    for byte in line {
        if *byte == b' ' {
            n += 1;
        }
    }
    n
}

// The part of the line that the k-th word occupies, counted from 0; the empty part where the line has fewer words.
pub fn word(line: &[u8], k: usize) -> &[u8]
    ensures { result.now ≡ get_or (words_of_lem line.now) k [] }
{
    line.split(|byte| *byte == b' ').nth(k).unwrap_or(&[])
}
