// Texts put into a buffer from a place on; each function gives the place behind its text. A text that has no room is not put.
ghost use Rattle.std.specs.Prelude.{◌≡◌};
ghost use Rattle.bench.specs.Texts.{placed, put_at, decimal_of};

// Kept: a struct that held the buffer with its place would have every function that puts a text promise that it holds the same one still.
pub fn put(text: &[u8], out: &mut [u8], at: usize) -> usize
    ensures { placed result out.new ≡ put_at at text.now out.old }
{
    if out.len() < at {
        return at;
    }
    if out.len() - at < text.len() {
        return at;
    }
    octets::copy(text, &mut out[at..]);
    at + text.len()
}

// A number in decimal digits.
// Kept: as `put`.
pub fn put_decimal(number: u64, out: &mut [u8], at: usize) -> usize
    ensures { placed result out.new ≡ put_at at (decimal_of number) out.old }
{
    let mut digits = [0u8; 20];
    let n = io::decimal(number, &mut digits);
    put(&digits[..n], out, at)
}
