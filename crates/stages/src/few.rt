// A few bytes of the engine's own, or in another order than they came.
ghost use Rattle.std.specs.Prelude.{◌≡◌, ◌≤◌, length, take};

// At most `N` bytes. Those behind `len` are free: nothing reads them.
// Kept: the bytes are made by the engine and outlive the call that lays them, so a slice has nothing to point into.
#[derive(Clone, Copy, Debug, PartialEq, Eq)]
pub struct Few<const N: usize> {
    pub bytes: [u8; N],
    pub len: usize,
    ghost fits: { len ≤ N },
}

impl<const N: usize> Few<N> {
    // The first `N` of some bytes.
    pub fn new(bytes: &[u8]) -> Few<N>
        ensures { length bytes.now ≤ N → take result.len result.bytes ≡ bytes.now }
    {
        let mut all = [0; N];
        let len = bytes.len().min(N);
        all[..len].copy_from_slice(&bytes[..len]);
        Few { bytes: all, len }
    }

    pub fn as_slice(&self) -> &[u8]
        ensures { result.now ≡ take self.now.len self.now.bytes }
    {
        &self.bytes[..self.len]
    }
}
