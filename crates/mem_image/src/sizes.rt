//! How many bytes an access has.
ghost use Rattle.std.specs.Prelude.{◌≡◌};
ghost use Rattle.mem_image.specs.Accesses.{bytes, overlap};

/// The sizes of accesses, in bytes.
#[derive(Clone, Copy, PartialEq, Eq)]
pub enum Size {
    S1,
    S2,
    S4,
    S8,
}

impl Size {
    /// How many bytes these are.
    pub fn bytes(self) -> u64
        ensures { result ≡ bytes self }
    {
        match self {
            Size::S1 => 1,
            Size::S2 => 2,
            Size::S4 => 4,
            Size::S8 => 8,
        }
    }
}

/// Whether two accesses share a byte. Their ranges are ranges of whole numbers, and none goes round past the last address.
pub fn overlap(a: u64, an: Size, b: u64, bn: Size) -> bool
    ensures { result ≡ overlap a (bytes an) b (bytes bn) }
{
    if a <= b {
        b - a < an.bytes()
    } else {
        a - b < bn.bytes()
    }
}
