//! What a layout knows of a type, in numbers of 64 bits.
ghost use Rattle.std.specs.Prelude.{◌≡◌, ◌+◌, ◌≤◌, ◌<◌, IsTrue};
ghost use Rattle.ir_layout.specs.Shapes.{bytes, greater, round_up, align_of, scalar, nothing, with_field, struct_of, array_of};
ghost use Rattle.ir_layout.specs.KeptShapes.{word, kept, kept_array, kept_with_field, kept_struct};

use ir_core::Width;

/// The alignments of types, in bytes (LLVM Language Reference, 'Data Layout').
#[derive(Clone, Copy)]
pub(crate) enum Align {
    One,
    Two,
    Four,
    Eight,
}

/// How many bytes a type takes, its alignment, and how deep it nests. Sizes may be past 64 bits, so that the size is
/// kept modulo 2^64, and beside it whether it is past the limit of sizes.
#[derive(Clone, Copy)]
pub(crate) struct KeptShape {
    pub size: u64,
    pub large: bool,
    pub align: Align,
    pub depth: u32,
}

/// How many bytes a type may take.
pub(crate) const SIZE_LIMIT: u64 = 1_048_576;

impl Align {
    /// The alignment of an integer of this width.
    pub(crate) fn of(width: Width) -> Align
        ensures { result ≡ align_of width }
    {
        match width {
            Width::W1 | Width::W8 => Align::One,
            Width::W16 => Align::Two,
            Width::W32 => Align::Four,
            Width::W64 => Align::Eight,
        }
    }

    fn bytes(self) -> u64
        ensures { result ≡ bytes self }
    {
        match self {
            Align::One => 1,
            Align::Two => 2,
            Align::Four => 4,
            Align::Eight => 8,
        }
    }

    fn greater(self, other: Align) -> Align
        ensures { result ≡ greater self other }
    {
        if self.bytes() <= other.bytes() {
            other
        } else {
            self
        }
    }

    /// The next multiple of the alignment, modulo 2^64.
    pub(crate) fn round_up(self, n: u64) -> u64
        ensures { result ≡ word (round_up (bytes self) n) }
    {
        match self {
            Align::One => n,
            Align::Two => n.wrapping_add(1) / 2 * 2,
            Align::Four => n.wrapping_add(3) / 4 * 4,
            Align::Eight => n.wrapping_add(7) / 8 * 8,
        }
    }
}

impl KeptShape {
    /// `void`, and a struct before its first field.
    pub(crate) fn nothing() -> KeptShape
        ensures { result ≡ kept nothing }
    {
        KeptShape {
            size: 0,
            large: false,
            align: Align::One,
            depth: 0,
        }
    }

    /// An integer or a pointer.
    pub(crate) fn scalar(align: Align) -> KeptShape
        ensures { result ≡ kept (scalar align) }
    {
        KeptShape {
            size: align.bytes(),
            large: false,
            align,
            depth: 0,
        }
    }

    /// An array of so many elements of this shape (LLVM Language Reference, 'Array Type').
    pub(crate) fn array(self, count: u64) -> KeptShape
        requires { self.depth < 16 }
        ensures { result ≡ kept_array count self }
    {
        let too_long = count.saturating_mul(self.size) > SIZE_LIMIT;
        KeptShape {
            size: count.wrapping_mul(self.size),
            large: count > 0 && (self.large || too_long),
            align: self.align,
            depth: self.depth + 1,
        }
    }

    /// The fields so far and one more (LLVM Language Reference, 'Structure Type').
    pub(crate) fn with_field(self, field: KeptShape) -> KeptShape
        ensures { result ≡ kept_with_field self field }
    {
        let size = field.align.round_up(self.size).wrapping_add(field.size);
        KeptShape {
            size,
            large: self.large || field.large || size > SIZE_LIMIT,
            align: self.align.greater(field.align),
            depth: self.depth.max(field.depth),
        }
    }

    /// Where a field of this shape stands behind others, modulo 2^64.
    pub(crate) fn start_behind(self, fields: KeptShape) -> u64
        ensures { result ≡ word (round_up (bytes self.align) fields.size) }
    {
        self.align.round_up(fields.size)
    }

    /// The struct of its fields.
    pub(crate) fn into_struct(self) -> KeptShape
        requires { self.depth < 16 }
        ensures { result ≡ kept_struct self }
    {
        let size = self.align.round_up(self.size);
        KeptShape {
            size,
            large: self.large || size > SIZE_LIMIT,
            align: self.align,
            depth: self.depth + 1,
        }
    }
}
