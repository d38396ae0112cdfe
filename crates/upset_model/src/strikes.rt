//! An upset of a word.
ghost use Rattle.std.specs.Prelude.{◌≡◌, ◌%◌, ◌^◌};
ghost use Rattle.upset_model.specs.Strikes.{strike};

// The bits of a mask below a width.
fn below(mask: u128, width: u32) -> u128
    ensures { result ≡ mask % 2 ^ width }
{
    if width < 128 {
        mask % (1 << width)
    } else {
        mask
    }
}

/// The word of a width with those of the mask's bits flipped that are below the width; `None` exactly where the mask has none there.
pub fn strike(value: u128, width: u32, mask: u128) -> Option<u128>
    ensures { result ≡ strike value width mask }
{
    let bits = below(mask, width);
    if bits == 0 {
        return None;
    }
    Some(value ^ bits)
}
