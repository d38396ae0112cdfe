//! Memory as a thread sees it.
ghost use Rattle.std.specs.Prelude.{ℕ, ◌≡◌, ◌<◌, ◌^◌, ◌*◌, IfSome, refl, if◌then◌else◌};
ghost use Rattle.ir_layout.specs.Memory.{is_valid};
ghost use Rattle.mem_image.specs.Accesses.{bytes};
ghost use Rattle.mem_image.specs.Bytes.{Memory, poke, read_of};

use mem_image::{Image, Size};

/// Memory as a thread sees it: what it reads there, and where its words go.
pub trait View {
    /// The memory.
    ghost memory: { Self → Memory };

    /// What sees it, once a word stands in so many bytes from an address on.
    ghost stored: { Self → ℕ → ℕ → ℕ → Self };

    /// The word of an access; `None` exactly where the access isn't valid.
    fn read(&self, address: u64, size: Size) -> Option<u64>
        ensures word { result ≡ read_of (memory self.now) address (bytes size) }
        ensures below { IfSome result (λ word. word < 2 ^ (8 * bytes size)) };

    /// Puts a word where an access goes. The answer is `false` exactly where the access isn't valid, and then nothing changes.
    fn write(&mut self, address: u64, size: Size, word: u64) -> bool
        requires { word < 2 ^ (8 * bytes size) }
        ensures valid { result ≡ is_valid (memory self.old).places address (bytes size) }
        ensures view { self.new ≡ (if result then stored self.old address (bytes size) word else self.old) };

    /// A word that is stored stands in the memory that is seen.
    ghost pokes: { (v : Self) (address size word : ℕ) → memory (stored v address size word) ≡ poke (memory v) address size word };
}

impl View for Image {
    ghost memory = { λ image. image };

    ghost stored = { poke };

    ghost pokes = { λ image address size word. refl };

    fn read(&self, address: u64, size: Size) -> Option<u64> {
        Image::read(self, address, size)
    }

    fn write(&mut self, address: u64, size: Size, word: u64) -> bool {
        Image::write(self, address, size, word)
    }
}
