//! The two devices that the tool sees: where it reads its files from, and where it writes to.
ghost use Rattle.std.specs.Prelude.{◌≡◌, ◌≤◌, ◌<◌, [], Option, List, ℕ, length, take, IfOk, OnErr};
ghost use Rattle.std.specs.Option.{ForSome};
ghost use Rattle.haft_io.specs.Device.{other, Rose, Takes, Puts};

/// One of the two files that the tool reads.
#[derive(Clone, Copy, Debug, PartialEq, Eq)]
pub enum Which {
    /// The first file on the command line.
    First,
    /// The second file on the command line.
    Second,
}

/// A read or a write failed. The device has counted it.
#[derive(Clone, Copy, Debug, PartialEq, Eq)]
pub struct Failed;

/// Two files to read from.
pub trait Inputs {
    ghost use Rattle.haft_io.specs.declared.device.Which.{Which};

    /// The bytes of a file that are left to read, where the implementation tells them.
    ghost left: { Self → Which → Option (List ℕ) };

    /// How many reads of a file have failed. Only a call of `read` changes it.
    ghost faults: { Self → Which → ℕ };

    /// Reads the next bytes of a file into the front of `buf`, and answers how many. No byte is the
    /// end of the file. After `Failed` nothing is known of what is left of that file.
    fn read(&mut self, which: Which, buf: &mut [u8]) -> Result<usize, Failed>
        requires { 0 < length buf.old }
        ensures within { IfOk result (λ n. n ≤ length buf.old) }
        ensures bytes { IfOk result (λ n.
            Takes (left self.old which) (take n buf.new) (left self.new which)) }
        ensures end { IfOk result (λ n. n ≡ 0 → ForSome (left self.old which) (λ rest. rest ≡ [])) }
        ensures failed { OnErr result (Rose (faults self.old which) (faults self.new which)) }
        ensures never_falls { faults self.old which ≤ faults self.new which }
        ensures other_left { left self.new (other which) ≡ left self.old (other which) }
        ensures other_faults { faults self.new (other which) ≡ faults self.old (other which) };
}

/// Where bytes are written to.
pub trait Sink {
    /// The bytes written so far, where the implementation tells them.
    ghost written: { Self → Option (List ℕ) };

    /// How many writes have failed. Only a call of `write` changes it.
    ghost faults: { Self → ℕ };

    /// Writes the front of `bytes`, and answers how many of them: at least one. A sink that takes
    /// none has failed.
    fn write(&mut self, bytes: &[u8]) -> Result<usize, Failed>
        requires { 0 < length bytes.now }
        ensures some { IfOk result (λ n. 1 ≤ n) }
        ensures within { IfOk result (λ n. n ≤ length bytes.now) }
        ensures bytes { IfOk result (λ n.
            Puts (written self.old) (take n bytes.now) (written self.new)) }
        ensures none { OnErr result (written self.new ≡ written self.old) }
        ensures failed { OnErr result (Rose (faults self.old) (faults self.new)) }
        ensures never_falls { faults self.old ≤ faults self.new };
}
