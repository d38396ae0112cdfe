//! Whole files: reading one to its end, and writing all of a text.
ghost use Rattle.std.specs.Prelude.{◌≡◌, ◌≤◌, ◌<◌, [], length, IfOk, OnOk, OnErr, IsErrOf};
ghost use Rattle.std.specs.Option.{ForSome};
ghost use Rattle.haft_io.specs.Device.{other, Rose, Takes, Puts, PutsPart, emptied};
ghost use Rattle.haft_io.specs.declared.whole.ReadFail.TheVariants as read_fail;

use crate::{Failed, Inputs, Sink, Which};
use std::alloc::{AllocError, Global};

/// How many bytes `read_whole` asks for at a time.
const PIECE: usize = 4096;

/// Why a file wasn't read.
#[derive(Clone, Copy, Debug, PartialEq, Eq)]
pub enum ReadFail {
    /// A read failed.
    Failed,
    /// The file has more bytes than the limit.
    TooLong,
    /// Memory for the bytes was refused.
    NoMemory,
}

impl From<Failed> for ReadFail {
    ghost from_gives = { λ _ e. e ≡ read_fail.Failed };

    fn from(_: Failed) -> ReadFail {
        ReadFail::Failed
    }
}

impl From<AllocError> for ReadFail {
    ghost from_gives = { λ _ e. e ≡ read_fail.NoMemory };

    fn from(_: AllocError) -> ReadFail {
        ReadFail::NoMemory
    }
}

/// Reads a file to its end, 4,096 bytes at a time, and answers all its bytes. A file of more than
/// `limit` bytes is `TooLong`.
pub fn read_whole<I: Inputs>(
    alloc: Global,
    inputs: &mut I,
    which: Which,
    limit: usize,
) -> Result<Vec<u8>, ReadFail>
    ensures bytes { IfOk result (λ bytes.
        ForSome (I.left inputs.old which) (λ rest. bytes.items ≡ rest)) }
    ensures end { OnOk result (I.left inputs.new which ≡ emptied (I.left inputs.old which)) }
    ensures within { IfOk result (λ bytes. length bytes.items ≤ limit) }
    ensures too_long { IsErrOf result ReadFail.TooLong →
        ForSome (I.left inputs.old which) (λ rest. limit < length rest) }
    ensures failed { IsErrOf result ReadFail.Failed →
        Rose (I.faults inputs.old which) (I.faults inputs.new which) }
    ensures never_falls { I.faults inputs.old which ≤ I.faults inputs.new which }
    ensures other_left { I.left inputs.new (other which) ≡ I.left inputs.old (other which) }
    ensures other_faults { I.faults inputs.new (other which) ≡ I.faults inputs.old (other which) }
{
    let mut bytes = Vec::new(alloc);
    let mut piece = [0; PIECE];
    'reads: loop {
        let taken = inputs.read(which, &mut piece)?;
        if taken == 0 {
            return Ok(bytes);
        }
        if taken > limit - bytes.len() {
            return Err(ReadFail::TooLong);
        }
        bytes.extend_from_slice(&piece[..taken])?;
    }
}

/// Writes all of the bytes, and takes no memory. Of no bytes it makes no write.
pub fn write_whole<O: Sink>(out: &mut O, bytes: &[u8]) -> Result<(), Failed>
    ensures whole { OnOk result (Puts (O.written out.old) bytes.now (O.written out.new)) }
    ensures part { OnErr result (PutsPart (O.written out.old) bytes.now (O.written out.new)) }
    ensures none { bytes.now ≡ [] → out.new ≡ out.old }
    ensures failed { OnErr result (Rose (O.faults out.old) (O.faults out.new)) }
    ensures never_falls { O.faults out.old ≤ O.faults out.new }
{
    let mut done = 0;
    'writes: while done < bytes.len() {
        done += out.write(&bytes[done..])?;
    }
    Ok(())
}
