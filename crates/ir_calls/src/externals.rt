//! The functions outside a module that it may call (`specs/Externals.antt`).
ghost use Rattle.std.specs.Prelude.{◌≡◌};
ghost use Rattle.ir_calls.specs.Externals.{external_of, signature_of, has_signature};

use crate::scalars::{Scalar, are};
use ir_core::Ty;

/// A function of the C library or of the tool that a module may declare and call.
#[derive(Clone, Copy)]
pub enum External {
    /// `pthread_create`: starts a thread.
    PthreadCreate,
    /// `pthread_join`: waits for a thread's end.
    PthreadJoin,
    /// `pthread_mutex_lock`
    MutexLock,
    /// `pthread_mutex_unlock`
    MutexUnlock,
    /// `putchar`: writes a byte.
    Putchar,
    /// `exit`: ends the program.
    Exit,
    /// `malloc`: takes memory.
    Malloc,
    /// `free`: gives it back.
    Free,
    /// `haft_out`: writes a number.
    HaftOut,
    /// `haft_arg`: reads an argument of the run.
    HaftArg,
}

impl External {
    /// The external with this name, or `None` exactly where it is no external's.
    pub fn named(name: &[u8]) -> Option<External>
        ensures { result ≡ external_of name.now }
    {
        if name == b"pthread_create".as_slice() {
            Some(External::PthreadCreate)
        } else if name == b"pthread_join".as_slice() {
            Some(External::PthreadJoin)
        } else if name == b"pthread_mutex_lock".as_slice() {
            Some(External::MutexLock)
        } else if name == b"pthread_mutex_unlock".as_slice() {
            Some(External::MutexUnlock)
        } else if name == b"putchar".as_slice() {
            Some(External::Putchar)
        } else if name == b"exit".as_slice() {
            Some(External::Exit)
        } else if name == b"malloc".as_slice() {
            Some(External::Malloc)
        } else if name == b"free".as_slice() {
            Some(External::Free)
        } else if name == b"haft_out".as_slice() {
            Some(External::HaftOut)
        } else if name == b"haft_arg".as_slice() {
            Some(External::HaftArg)
        } else {
            None
        }
    }

    /// Whether a function with this result and these parameters has the external's signature.
    pub fn has_signature(self, ret: &Ty, params: &[Ty]) -> bool
        ensures { result ≡ has_signature ret.now params.now (signature_of self) }
    {
        match self {
            External::PthreadCreate => {
                Scalar::I32.is(ret)
                    && are(
                        params,
                        &[Scalar::Ptr, Scalar::Ptr, Scalar::Ptr, Scalar::Ptr],
                    )
            }
            External::PthreadJoin => {
                Scalar::I32.is(ret) && are(params, &[Scalar::I64, Scalar::Ptr])
            }
            External::MutexLock | External::MutexUnlock => {
                Scalar::I32.is(ret) && are(params, &[Scalar::Ptr])
            }
            External::Putchar => Scalar::I32.is(ret) && are(params, &[Scalar::I32]),
            External::Exit => Scalar::Void.is(ret) && are(params, &[Scalar::I32]),
            External::Malloc => Scalar::Ptr.is(ret) && are(params, &[Scalar::I64]),
            External::Free => Scalar::Void.is(ret) && are(params, &[Scalar::Ptr]),
            External::HaftOut => Scalar::Void.is(ret) && are(params, &[Scalar::I64]),
            External::HaftArg => Scalar::I64.is(ret) && are(params, &[Scalar::I64]),
        }
    }
}
