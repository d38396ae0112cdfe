//! The modules of texts.
ghost use Rattle.std.specs.Prelude.{IfOk};
ghost use Rattle.ir_parse_top.specs.Text.{IsOfText};

use ir_core::Module;
use ir_parse_top::{ParseError, parse_module};
use std::alloc::Global;
use std::process::Abort;

/// The answer for a text.
pub fn parsed(rt: &impl Abort, alloc: Global, text: &str) -> Result<Module, ParseError>
    ensures { IfOk result (λ m. IsOfText m) }
{
    let bytes = text.as_bytes();
    assert!(rt; bytes.len() <= 4_194_304);
    parse_module(alloc, bytes)
}

/// The module of a text that has one.
pub fn module_of(rt: &impl Abort, alloc: Global, text: &str) -> Module
    ensures { IsOfText result }
{
    match parsed(rt, alloc, text) {
        Ok(m) => m,
        Err(error) => {
            drop(error);
            rt.abort()
        }
    }
}
