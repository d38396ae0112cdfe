//! Windows, plainly.
ghost use Rattle.std.specs.Prelude.{◌≡◌, ◌≤◌, min, length, reverse, take, drop};
ghost use Rattle.upset_model.specs.Windows.{checked_before, used_next, copied_next, in_window};

use crate::instructions::{checks, copies, is_between, is_copy, uses};
use hard_ir::{HBlock, HInst, HReg};

// Whether instructions have a check of a register, active inside a transaction or outside, with only checks and `end` after it.
fn is_checked_before(passed: &[HInst], r: HReg, inside: bool) -> bool
    ensures { result ≡ checked_before inside r (reverse passed.now) }
{
    let mut checked = false;
    for inst in passed {
        checked = checks(inst, r, inside) || (is_between(inst) && checked);
    }
    checked
}

// Whether instructions have an effect that uses a register, with only checks and `end` before it.
fn is_used_next(code: &[HInst], r: HReg, inside: bool, checked: bool) -> bool
    ensures { result ≡ used_next inside checked r code.now }
{
    for inst in code {
        if uses(inst, r, inside, checked) {
            return true;
        }
        if !is_between(inst) {
            return false;
        }
    }
    false
}

// Whether instructions have a copy of a register, with only copies before it.
fn is_copied_next(code: &[HInst], r: HReg) -> bool
    ensures { result ≡ copied_next r code.now }
{
    for inst in code {
        if copies(inst, r) {
            return true;
        }
        if !is_copy(inst) {
            return false;
        }
    }
    false
}

/// Whether an upset of a register can't be found where `q` is the index of the next instruction of a block: inside a transaction or
/// outside, and with the block's branch checked by its targets or not. It takes no memory.
pub fn in_window(b: &HBlock, q: u32, r: HReg, inside: bool, checked: bool) -> bool
    ensures { result ≡ in_window inside checked r b.now.list q }
{
    let list = b.list.items();
    let (passed, code) = list.split_at((q as usize).min(list.len()));
    (is_checked_before(passed, r, inside) && is_used_next(code, r, inside, checked))
        || is_copied_next(code, r)
}
