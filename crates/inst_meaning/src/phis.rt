//! What phis take (LLVM Language Reference, 'phi Instruction').
ghost use Rattle.std.specs.Prelude.{◌≡◌, ◌≤◌, length, Some, true, IfOk};
ghost use Rattle.std.specs.Option.{is_some, option_copied};
ghost use Rattle.inst_meaning.specs.Phis.{phi_count, arm_from, phi_word, phi_words};

use crate::Operands;
use ir_core::{Inst, Loc, Val};
use std::alloc::AllocError;

/// How many phis stand at the head of a block.
pub fn phi_count(body: &[Inst]) -> usize
    ensures count { result ≡ phi_count body.now }
    ensures within { result ≤ length body.now }
{
    let mut count = 0;
    for inst in body {
        match inst {
            Inst::Phi { .. } => count += 1,
            _ => break,
        }
    }
    count
}

// The value that comes from a label.
fn arm_from(label: Loc, arms: &[(Val, Loc)]) -> Option<&Val>
    ensures { option_copied result ≡ arm_from label arms.now }
{
    for (value, from) in arms {
        if *from == label {
            return Some(value);
        }
    }
    None
}

impl Operands<'_> {
    // The register that a phi assigns, and the word that it takes from a label.
    fn phi_word(&self, label: Loc, phi: &Inst) -> Option<(Loc, u64)>
        ensures { result ≡ phi_word self.now.layout.now self.now.registers.now label phi.now }
    {
        let Inst::Phi { dst, ty, arms } = phi else {
            return None;
        };
        let value = arm_from(label, arms.items())?;
        let word = self.typed_word(ty, value)?;
        Some((*dst, word))
    }

    /// Makes `words` the registers that phis assign, in order, with the words that they take from a label. The answer is `false`
    /// exactly where one takes none.
    pub fn phi_words(
        &self,
        label: Loc,
        phis: &[Inst],
        words: &mut Vec<(Loc, u64)>,
    ) -> Result<bool, AllocError>
        ensures all { IfOk result (λ all. all ≡ is_some (phi_words self.now.layout.now self.now.registers.now label phis.now)) }
        ensures words { IfOk result (λ all. all ≡ true → Some words.new.items ≡ phi_words self.now.layout.now self.now.registers.now label phis.now) }
    {
        words.clear();
        for phi in phis {
            let Some(word) = self.phi_word(label, phi) else {
                return Ok(false);
            };
            words.push(word)?;
        }
        Ok(true)
    }
}
