//! Register files.
ghost use Rattle.std.specs.Prelude.{◌≡◌, ◌+◌, max, fold, IfOk, OnOk, OnErr, []};
ghost use Rattle.inst_meaning.specs.Registers.{get};
ghost use Rattle.inst_meaning.specs.Phis.{assigned, all_assigned};

use ir_core::Loc;
use std::alloc::{AllocError, Global};
use std::marker::Model;

/// One copy of the registers of a frame: a word for each that is assigned, by number. Contracts see it as a list of optional
/// words; a register past its end has none. A word has at most 128 bits.
#[derive(Drop)]
pub struct Registers {
    words: Vec<Option<u128>>,
}

impl Model for Registers {
    ghost use Rattle.std.specs.Prelude.{List, ℕ, Option};

    ghost Value = { List (Option ℕ) };

    ghost view = { λ r. r.words.items };
}

impl Clone for Registers {
    ghost is_clone = { λ registers copy. copy ≡ registers };

    fn clone(&self) -> Result<Registers, AllocError> {
        let words = self.words.clone()?;
        Ok(Registers { words })
    }
}

// How long a file of this length is once these words went to it.
fn room_for(len: usize, words: &[(Loc, u64)]) -> usize
    ensures { result ≡ fold (λ room word. max room (word.0.0 + 1)) len words.now }
{
    let mut room = len;
    for (at, _) in words {
        room = room.max(at.0 as usize + 1);
    }
    room
}

impl Registers {
    /// No register is assigned, and there is room for so many.
    pub fn with_room(alloc: Global, room: u32) -> Result<Registers, AllocError>
        ensures { IfOk result (λ registers. registers ≡ []) }
    {
        let words = Vec::with_capacity(alloc, room as usize)?;
        Ok(Registers { words })
    }

    /// The word of a register, where it has one.
    pub fn get(&self, at: Loc) -> Option<u128>
        ensures { result ≡ get self.now at.0 }
    {
        match self.words.get(at.0 as usize) {
            Some(word) => *word,
            None => None,
        }
    }

    /// A result goes to its register, where there is one. For want of memory nothing changes.
    pub fn assign(&mut self, dst: Option<Loc>, word: u128) -> Result<(), AllocError>
        ensures ok { OnOk result (self.new ≡ assigned dst word self.old) }
        ensures err { OnErr result (self.new ≡ self.old) }
    {
        let Some(dst) = dst else {
            return Ok(());
        };
        let at = dst.0 as usize;
        if at >= self.words.len() {
            self.words.resize(at + 1, None)?;
        }
        self.words[at] = Some(word);
        Ok(())
    }

    /// Each word goes to its register, one after another. For want of memory nothing changes.
    pub fn assign_all(&mut self, words: &[(Loc, u64)]) -> Result<(), AllocError>
        ensures ok { OnOk result (self.new ≡ all_assigned words.now self.old) }
        ensures err { OnErr result (self.new ≡ self.old) }
    {
        let room = room_for(self.words.len(), words);
        self.words.resize(room, None)?;
        for (at, word) in words {
            self.words[at.0 as usize] = Some(u128::from(*word));
        }
        Ok(())
    }
}
