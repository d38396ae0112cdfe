//! A schedule with one of its upsets alone.
ghost use Rattle.std.specs.Prelude.{◌≡◌, IfOk};
ghost use Rattle.sched_file.specs.Only.{is_upset, stays, only};

use crate::{Line, UpsetSpec};
use ir_core::{Copied, Seq};
use std::alloc::{AllocError, Global};

impl Copied for UpsetSpec {
    fn copy(&self, alloc: Global) -> Result<UpsetSpec, AllocError> {
        let name = self.name.copy(alloc)?;
        Ok(UpsetSpec {
            tid: self.tid,
            depth: self.depth,
            side: self.side,
            name,
            mask: self.mask,
        })
    }
}

impl Copied for Line {
    fn copy(&self, alloc: Global) -> Result<Line, AllocError> {
        match self {
            Line::Turn(thread, turns) => Ok(Line::Turn(*thread, *turns)),
            Line::Round(threads, rounds) => Ok(Line::Round(*threads, *rounds)),
            Line::Mix(threads, seed, turns) => Ok(Line::Mix(*threads, *seed, *turns)),
            Line::Abort(thread) => Ok(Line::Abort(*thread)),
            Line::Upset(upset) => Ok(Line::Upset(upset.copy(alloc)?)),
        }
    }
}

impl Line {
    /// Whether the entry is an upset.
    fn is_upset(&self) -> bool
        ensures { result ≡ is_upset self.now }
    {
        match self {
            Line::Turn(..) | Line::Round(..) | Line::Mix(..) | Line::Abort(..) => false,
            Line::Upset(..) => true,
        }
    }
}

// Whether an entry stays where the k-th upset from here on is wanted.
fn stays(line: &Line, k: u32) -> bool
    ensures { result ≡ stays k line.now }
{
    let upset = line.is_upset();
    !upset || k == 1
}

/// The entries without the upsets other than the k-th, counted from 1.
pub(crate) fn lines_with_upset(
    alloc: Global,
    lines: &[Line],
    k: u32,
) -> Result<Seq<Line>, AllocError>
    ensures { IfOk result (λ kept. kept ≡ only k lines.now) }
{
    let mut kept = Seq::new(alloc);
    let mut left = k;
    'lines: for line in lines {
        if stays(line, left) {
            kept.push(line.copy(alloc)?)?;
        }
        if line.is_upset() {
            left = left.saturating_sub(1);
        }
    }
    Ok(kept)
}
