//! What a machine's program does with its frames.
ghost use Rattle.std.specs.Prelude.{◌≡◌, IfOk, IfSome, OnOk, OnErr, OnSome, unwrap_or, Option};
ghost use Rattle.std.specs.Option.{is_some};
ghost use Rattle.inst_meaning.specs.World.{asked_of};
ghost use Rattle.process.specs.Frames.{Frames};
ghost use Rattle.process.specs.State.{stack_start};
ghost use Rattle.process.specs.code.Moves.{answered};

use inst_meaning::{Reply, Request, World};
use ir_core::{Loc, Tid};
use ir_layout::{STACK_SIZE, STACKS_START};
use std::alloc::{AllocError, Global};

/// Where a thread's stack region begins.
pub fn stack_start(t: u32) -> u64
    ensures { result ≡ stack_start t }
{
    STACKS_START + u64::from(t) * STACK_SIZE
}

/// A program, as its frames see it. After want of memory a frame is as it was.
pub trait Code {
    /// A function at work.
    type Frame: Drop;

    /// Where a result goes.
    type Target: Copy;

    /// What an instruction asks for.
    type Order: Drop;

    /// Room in which branches are worked out.
    type Room: Drop;

    /// What frames can do in this program.
    ghost frames: { Self → Frames Self.Frame Self.Target };

    /// A frame's place has another after it.
    ghost can_pass: { Self.Frame → Type 0 };

    /// What the instruction at a frame's place asks for, where there is one.
    ghost order: { Self → Self.Frame → Option Self.Order };

    /// An order can be carried out.
    ghost fits: { Self.Order → Type 0 };

    /// What the instruction at a frame's place asks for; `None` exactly where there is none.
    fn decode(
        &self,
        alloc: Global,
        frame: &mut Self::Frame,
    ) -> Result<Option<Self::Order>, AllocError>
        ensures order { IfOk result (λ found. found ≡ order self.now frame.old) }
        ensures within { IfOk result (λ found. OnSome found (can_pass frame.old)) }
        ensures fits { IfOk result (λ found. IfSome found fits) }
        ensures same { frame.new ≡ frame.old };

    /// A function is entered with these words.
    fn enter(
        &self,
        alloc: Global,
        function: usize,
        words: &[u64],
        mark: u64,
    ) -> Result<Self::Frame, AllocError>
        ensures { IfOk result (λ frame. frame ≡ (frames self.now).enter function words.now mark) };

    /// The frame's instruction is done, with a result.
    fn finish(
        &self,
        frame: &mut Self::Frame,
        target: Self::Target,
        word: u128,
    ) -> Result<(), AllocError>
        requires { can_pass frame.old }
        ensures ok { OnOk result (frame.new ≡ (frames self.now).result target word frame.old) }
        ensures err { OnErr result (frame.new ≡ frame.old) };

    /// The frame's instruction is done, without a result.
    fn advance(&self, frame: &mut Self::Frame)
        requires { can_pass frame.old }
        ensures { frame.new ≡ (frames self.now).advance frame.old };

    /// The frame goes along the edge to a label; `false` exactly where it can't, and then it is as it was.
    fn jump(
        &self,
        frame: &mut Self::Frame,
        label: Loc,
        room: &mut Self::Room,
    ) -> Result<bool, AllocError>
        ensures can { IfOk result (λ can. can ≡ is_some ((frames self.now).jump label frame.old)) }
        ensures frame { OnOk result (frame.new ≡ unwrap_or ((frames self.now).jump label frame.old) frame.old) }
        ensures err { OnErr result (frame.new ≡ frame.old) };

    /// The frame waits for the function that it called.
    fn suspend(&self, frame: &mut Self::Frame, target: Self::Target)
        requires { can_pass frame.old }
        ensures { frame.new ≡ (frames self.now).suspend target frame.old };

    /// The word has come for which the frame waited.
    fn resume(&self, frame: &mut Self::Frame, word: u64) -> Result<(), AllocError>
        ensures ok { OnOk result (frame.new ≡ (frames self.now).resume word frame.old) }
        ensures err { OnErr result (frame.new ≡ frame.old) };

    /// Asks the environment for something in the name of thread `t`. Where it answers, the frame's instruction is done.
    fn ask(
        &self,
        frame: &mut Self::Frame,
        world: &mut World,
        request: Request,
        t: Tid,
        target: Self::Target,
    ) -> Result<Reply, AllocError>
        requires { can_pass frame.old }
        ensures reply { IfOk result (λ reply. reply ≡ (asked_of request t.0 world.old).1) }
        ensures world { OnOk result (world.new ≡ (asked_of request t.0 world.old).0) }
        ensures frame { IfOk result (λ reply. frame.new ≡ answered (frames self.now) target reply frame.old) }
        ensures err { OnErr result ((world.new ≡ world.old) × (frame.new ≡ frame.old)) };

    /// How far the stack region was taken when the frame was entered.
    fn mark(&self, frame: &Self::Frame) -> u64
        ensures { result ≡ (frames self.now).mark frame.now };
}
