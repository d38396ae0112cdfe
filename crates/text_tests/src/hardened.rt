//! Hardened modules, line by line: of a `Do` its side, its opcode with its flags, its result and whether it retires; of a check and of
//! a copy its type and its register; of a check of memory its type and both operands; of a tick its number. What is wanted is worked out by
//! hand from the rows of the image table.
use crate::cases::{Asked, compare};
use crate::parsed::module_of;
use check_insert::checks;
use hard_ir::{HBlock, HInst, HVal, Hardened, When};
use inst_meaning::destination;
use ir_check::{Accepted, accept};
use ir_core::{Flags, Func, Inst, Loc, Side, Ty, Val, Width};
use itoa::Buffer;
use relaxed_mem::relax;
use shadow_flow::shadow;
use std::alloc::{AllocError, Global};
use std::process::Abort;
use std::str;
use tx_place::place;
use tx_split::split;

/// The columns of a hardened module.
#[derive(Clone, Copy)]
pub enum Columns {
    /// Masters, shadows and copies.
    Flow,
    /// Those, and checks.
    Checks,
    /// The whole table.
    Whole,
}

fn word(rt: &impl Abort, out: &mut String, word: &str) {
    out.push_str(word).expect(rt, "no memory for a text");
}

fn number(rt: &impl Abort, out: &mut String, n: u64) {
    let mut buffer = Buffer::new();
    word(rt, out, buffer.format(n));
}

fn name(rt: &impl Abort, out: &mut String, f: &Func, at: Loc) {
    assert!(rt; at.0 < f.loc_count());
    word(
        rt,
        out,
        str::from_utf8(f.loc_name(at)).unwrap_or("no UTF-8"),
    );
}

fn width_word(width: Width) -> &'static str {
    match width {
        Width::W1 => "i1",
        Width::W8 => "i8",
        Width::W16 => "i16",
        Width::W32 => "i32",
        Width::W64 => "i64",
    }
}

fn scalar_word(ty: &Ty) -> &'static str {
    match ty {
        Ty::Int(width) => width_word(*width),
        Ty::Ptr => "ptr",
        _ => "..",
    }
}

/// A type of a register.
fn type_text(rt: &impl Abort, out: &mut String, ty: &Ty) {
    let Ty::Struct(parts) = ty else {
        return word(rt, out, scalar_word(ty));
    };
    word(rt, out, "{");
    for part in parts.items() {
        word(rt, out, " ");
        word(rt, out, scalar_word(part));
    }
    word(rt, out, " }");
}

fn opcode(inst: &Inst) -> &'static str {
    match inst {
        Inst::Bin { .. } => " operator",
        Inst::Cmp { .. } => " icmp",
        Inst::Select { .. } => " select",
        Inst::Cast { .. } => " cast",
        Inst::Gep { .. } => " getelementptr",
        Inst::Alloca { .. } => " alloca",
        Inst::Load { .. } => " load",
        Inst::Store { .. } => " store",
        Inst::Rmw { .. } => " atomicrmw",
        Inst::CmpXchg { .. } => " cmpxchg",
        Inst::Fence => " fence",
        Inst::Extract { .. } => " extractvalue",
        Inst::Call { .. } => " call",
        Inst::Phi { .. } => " phi",
        Inst::Br { .. } | Inst::CondBr { .. } => " br",
        Inst::Switch { .. } => " switch",
        Inst::Ret { .. } => " ret",
        Inst::Unreachable => " unreachable",
    }
}

fn flag_words(rt: &impl Abort, out: &mut String, flags: Flags) {
    word(rt, out, if flags.nuw { " nuw" } else { "" });
    word(rt, out, if flags.nsw { " nsw" } else { "" });
    word(rt, out, if flags.exact { " exact" } else { "" });
}

/// An instruction of one side.
fn side_text(rt: &impl Abort, out: &mut String, f: &Func, side: Side, inst: &Inst) {
    word(rt, out, if matches!(side, Side::M) { "m" } else { "s" });
    word(rt, out, opcode(inst));
    if let Inst::Bin { flags, .. } = inst {
        flag_words(rt, out, *flags);
    }
    let result = match inst {
        Inst::Phi { dst, .. } => Some(*dst),
        inst => destination(inst),
    };
    if let Some(at) = result {
        word(rt, out, " ");
        name(rt, out, f, at);
    }
}

/// A word, a type and a register.
fn register_text(rt: &impl Abort, out: &mut String, f: &Func, before: &str, ty: &Ty, at: Loc) {
    word(rt, out, before);
    type_text(rt, out, ty);
    word(rt, out, " ");
    name(rt, out, f, at);
}

fn when_word(when: When) -> &'static str {
    match when {
        When::Always => "chk ",
        When::Plain => "chk.plain ",
        When::Tx => "chk.tx ",
    }
}

/// An operand of a check of memory.
fn operand_text(rt: &impl Abort, out: &mut String, f: &Func, operand: &HVal) {
    match operand {
        HVal::Reg(reg) => {
            word(
                rt,
                out,
                if matches!(reg.side, Side::M) {
                    " m."
                } else {
                    " s."
                },
            );
            name(rt, out, f, reg.loc);
        }
        HVal::Const(Val::Int(n)) => {
            word(rt, out, " ");
            number(rt, out, *n);
        }
        HVal::Const(Val::Null) => word(rt, out, " null"),
        HVal::Const(Val::Global(_)) => word(rt, out, " @"),
        HVal::Const(_) => word(rt, out, " .."),
    }
}

fn line_text(rt: &impl Abort, out: &mut String, f: &Func, inst: &HInst) {
    match inst {
        HInst::Cut => word(rt, out, "cut"),
        HInst::Begin => word(rt, out, "begin"),
        HInst::End => word(rt, out, "end"),
        HInst::Tick(work) => {
            word(rt, out, "tick ");
            number(rt, out, u64::from(*work));
        }
        HInst::Do {
            side,
            inst,
            retires,
        } => {
            side_text(rt, out, f, *side, inst);
            word(rt, out, if *retires { " *" } else { "" });
        }
        HInst::Chk { when, ty, reg } => register_text(rt, out, f, when_word(*when), ty, *reg),
        HInst::Mov { ty, reg } => register_text(rt, out, f, "mov ", ty, *reg),
        HInst::ChkMem { ty, ptr, val } => {
            word(rt, out, "chkmem.tx ");
            type_text(rt, out, ty);
            operand_text(rt, out, f, ptr);
            operand_text(rt, out, f, val);
        }
    }
}

fn block_text(rt: &impl Abort, out: &mut String, f: &Func, block: &HBlock) {
    name(rt, out, f, block.label);
    word(rt, out, ":\n");
    for (side, phi) in block.phis.items() {
        side_text(rt, out, f, *side, phi);
        word(rt, out, "\n");
    }
    for inst in block.list.items() {
        line_text(rt, out, f, inst);
        word(rt, out, "\n");
    }
}

/// The hardened module of the whole table.
fn whole(alloc: Global, accepted: &Accepted) -> Result<Hardened, AllocError> {
    let flow = shadow(alloc, accepted)?;
    let checked = checks(alloc, flow)?;
    let relaxed = relax(alloc, checked)?;
    let placed = place(alloc, relaxed)?;
    split(alloc, placed)
}

/// The hardened module with checks.
fn checked(alloc: Global, accepted: &Accepted) -> Result<Hardened, AllocError> {
    let flow = shadow(alloc, accepted)?;
    checks(alloc, flow)
}

/// The hardened module of a text.
fn hardened(rt: &impl Abort, alloc: Global, text: &str, columns: Columns) -> Hardened {
    let accepted = match accept(alloc, module_of(rt, alloc, text)) {
        Ok(accepted) => accepted,
        Err(error) => {
            drop(error);
            rt.abort()
        }
    };
    let made = match columns {
        Columns::Flow => shadow(alloc, &accepted),
        Columns::Checks => checked(alloc, &accepted),
        Columns::Whole => whole(alloc, &accepted),
    };
    drop(accepted);
    made.expect(rt, "no memory for a module")
}

/// The lines of the hardened module of a text.
pub fn hardened_lines(rt: &impl Abort, alloc: Global, text: &str, columns: Columns) -> String {
    let h = hardened(rt, alloc, text, columns);
    let mut out = String::new(alloc);
    let mut n: u32 = 0;
    for f in h.module().funcs() {
        assert!(rt; (n as usize) < h.module().funcs().len());
        for block in h.blocks(n) {
            block_text(rt, &mut out, f, block);
        }
        n = n.wrapping_add(1);
    }
    drop(h);
    out
}

/// Masters, shadows, copies and retire marks.
const FLOWS: &str = "
== what only computes is done on each side without flags, and its shadow retires
@g = global i64 5
define i32 @main() {
  %a = add nuw nsw i32 1, 2
  %d = udiv exact i32 4, 2
  %c = icmp ult i32 %a, 3
  %s = select i1 %c, i32 %a, i32 4
  %z = zext i32 %s to i64
  %p = getelementptr i8, ptr @g, i64 %z
  %x = cmpxchg ptr @g, i64 1, i64 2 seq_cst seq_cst
  %o = extractvalue { i64, i1 } %x, 0
  ret i32 0
}
-- 0:
m operator a
s operator a *
m operator d
s operator d *
m icmp c
s icmp c *
m select s
s select s *
m cast z
s cast z *
m getelementptr p
s getelementptr p *
m cmpxchg x *
mov { i64 i1 } x
m extractvalue o
s extractvalue o *
m ret *
== what has an effect is done once, by the master, and a result is copied
@g = global i64 5
declare void @haft_out(i64)
declare i64 @haft_arg(i64)
define i16 @f(i16 %v) {
  ret i16 %v
}
define void @nothing() {
  ret void
}
define i32 @main() {
  %q = alloca i16
  %l = load i16, ptr %q
  store i16 %l, ptr %q
  %t = load atomic i64, ptr @g seq_cst
  store atomic i64 %t, ptr @g seq_cst
  %u = atomicrmw add ptr @g, i64 3 seq_cst
  %y = cmpxchg ptr @g, ptr null, ptr null seq_cst seq_cst
  fence seq_cst
  %r = call i16 @f(i16 %l)
  %s = call i64 @haft_arg(i64 0)
  call void @haft_out(i64 %s)
  call void @nothing()
  %e = call i16 @f(i16 1)
  ret i32 0
}
-- 0:
mov i16 v
m ret *
0:
m ret *
0:
m alloca q *
mov ptr q
m load l *
mov i16 l
m store *
m load t *
mov i64 t
m store *
m atomicrmw u *
mov i64 u
m cmpxchg y *
mov { ptr i1 } y
m fence *
m call r *
mov i16 r
m call s *
mov i64 s
m call *
m call *
m call e *
mov i16 e
m ret *
== parameters are copied at the entry, phis stand on both sides at the head, branches are done once
define i64 @f(i64 %a, ptr %b) {
e:
  br label %l
l:
  %i = phi i64 [ 0, %e ], [ %j, %l ]
  %k = phi i64 [ %a, %e ], [ 7, %l ]
  %j = add i64 %i, 1
  %c = icmp ult i64 %j, 10
  br i1 %c, label %l, label %d
d:
  switch i64 %k, label %x [ i64 1, label %y ]
x:
  ret i64 %j
y:
  unreachable
}
define i32 @main() {
  ret i32 0
}
-- e:
mov i64 a
mov ptr b
m br *
l:
m phi i
s phi i
m phi k
s phi k
m operator j
s operator j *
m icmp c
s icmp c *
m br *
d:
m switch *
x:
m ret *
y:
m unreachable *
0:
m ret *
";

/// The same with checks.
const CHECKS: &str = "
== each register that a call takes is checked in order, also one that is written twice, and no constant
@g = global i64 5
declare void @haft_out(i64)
define i64 @f(i64 %a, i32 %b, ptr %c, i64 %d, i1 %e) {
  ret i64 %d
}
define i32 @main() {
  %x = add i64 1, 2
  %y = icmp eq i64 %x, 3
  %r = call i64 @f(i64 %x, i32 7, ptr @g, i64 %x, i1 %y)
  %s = call i64 @f(i64 1, i32 7, ptr null, i64 2, i1 true)
  call void @haft_out(i64 %r)
  call void @haft_out(i64 9)
  ret i32 0
}
-- 0:
mov i64 a
mov i32 b
mov ptr c
mov i64 d
mov i1 e
chk i64 d
m ret *
0:
m operator x
s operator x *
m icmp y
s icmp y *
chk i64 x
chk i64 x
chk i1 y
m call r *
mov i64 r
m call s *
mov i64 s
chk i64 r
m call *
m call *
m ret *
== of a store the pointer is checked first, of an update its operands as they are written
@g = global i64 5
define i32 @main() {
  %p = getelementptr i64, ptr @g, i64 0
  %v = load i64, ptr %p
  %w = load i64, ptr @g
  store i64 %v, ptr %p
  store i64 %v, ptr @g
  store i64 1, ptr %p
  store ptr %p, ptr %p
  %t = load atomic i64, ptr %p seq_cst
  store atomic i64 %t, ptr %p seq_cst
  %u = atomicrmw xchg ptr %p, i64 %t seq_cst
  %x = cmpxchg ptr %p, i64 %t, i64 %u seq_cst seq_cst
  %y = cmpxchg ptr @g, i64 1, i64 %u seq_cst seq_cst
  fence seq_cst
  ret i32 0
}
-- 0:
m getelementptr p
s getelementptr p *
chk ptr p
m load v *
mov i64 v
m load w *
mov i64 w
chk ptr p
chk i64 v
m store *
chk i64 v
m store *
chk ptr p
m store *
chk ptr p
chk ptr p
m store *
chk ptr p
m load t *
mov i64 t
chk ptr p
chk i64 t
m store *
chk ptr p
chk i64 t
m atomicrmw u *
mov i64 u
chk ptr p
chk i64 t
chk i64 u
m cmpxchg x *
mov { i64 i1 } x
chk i64 u
m cmpxchg y *
mov { i64 i1 } y
m fence *
m ret *
== a condition and what is switched on are checked, and neither a jump, a label nor a phi's value
define void @v(i1 %c) {
  br i1 %c, label %a, label %b
a:
  br i1 true, label %b, label %d
b:
  %k = phi i32 [ 5, %0 ], [ 6, %a ]
  switch i32 %k, label %d [ i32 1, label %d ]
d:
  ret void
}
define i32 @main() {
  switch i32 3, label %u [ ]
u:
  %r = add i32 1, 1
  ret i32 %r
}
-- 0:
mov i1 c
chk i1 c
m br *
a:
m br *
b:
m phi k
s phi k
chk i32 k
m switch *
d:
m ret *
0:
m switch *
u:
m operator r
s operator r *
chk i32 r
m ret *
";

/// The whole table: with double loads, late checks, transactions and ticks.
const WHOLE: &str = "
== a sum is done on each side and its print is an external call, outside transactions
declare void @haft_out(i64)
define i32 @main() {
  %a = add i64 2, 3
  call void @haft_out(i64 %a)
  ret i32 0
}
-- 0:
cut
begin
m operator a
s operator a *
tick 8
chk i64 a
end
m call *
begin
tick 3
m ret *
== a plain load is done twice, a plain store is checked before it outside transactions and after it inside, an atomic one before it
@g = global i64 5
define i32 @main() {
  %p = getelementptr i64, ptr @g, i64 0
  %v = load i64, ptr %p
  store i64 %v, ptr %p
  store i64 1, ptr %p
  store ptr null, ptr @g
  %t = load atomic i64, ptr %p seq_cst
  store atomic i64 %t, ptr @g seq_cst
  ret i32 0
}
-- 0:
cut
begin
m getelementptr p
s getelementptr p *
m load v
s load v *
chk.plain ptr p
chk.plain i64 v
m store *
chk.tx ptr p
chkmem.tx i64 s.p s.v
chk.plain ptr p
m store *
chk.tx ptr p
chkmem.tx i64 s.p 1
m store *
chkmem.tx ptr @ null
chk ptr p
m load t *
mov i64 t
chk i64 t
m store *
tick 24
m ret *
== lock and unlock calls are done inside, a call of the module may be cut after it, a loop head before its first instruction
@lock = global i64 0
declare i32 @pthread_mutex_lock(ptr)
declare i32 @pthread_mutex_unlock(ptr)
define void @f(i64 %x) {
  br label %l
l:
  %i = phi i64 [ 0, %0 ], [ %j, %l ]
  %j = add i64 %i, %x
  %c = icmp ult i64 %j, 9
  br i1 %c, label %l, label %d
d:
  ret void
}
define i32 @main() {
  %a = call i32 @pthread_mutex_lock(ptr @lock)
  call void @f(i64 3)
  %b = call i32 @pthread_mutex_unlock(ptr @lock)
  ret i32 %b
}
-- 0:
mov i64 x
cut
begin
tick 5
m br *
l:
m phi i
s phi i
cut
begin
m operator j
s operator j *
m icmp c
s icmp c *
tick 9
chk i1 c
m br *
d:
tick 2
m ret *
0:
cut
begin
tick 4
m call a *
mov i32 a
begin
tick 4
m call *
cut
begin
tick 4
m call b *
mov i32 b
begin
tick 5
chk i32 b
m ret *
";

#[test]
fn masters_shadows_and_copies_stand_as_the_table_says(rt: HostRuntime) {
    compare(&rt, rt.alloc(), FLOWS, Asked::Hardened(Columns::Flow));
}

#[test]
fn checks_stand_before_effects(rt: HostRuntime) {
    compare(&rt, rt.alloc(), CHECKS, Asked::Hardened(Columns::Checks));
}

#[test]
fn the_whole_table_stands_as_its_rows_say(rt: HostRuntime) {
    compare(&rt, rt.alloc(), WHOLE, Asked::Hardened(Columns::Whole));
}
