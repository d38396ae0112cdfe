//! Instructions as text, with numbers in place of names.
use ir_core::{
    BinOp, CastOp, ConstGep, Flags, Inst, Loc, Pred, RmwOp, Sym, Ty, TypeId, Val, Width,
};
use std::alloc::Global;
use std::process::Abort;

pub fn word(rt: &impl Abort, out: &mut String, word: &str) {
    out.push_str(word).expect(rt, "no memory for a text");
}

pub fn number(rt: &impl Abort, out: &mut String, sign: &str, number: u64) {
    write!(out, "{sign}{number}").expect(rt, "no memory for a text");
}

fn local(rt: &impl Abort, out: &mut String, before: &str, at: Loc) {
    word(rt, out, before);
    number(rt, out, "%", u64::from(at.0));
}

pub fn symbol(rt: &impl Abort, out: &mut String, sym: Sym) {
    number(rt, out, "@", u64::from(sym.0));
}

fn width(rt: &impl Abort, out: &mut String, width: Width) {
    let bits = match width {
        Width::W1 => 1,
        Width::W8 => 8,
        Width::W16 => 16,
        Width::W32 => 32,
        Width::W64 => 64,
    };
    number(rt, out, "i", bits);
}

/// A type without brackets; another one is `..`.
fn flat_type(rt: &impl Abort, out: &mut String, ty: &Ty) {
    match ty {
        Ty::Void => word(rt, out, "void"),
        Ty::Int(bits) => width(rt, out, *bits),
        Ty::Ptr => word(rt, out, "ptr"),
        Ty::Named(TypeId(id)) => number(rt, out, "%", u64::from(*id)),
        Ty::Array(..) | Ty::Struct(_) => word(rt, out, ".."),
    }
}

/// A type, as far as two brackets in one another.
pub fn inner_type(rt: &impl Abort, out: &mut String, ty: &Ty) {
    match ty {
        Ty::Array(count, part) => {
            number(rt, out, "[", *count);
            word(rt, out, " x ");
            flat_type(rt, out, part.get());
            word(rt, out, "]");
        }
        Ty::Struct(parts) => {
            let mut before = "{ ";
            for part in parts.items() {
                word(rt, out, before);
                flat_type(rt, out, part);
                before = ", ";
            }
            word(
                rt,
                out,
                if parts.items().is_empty() {
                    "{ }"
                } else {
                    " }"
                },
            );
        }
        _ => flat_type(rt, out, ty),
    }
}

pub fn address(rt: &impl Abort, out: &mut String, gep: &ConstGep) {
    word(rt, out, "getelementptr (");
    inner_type(rt, out, &gep.base);
    word(rt, out, ", ptr ");
    symbol(rt, out, gep.sym);
    for (bits, index) in gep.index.items() {
        word(rt, out, ", ");
        width(rt, out, *bits);
        number(rt, out, " ", *index);
    }
    word(rt, out, ")");
}

fn value(rt: &impl Abort, out: &mut String, before: &str, value: &Val) {
    word(rt, out, before);
    match value {
        Val::Reg(at) => local(rt, out, "", *at),
        Val::Int(number_of) => number(rt, out, "", *number_of),
        Val::Null => word(rt, out, "null"),
        Val::Global(sym) => symbol(rt, out, *sym),
        Val::Gep(gep) => address(rt, out, gep),
    }
}

/// A value behind its type.
fn typed(rt: &impl Abort, out: &mut String, before: &str, ty: &Ty, operand: &Val) {
    word(rt, out, before);
    inner_type(rt, out, ty);
    value(rt, out, " ", operand);
}

fn pointer(rt: &impl Abort, out: &mut String, before: &str, ptr: &Val) {
    word(rt, out, before);
    value(rt, out, "ptr ", ptr);
}

fn flags(rt: &impl Abort, out: &mut String, flags: Flags) {
    word(rt, out, if flags.nuw { " nuw" } else { "" });
    word(rt, out, if flags.nsw { " nsw" } else { "" });
    word(rt, out, if flags.exact { " exact" } else { "" });
}

fn operator(op: BinOp) -> &'static str {
    match op {
        BinOp::Add => "add",
        BinOp::Sub => "sub",
        BinOp::Mul => "mul",
        BinOp::Udiv => "udiv",
        BinOp::Sdiv => "sdiv",
        BinOp::Urem => "urem",
        BinOp::Srem => "srem",
        BinOp::Shl => "shl",
        BinOp::Lshr => "lshr",
        BinOp::Ashr => "ashr",
        BinOp::And => "and",
        BinOp::Or => "or",
        BinOp::Xor => "xor",
    }
}

fn predicate(pred: Pred) -> &'static str {
    match pred {
        Pred::Eq => "eq ",
        Pred::Ne => "ne ",
        Pred::Ugt => "ugt ",
        Pred::Uge => "uge ",
        Pred::Ult => "ult ",
        Pred::Ule => "ule ",
        Pred::Sgt => "sgt ",
        Pred::Sge => "sge ",
        Pred::Slt => "slt ",
        Pred::Sle => "sle ",
    }
}

fn conversion(op: CastOp) -> &'static str {
    match op {
        CastOp::Zext => "zext ",
        CastOp::Sext => "sext ",
        CastOp::Trunc => "trunc ",
        CastOp::Ptrtoint => "ptrtoint ",
        CastOp::Inttoptr => "inttoptr ",
    }
}

fn update(op: RmwOp) -> &'static str {
    match op {
        RmwOp::Xchg => "xchg ",
        RmwOp::Add => "add ",
        RmwOp::Sub => "sub ",
        RmwOp::And => "and ",
        RmwOp::Or => "or ",
        RmwOp::Xor => "xor ",
        RmwOp::Nand => "nand ",
        RmwOp::Max => "max ",
        RmwOp::Min => "min ",
        RmwOp::Umax => "umax ",
        RmwOp::Umin => "umin ",
    }
}

/// The register that takes the result, and the opcode.
fn result(rt: &impl Abort, out: &mut String, dst: Loc, opcode: &str) {
    local(rt, out, "", dst);
    word(rt, out, " = ");
    word(rt, out, opcode);
}

fn atomic_word(atomic: bool) -> &'static str {
    if atomic { "atomic " } else { "" }
}

fn calculation(rt: &impl Abort, out: &mut String, inst: &Inst) {
    match inst {
        Inst::Bin {
            dst,
            op,
            flags: kept,
            w,
            a,
            b,
        } => {
            result(rt, out, *dst, operator(*op));
            flags(rt, out, *kept);
            word(rt, out, " ");
            width(rt, out, *w);
            value(rt, out, " ", a);
            value(rt, out, ", ", b);
        }
        Inst::Cmp {
            dst,
            pred,
            ty,
            a,
            b,
        } => {
            result(rt, out, *dst, "icmp ");
            typed(rt, out, predicate(*pred), ty, a);
            value(rt, out, ", ", b);
        }
        Inst::Select {
            dst,
            cond,
            ty,
            a,
            b,
        } => {
            result(rt, out, *dst, "select ");
            value(rt, out, "i1 ", cond);
            typed(rt, out, ", ", ty, a);
            typed(rt, out, ", ", ty, b);
        }
        Inst::Cast {
            dst,
            op,
            from,
            a,
            to,
        } => {
            result(rt, out, *dst, conversion(*op));
            typed(rt, out, "", from, a);
            word(rt, out, " to ");
            inner_type(rt, out, to);
        }
        _ => access(rt, out, inst),
    }
}

fn access(rt: &impl Abort, out: &mut String, inst: &Inst) {
    match inst {
        Inst::Alloca { dst, ty } => {
            result(rt, out, *dst, "alloca ");
            inner_type(rt, out, ty);
        }
        Inst::Load {
            dst,
            ty,
            ptr,
            atomic,
        } => {
            result(rt, out, *dst, "load ");
            word(rt, out, atomic_word(*atomic));
            inner_type(rt, out, ty);
            pointer(rt, out, ", ", ptr);
        }
        Inst::Store {
            ty,
            val,
            ptr,
            atomic,
        } => {
            word(rt, out, "store ");
            typed(rt, out, atomic_word(*atomic), ty, val);
            pointer(rt, out, ", ", ptr);
        }
        Inst::Rmw {
            dst,
            op,
            ptr,
            ty,
            val,
        } => {
            result(rt, out, *dst, "atomicrmw ");
            pointer(rt, out, update(*op), ptr);
            typed(rt, out, ", ", ty, val);
        }
        Inst::CmpXchg {
            dst,
            ptr,
            ty,
            old,
            new,
        } => {
            result(rt, out, *dst, "cmpxchg ");
            pointer(rt, out, "", ptr);
            typed(rt, out, ", ", ty, old);
            typed(rt, out, ", ", ty, new);
        }
        _ => listed(rt, out, inst),
    }
}

fn listed(rt: &impl Abort, out: &mut String, inst: &Inst) {
    match inst {
        Inst::Gep {
            dst,
            base,
            ptr,
            index,
        } => {
            result(rt, out, *dst, "getelementptr ");
            inner_type(rt, out, base);
            pointer(rt, out, ", ", ptr);
            for (bits, at) in index.items() {
                word(rt, out, ", ");
                width(rt, out, *bits);
                value(rt, out, " ", at);
            }
        }
        Inst::Call {
            dst,
            ret,
            callee,
            args,
        } => {
            if let Some(dst) = dst {
                result(rt, out, *dst, "");
            }
            word(rt, out, "call ");
            inner_type(rt, out, ret);
            word(rt, out, " ");
            symbol(rt, out, *callee);
            arguments(rt, out, args.items());
        }
        Inst::Phi { dst, ty, arms } => {
            result(rt, out, *dst, "phi ");
            inner_type(rt, out, ty);
            let mut before = " [ ";
            for (val, from) in arms.items() {
                value(rt, out, before, val);
                local(rt, out, ", ", *from);
                word(rt, out, " ]");
                before = ", [ ";
            }
        }
        _ => transfer(rt, out, inst),
    }
}

fn arguments(rt: &impl Abort, out: &mut String, args: &[(Ty, Val)]) {
    word(rt, out, "(");
    let mut before = "";
    for (ty, val) in args {
        typed(rt, out, before, ty, val);
        before = ", ";
    }
    word(rt, out, ")");
}

fn transfer(rt: &impl Abort, out: &mut String, inst: &Inst) {
    match inst {
        Inst::Extract {
            dst,
            elem,
            pair,
            index,
        } => {
            result(rt, out, *dst, "extractvalue { ");
            inner_type(rt, out, elem);
            local(rt, out, ", i1 } ", *pair);
            number(rt, out, ", ", u64::from(*index));
        }
        Inst::Br { to } => local(rt, out, "br label ", *to),
        Inst::CondBr { cond, yes, no } => {
            value(rt, out, "br i1 ", cond);
            local(rt, out, ", label ", *yes);
            local(rt, out, ", label ", *no);
        }
        Inst::Switch {
            ty,
            on,
            default,
            cases,
        } => {
            typed(rt, out, "switch ", ty, on);
            local(rt, out, ", label ", *default);
            word(rt, out, " [ ");
            for (number_of, to) in cases.items() {
                inner_type(rt, out, ty);
                number(rt, out, " ", *number_of);
                local(rt, out, ", label ", *to);
                word(rt, out, " ");
            }
            word(rt, out, "]");
        }
        Inst::Ret { ty, val } => {
            word(rt, out, "ret ");
            match val {
                Some(val) => typed(rt, out, "", ty, val),
                None => inner_type(rt, out, ty),
            }
        }
        Inst::Fence => word(rt, out, "fence"),
        _ => word(rt, out, "unreachable"),
    }
}

/// The instruction as text, with the numbers of its names in place of them.
pub fn shown(rt: &impl Abort, alloc: Global, inst: &Inst) -> String {
    let mut out = String::new(alloc);
    calculation(rt, &mut out, inst);
    out
}
