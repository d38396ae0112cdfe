//! Upsets of words, and the windows of a block and of a module.
ghost use Rattle.std.specs.Prelude.{IfOk};
ghost use Rattle.ir_parse_top.specs.Text.{IsOfText};

use check_insert::checks;
use hard_ir::{HBlock, HInst, HPhis, HReg, Hardened, When};
use ir_check::accept;
use ir_core::{Inst, Loc, Module, Seq, Side, Ty, Val, Width};
use ir_parse_top::parse_module;
use shadow_flow::shadow;
use std::alloc::Global;
use std::process::Abort;
use upset_model::{Record, Records, WindowTable, edge_checked, in_window, strike};

#[test]
fn an_upset_flips_the_bits_below_the_width(rt: HostRuntime) {
    assert!(rt; strike(5, 64, 1) == Some(4));
    assert!(rt; strike(4, 3, 9) == Some(5));
    assert!(rt; strike(5, 64, 1 << 64).is_none());
    assert!(rt; strike(0, 65, 1 << 64) == Some(1 << 64));
}

#[test]
fn records_are_a_list(rt: HostRuntime) {
    let mut records: Records = Seq::new(rt.alloc());
    assert!(rt; records.push(Record::Missed).is_ok());
    assert!(rt; records.push(Record::Stacked).is_ok());
    assert!(rt; records.items().len() == 2);
    assert!(rt; records.items()[1] == Record::Stacked);
}

const R: Loc = Loc(1);

fn master() -> HReg {
    HReg {
        side: Side::M,
        loc: R,
    }
}

fn other_side() -> HReg {
    HReg {
        side: Side::S,
        loc: R,
    }
}

fn check(when: When) -> HInst {
    HInst::Chk {
        when,
        ty: Ty::Int(Width::W64),
        reg: R,
    }
}

fn add(rt: &impl Abort, block: &mut HBlock, inst: HInst) {
    block.list.push(inst).expect(rt, "no memory for a list");
}

/// Two checks of a register, `end`, and a `ret` of its master; then a copy of it.
fn checked_twice(rt: &impl Abort, alloc: Global) -> HBlock {
    let phis: HPhis = Seq::new(alloc);
    let mut block = HBlock {
        label: Loc(0),
        phis,
        list: Seq::new(alloc),
    };
    add(rt, &mut block, check(When::Plain));
    add(rt, &mut block, check(When::Always));
    add(rt, &mut block, HInst::End);
    add(
        rt,
        &mut block,
        HInst::Do {
            side: Side::M,
            inst: Inst::Ret {
                ty: Ty::Int(Width::W64),
                val: Some(Val::Reg(R)),
            },
            retires: true,
        },
    );
    add(
        rt,
        &mut block,
        HInst::Mov {
            ty: Ty::Int(Width::W64),
            reg: R,
        },
    );
    block
}

/// The index of the next instruction, and whether the master is in a window outside transactions and inside.
const WINDOWS: &[(u32, bool, bool)] = &[
    (0, false, false),
    // The first check is for outside alone. The second closes nothing.
    (1, true, false),
    (2, true, true),
    (3, true, true),
    // The copy.
    (4, true, true),
    (5, false, false),
    (9, false, false),
];

#[test]
fn a_register_is_in_a_window_from_its_check_to_its_use(rt: HostRuntime) {
    let block = checked_twice(&rt, rt.alloc());
    for (q, outside, inside) in WINDOWS {
        assert!(rt;
            in_window(&block, *q, master(), false, false) == *outside,
            "{q}"
        );
        assert!(rt;
            in_window(&block, *q, master(), true, false) == *inside,
            "{q}"
        );
        assert!(rt; !in_window(&block, *q, other_side(), false, false), "{q}");
    }
}

const SUM: &str =
    "declare void @haft_out(i64)\ndefine i32 @main() {\n  %a = add i64 2, 3\n  call void @haft_out(i64 %a)\n  ret i32 0\n}\n";

fn module_of(rt: &impl Abort, alloc: Global, text: &str) -> Module
    ensures { IsOfText result }
{
    let bytes = text.as_bytes();
    assert!(rt; bytes.len() <= 4_194_304);
    match parse_module(alloc, bytes) {
        Ok(m) => m,
        Err(error) => {
            drop(error);
            rt.abort()
        }
    }
}

fn hardened_of(rt: &impl Abort, alloc: Global, text: &str) -> Hardened {
    let accepted = match accept(alloc, module_of(rt, alloc, text)) {
        Ok(accepted) => accepted,
        Err(error) => {
            drop(error);
            rt.abort()
        }
    };
    let flow = shadow(alloc, &accepted).expect(rt, "no memory for shadows");
    checks(alloc, flow).expect(rt, "no memory for checks")
}

#[test]
fn a_table_holds_the_windows_of_a_module(rt: HostRuntime) {
    // Its instructions: both additions, a check, the call, the return.
    let h = hardened_of(&rt, rt.alloc(), SUM);
    let table = WindowTable::new(rt.alloc(), &h).expect(&rt, "no memory for a table");
    let name = HReg {
        side: Side::M,
        loc: Loc(1),
    };
    assert!(rt; !edge_checked(&h, 0, 0));
    assert!(rt; !table.has(0, 0, 2, name, true));
    assert!(rt; table.has(0, 0, 3, name, true));
    assert!(rt; table.has(0, 0, 3, name, false));
    assert!(rt; !table.has(0, 0, 4, name, false));
    assert!(rt; !table.has(0, 1, 3, name, false));
    assert!(rt; !table.has(1, 0, 3, name, false));
    drop(table);
    drop(h);
}
