//! Name tables, byte strings and lists.
use ir_core::{Copied, Func, Module, Name, Out, Outs, Seq, Sym, Tid, Turns, Ty};
use std::process::Abort;

/// Names in the order in which they are given, each with its number and how many there are then.
const NAMES: [(&[u8], u32, u32); 5] = [
    (b"x", 0, 1),
    (b"y", 1, 2),
    (b"x", 0, 2),
    (b"", 2, 3),
    (b"y", 1, 3),
];

/// Gives the module an `@` name and a name of a type, which both take this number.
fn name_both(rt: &impl Abort, m: &mut Module, name: &[u8], number: u32) {
    assert!(rt; m.sym_count() < 9);
    assert!(rt; m.type_count() < 9);
    assert!(rt; m.find_sym(name).is_some() == (number < m.sym_count()));
    let sym = m.sym(name).expect(rt, "no memory for a name");
    let id = m.type_id(name).expect(rt, "no memory for a name");
    assert!(rt; sym.0 == number);
    assert!(rt; id.0 == number);
    assert!(rt; m.sym_name(sym) == name);
    assert!(rt; m.type_name(id) == name);
    assert!(rt; m.find_sym(name) == Some(sym));
}

/// Gives the function a `%` name, which takes this number.
fn name_local(rt: &impl Abort, func: &mut Func, name: &[u8], number: u32) {
    assert!(rt; func.loc_count() < 9);
    assert!(rt; func.find_loc(name).is_some() == (number < func.loc_count()));
    let at = func.loc(name).expect(rt, "no memory for a name");
    assert!(rt; at.0 == number);
    assert!(rt; func.loc_name(at) == name);
    assert!(rt; func.find_loc(name) == Some(at));
}

#[test]
fn names_take_numbers_from_the_first_call_that_gives_them(rt: HostRuntime) {
    let mut m = Module::new(rt.alloc());
    let mut func = Func::new(rt.alloc(), Sym(0), Ty::Void);
    for (name, number, count) in NAMES {
        name_both(&rt, &mut m, name, number);
        name_local(&rt, &mut func, name, number);
        assert!(rt; m.sym_count() == count, "for the name {number}");
        assert!(rt; m.type_count() == count, "for the name {number}");
        assert!(rt; func.loc_count() == count, "for the name {number}");
    }
    assert!(rt; m.find_sym(b"xy").is_none());
    assert!(rt; func.find_loc(b"xy").is_none());
}

#[test]
fn sixty_thousand_names_are_numbered_and_found_at_once(rt: HostRuntime) {
    let mut func = Func::new(rt.alloc(), Sym(0), Ty::Void);
    for number in 0..60_000u32 {
        assert!(rt; func.loc_count() == number);
        let at = func
            .loc(&number.to_le_bytes())
            .expect(&rt, "no memory for a name");
        assert!(rt; at.0 == number);
    }
    assert!(rt; func.loc_count() == 60_000);
    for number in 0..60_000u32 {
        let at = func
            .find_loc(&number.to_le_bytes())
            .expect(&rt, "a name was lost");
        assert!(rt; at.0 == number);
    }
}

#[test]
fn lists_keep_their_items_in_order(rt: HostRuntime) {
    let mut outs: Outs = Seq::new(rt.alloc());
    assert!(rt; outs.items().is_empty());
    outs.push(Out::Num(7))
        .expect(&rt, "no memory for an output");
    outs.push(Out::Put(8))
        .expect(&rt, "no memory for an output");
    assert!(rt; outs.items() == [Out::Num(7), Out::Put(8)].as_slice());
    let turns = vec![in rt.alloc(); (Tid(0), 4), (Tid(1), 2)].expect(&rt, "no memory for turns");
    let turns: Turns = Seq::from_vec(turns);
    assert!(rt; turns.items() == [(Tid(0), 4), (Tid(1), 2)].as_slice());
}

#[test]
fn copies_have_the_items_and_the_bytes_of_their_sources(rt: HostRuntime) {
    let turns = vec![in rt.alloc(); (Tid(0), 4), (Tid(1), 2)].expect(&rt, "no memory for turns");
    let turns: Turns = Seq::from_vec(turns);
    let copy = turns.copy(rt.alloc()).expect(&rt, "no memory for a copy");
    assert!(rt; copy.items() == turns.items());
    let name = Name::new(rt.alloc(), b"a\0b").expect(&rt, "no memory for a name");
    let copy = name.copy(rt.alloc()).expect(&rt, "no memory for a copy");
    assert!(rt; copy.bytes() == b"a\0b".as_slice());
    let copy = Some(Tid(3))
        .copy(rt.alloc())
        .expect(&rt, "no memory for a copy");
    assert!(rt; copy == Some(Tid(3)));
}
