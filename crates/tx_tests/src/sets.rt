//! Sets of lines.
use line_sets::LineSet;

#[test]
fn a_set_is_full_of_as_many_lines_as_it_takes(rt: HostRuntime) {
    let mut set: LineSet<2> = LineSet::new(rt.alloc()).expect(&rt, "no memory for a set");
    assert!(rt; set.add(5).is_ok());
    assert!(rt; set.add(5).is_ok());
    assert!(rt; set.add(6).is_ok());
    assert!(rt; set.add(7).is_err());
    assert!(rt; set.has(6) && !set.has(7));
    set.clear();
    assert!(rt; set.add(7).is_ok());
    assert!(rt; set.has(7) && !set.has(5));
}
