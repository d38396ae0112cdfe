//! Words of so many bits. Operators on them are in `tests/operators.py`.
use op_table::Word;

#[test]
fn a_word_holds_what_is_below_its_power_of_two(rt: HostRuntime) {
    assert!(rt; Word::<1>::new(2).is_none());
    assert!(rt; Word::<8>::new(256).is_none());
    assert!(rt; Word::<32>::new(4_294_967_296).is_none());
    for n in [0, 1, 255] {
        let word = Word::<8>::new(n).expect(&rt, "a word was refused");
        assert!(rt; word.get() == n);
    }
    let word = Word::<64>::new(u64::MAX).expect(&rt, "a word was refused");
    assert!(rt; word.get() == u64::MAX);
}
