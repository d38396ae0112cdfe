//! Races in one state.
ghost use Rattle.std.specs.Prelude.{◌≡◌};
ghost use Rattle.std.specs.Option.{option_map};
ghost use Rattle.src_meaning.specs.Races.{clash_of, race_of};
ghost use Rattle.race_watch.specs.Pairs.{numbers_of};

use inst_meaning::Access;
use ir_core::Tid;
use src_meaning::Source;

/// Whether two next accesses overlap, at least one writes and not both are atomic.
pub(crate) fn clash(a: Option<Access>, b: Option<Access>) -> bool
    ensures { result ≡ clash_of a b }
{
    match (a, b) {
        (Some(a), Some(b)) => a.clashes(&b),
        _ => false,
    }
}

/// The first pair of threads whose next accesses overlap, where at least one writes and not both are atomic; in order of the first
/// and then of the second. `None` exactly where no two threads race. It takes no memory.
pub fn race(s: &Source<'_>) -> Option<(Tid, Tid)>
    ensures { option_map numbers_of result ≡ race_of s.now.program s.now.state }
{
    let made = s.made() as u32;
    'rows: for t in 0..made {
        let own = s.next_access(Tid(t));
        'row: for u in t + 1..made {
            if clash(own, s.next_access(Tid(u))) {
                return Some((Tid(t), Tid(u)));
            }
        }
    }
    None
}
