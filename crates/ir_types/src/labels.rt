//! Whether names that stand where labels do are labels (`specs/Types.antt`).
ghost use Rattle.std.specs.Prelude.{◌≡◌, map};
ghost use Rattle.std.specs.List.{list_all};
ghost use Rattle.ir_types.specs.Types.{labels_in, names_label};

use crate::meaning::Names;
use ir_core::{Inst, Loc, Val};

// Whether a name stands for a label.
fn is_label(names: &Names<'_>, at: Loc) -> bool
    ensures { result ≡ names_label names.now at }
{
    match names.get(at) {
        Some(meaning) => meaning.is_label(),
        None => false,
    }
}

// Whether the cases of a switch lead to labels.
fn cases_fit(names: &Names<'_>, cases: &[(u64, Loc)]) -> bool
    ensures { result ≡ list_all (names_label names.now) (map (λ target. target.1) cases.now) }
{
    for (_, label) in cases {
        if !is_label(names, *label) {
            return false;
        }
    }
    true
}

// Whether the arms of a phi come from labels.
fn arms_fit(names: &Names<'_>, arms: &[(Val, Loc)]) -> bool
    ensures { result ≡ list_all (names_label names.now) (map (λ arm. arm.1) arms.now) }
{
    for (_, label) in arms {
        if !is_label(names, *label) {
            return false;
        }
    }
    true
}

/// Whether the names that stand where labels do are labels.
pub(crate) fn labels_fit(names: &Names<'_>, inst: &Inst) -> bool
    ensures { result ≡ list_all (names_label names.now) (labels_in inst.now) }
{
    match inst {
        Inst::Phi { arms, .. } => arms_fit(names, arms.items()),
        Inst::Br { to } => is_label(names, *to),
        Inst::CondBr { yes, no, .. } => is_label(names, *yes) && is_label(names, *no),
        Inst::Switch { default, cases, .. } => {
            is_label(names, *default) && cases_fit(names, cases.items())
        }
        _ => true,
    }
}
