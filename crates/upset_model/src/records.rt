//! Records of upsets.
use ir_core::Seq;

/// What has become of an upset.
#[derive(Clone, Copy, PartialEq, Eq)]
pub enum Record {
    /// It struck nothing.
    Missed,
    /// It struck in a window.
    Window,
    /// It struck, and no abort has undone it.
    Hit,
    /// It struck a thread inside a transaction, which was then aborted.
    Undone,
    /// It struck while an earlier one stood.
    Stacked,
}

/// Records in order.
pub type Records = Seq<Record>;
