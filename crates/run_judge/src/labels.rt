//! Labels that are the same.

ghost use Rattle.std.specs.Prelude.{◌≡◌, ◌↔◌, IsTrue};

use run_trace::Label;

/// Whether these labels are the same, in the same order.
pub(crate) fn same_labels(a: &[Label], b: &[Label]) -> bool
    ensures { IsTrue result ↔ (a.now ≡ b.now) }
{
    a == b
}
