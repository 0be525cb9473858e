//! Which nodes are measured anew.
ghost use Rattle.std.specs.Prelude.{◌≡◌, length};
ghost use Rattle.fx_layout_sweeps.specs.Nodes.{IsTree, parents};
ghost use Rattle.fx_pulse_kept.specs.Measuring.{AreMeasuredAnew};

use fx_kinds::BoxFacts;
use fx_pulse_touched::{mark_again, marked_above};

/// Marks of the nodes that are measured anew: those that are touched, those that were styled anew of which the look may
/// have changed, and all that are above them.
pub(crate) fn measured_marks(
    boxes: &[BoxFacts],
    touched: Vec<bool>,
    restyled: &[bool],
    changed: &[usize],
) -> Vec<bool>
    requires tree { IsTree (parents boxes.now) }
    requires each { length touched.items ≡ length boxes.now }
    ensures { AreMeasuredAnew boxes.now touched.items restyled.now changed.now result.items }
{
    let mut marks = touched;
    mark_again(&mut marks, restyled, changed);
    marked_above(boxes, marks)
}
