ghost use Rattle.vms_stream.specs.Common.{WritesInOrder};
ghost use Rattle.vms_wait_laws.specs.Orders.{PrintsInOrder};

use crate::OrderedTexts;

/// The laws that texts are printed in the order of their lines, whatever waits for the outcome of its phase: what is
/// printed of some lines, and what is written of a whole text.
pub fn texts_print_in_order<T: OrderedTexts>()
    ensures prints { PrintsInOrder T.texts }
    ensures writes { WritesInOrder T.texts }
{}
