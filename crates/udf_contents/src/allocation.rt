// The rule on allocation.
ghost use Rattle.std.specs.Prelude.{◌≡◌};
ghost use Rattle.udf_file_model.specs.Entry.{Entry};
ghost use Rattle.udf_file_model.specs.Listing.{Volume};
ghost use Rattle.udf_tree_model.specs.Claimed as claimed;
ghost use Rattle.udf_tree_model.specs.Frame.{Frame, setting_of, tree_of};
ghost use Rattle.udf_held.specs.Held.{IsHeld};
ghost use Rattle.udf_found.specs.Shape.{IsShape};

use udf_found::Shape;
use udf_held::Held;

/// Whether the rule on allocation holds of the held entry of a shape: nothing of its list fails, it wins all of it, and the list
/// has the bytes of the information length.
pub(crate) fn allocation_holds(held: &Held, shape: &Shape) -> bool
    ensures { (f : Frame) (v : Volume) (e : Entry) → IsHeld (setting_of f v) (tree_of f v) held.now → IsShape v held.now.at e shape.now
        → result ≡ claimed.allocation_holds f v held.now.at e }
{
    shape.good && held.whole && shape.information <= shape.bytes
}
