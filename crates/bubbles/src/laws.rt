//! What the calls keep.

ghost use Rattle.std.specs.Prelude.{◌≡◌, ℕ, Option, None, List};
ghost use Rattle.slot_space.specs.declared.names.Tid.{Tid};
ghost use Rattle.levels.specs.Trees.{Tree};
ghost use Rattle.bubbles.specs.Rows.{thread_of};
ghost use Rattle.bubbles.specs.Forests.{ForestView, empty_forest, with_bubble, wakes, inserts, enters, goes_on, leaves, gathers};
ghost use Rattle.bubbles.specs.Standing.{IsForest, IsAway, IsLoose};
ghost use Rattle.bubbles.specs.Picking.{step};
ghost use Rattle.bubbles.specs.declared.bubble.BubbleRow.{BubbleRow};
ghost use Rattle.bubbles.specs.Nesting.{AreNested, IsInside};

/// Lists with nothing on them are a forest, and each call makes a forest of a forest: a new thread, which isn't known yet, and one that goes on, must be
/// nowhere else, and one that leaves is in no Held or Queued bubble.
pub fn calls_keep_forests()
    ensures empty { (tree : Tree) → IsForest (empty_forest tree) }
    ensures new_bubble { (priority depth : ℕ) (w : ForestView) → IsForest w → IsForest (with_bubble priority depth w) }
    ensures wake { (b : ℕ) (w : ForestView) → IsForest w → IsForest (wakes b w).after }
    ensures insert { (b c : ℕ) (w : ForestView) → IsForest w → IsForest (inserts b c w).after }
    ensures add_thread { (t : Tid) (priority : ℕ) (bubble : Option ℕ) (w : ForestView) → IsForest w → IsAway t w → thread_of t w.threads ≡ None → IsForest (enters t priority bubble w) }
    ensures again { (t : Tid) (w : ForestView) → IsForest w → IsAway t w → IsForest (goes_on t w) }
    ensures leave { (t : Tid) (w : ForestView) → IsForest w → IsLoose t w → IsForest (leaves t w) }
    ensures gather { (b : ℕ) (w : ForestView) → IsForest w → IsForest (gathers b w).after }
{}

/// No bubble is inside itself, however deep, in lists with nothing on them, nor after any call or choice: each is a member of one other at most, and
/// one that takes members is a member of none.
pub fn no_bubble_is_inside_itself()
    ensures none { (bubbles : List BubbleRow) (b : ℕ) (path : List ℕ) → AreNested bubbles → IsInside b path b bubbles → ⊥ }
    ensures empty { (tree : Tree) → AreNested (empty_forest tree).bubbles }
    ensures new_bubble { (priority depth : ℕ) (w : ForestView) → AreNested w.bubbles → AreNested (with_bubble priority depth w).bubbles }
    ensures wake { (b : ℕ) (w : ForestView) → AreNested w.bubbles → AreNested (wakes b w).after.bubbles }
    ensures insert { (b c : ℕ) (w : ForestView) → AreNested w.bubbles → AreNested (inserts b c w).after.bubbles }
    ensures add_thread { (t : Tid) (priority : ℕ) (bubble : Option ℕ) (w : ForestView) → AreNested w.bubbles → AreNested (enters t priority bubble w).bubbles }
    ensures again { (t : Tid) (w : ForestView) → AreNested w.bubbles → AreNested (goes_on t w).bubbles }
    ensures leave { (t : Tid) (w : ForestView) → AreNested w.bubbles → AreNested (leaves t w).bubbles }
    ensures gather { (b : ℕ) (w : ForestView) → AreNested w.bubbles → AreNested (gathers b w).after.bubbles }
    ensures choice { (vp : ℕ) (w : ForestView) → AreNested w.bubbles → AreNested (step vp w).after.bubbles }
{}
