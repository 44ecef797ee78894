//! Laws of the definition.

ghost use Rattle.std.specs.Prelude.{◌≡◌, ◌≤◌, [], ◌∷◌, List, codes, length, Some, true, count_by};
ghost use Rattle.std.specs.List.{list_all};
ghost use Rattle.words.specs.Uses.{is_use};
ghost use Rattle.words.specs.Words.{GrammarOf, Item, Text, file, is_name, items_of, values};

/// Where the words give something, and no positional word begins with `-`, each use of an option or a flag gives it a value.
fn each_use_gives_a_value()
    ensures { (g : GrammarOf) (name : Text) (words : List Text) (items : List Item) → items_of g words ≡ Some items
        → list_all is_name (values file items) ≡ true → count_by (is_use name) words ≤ length (values name items) }
{}

/// A value is all that stands behind the first `=`, another `=` with it; or nothing.
fn a_value_is_all_behind_the_first_equals_sign()
    ensures another { items_of (record { options = codes "trace" ∷ []; flags = [] }) (codes "--trace=a=b" ∷ []) ≡ Some ((codes "trace", codes "a=b") ∷ []) }
    ensures nothing { items_of (record { options = codes "trace" ∷ []; flags = [] }) (codes "--trace=" ∷ []) ≡ Some ((codes "trace", []) ∷ []) }
{}
