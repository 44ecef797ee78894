//! Laws of the definitions.

ghost use Rattle.std.specs.Prelude.{◌≡◌, ℕ, List, false};
ghost use Rattle.std.specs.List.{list_any};
ghost use Rattle.picture_texts.specs.Escaping.{escaped, is_markup};

/// An escaped name has no byte that begins or ends an element.
pub fn names_are_escaped()
    ensures { (name : List ℕ) → list_any is_markup (escaped name) ≡ false }
{}
