//! Laws of the definition.

ghost use Rattle.std.specs.Prelude.{All};
ghost use Rattle.settings.specs.Numbers.{all_names, flags};
ghost use Rattle.settings.specs.Settings.{IsOnceOnly, IsWithoutValue};

/// An option or a flag that stands twice has no settings.
fn no_option_stands_twice()
    ensures { All IsOnceOnly all_names }
{}

/// A flag with a value has no settings.
fn no_flag_has_a_value()
    ensures { All IsWithoutValue flags }
{}
