//! What a command takes.

ghost use Rattle.std.specs.Prelude.{◌≡◌, false, map};
ghost use Rattle.words.specs.Words.{file, has};

/// What a command takes beside its positional words.
#[derive(Clone, Copy)]
pub struct Grammar<'a> {
    /// The names of the options, each of which takes a value.
    pub options: &'a [&'a str],
    /// The names of the flags.
    pub flags: &'a [&'a str],
    pub ghost file_is_free: { has file (map (λ s. s.now) options.now) ≡ false },
}
