//! What words give.

ghost use Rattle.std.specs.Prelude.{◌≡◌, map};

use clap::ArgMatches;

/// The values that words give under each name.
#[derive(Drop)]
pub struct Given<'a> {
    pub(crate) matches: ArgMatches<'a>,
}

impl<'a> Given<'a> {
    ghost use Rattle.words.specs.Seen.{values_given};

    /// The values under a name, in the words' order.
    pub fn values(&self, name: &str) -> &[&'a str]
        ensures { map (λ s. s.now) result.now ≡ values_given self.now name.now }
    {
        self.matches.get_raw(name).unwrap_or_default()
    }
}
