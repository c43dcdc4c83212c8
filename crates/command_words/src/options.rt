ghost use Rattle.std.specs.Prelude.{◌≡◌, map};
ghost use Rattle.command_words.specs.Parts.{is_among};

use std::marker::Model;

/// The names of the options of a command, without their dashes.
#[derive(Drop)]
pub struct OptionNames<'n> {
    values: &'n [&'n str],
    flags: &'n [&'n str],
}

impl<'n> Model for OptionNames<'n> {
    ghost use Rattle.std.specs.Prelude.{map};
    ghost use Rattle.command_words.specs.Reading.{NamesOfOptions};

    ghost Value = { NamesOfOptions };

    ghost view = { λ o. record { values = map (λ name. name.now) o.values.now; flags = map (λ name. name.now) o.flags.now } };
}

impl<'n> OptionNames<'n> {
    /// Those of the options with a value, and of the flags, which have none.
    pub fn new(values: &'n [&'n str], flags: &'n [&'n str]) -> OptionNames<'n>
        ensures values { result.values ≡ map (λ name. name.now) values.now }
        ensures flags { result.flags ≡ map (λ name. name.now) flags.now }
    {
        OptionNames { values, flags }
    }

    /// Whether it is the name of an option with a value.
    pub(crate) fn has_value(&self, name: &str) -> bool
        ensures { result ≡ is_among self.now.values name.now }
    {
        is_among(self.values, name)
    }

    /// Whether it is the name of a flag.
    pub(crate) fn is_flag(&self, name: &str) -> bool
        ensures { result ≡ is_among self.now.flags name.now }
    {
        is_among(self.flags, name)
    }
}

/// Whether the name is one of these.
pub(crate) fn is_among(names: &[&str], name: &str) -> bool
    ensures { result ≡ is_among (map (λ other. other.now) names.now) name.now }
{
    names.contains(&name)
}
