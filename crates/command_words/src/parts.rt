ghost use Rattle.std.specs.Prelude.{◌≡◌, Err, Some, None, OnOk, bytes_eq, find, map, option_map};
ghost use Rattle.command_words.specs.Parts.{has_flag, no_parts, text_of, with_flag, with_name, with_text};
ghost use Rattle.command_words.specs.PartsSteps.{setting_of, text_among};

use crate::fault::WordsFault;
use crate::options::is_among;
use std::alloc::{AllocError, Global};
use std::marker::Model;

/// What words say: the texts of options, the flags that are given, and the names.
#[derive(Drop)]
pub struct Parts<'a> {
    // Options with their texts.
    settings: Vec<(&'a str, &'a str)>,
    flags: Vec<&'a str>,
    names: Vec<&'a str>,
}

impl<'a> Model for Parts<'a> {
    ghost use Rattle.std.specs.Prelude.{map};
    ghost use Rattle.command_words.specs.Parts.{PartsValue};
    ghost use Rattle.command_words.specs.PartsSteps.{setting_of};

    ghost Value = { PartsValue };

    ghost view = { λ p. record {
      settings = map setting_of p.settings.items;
      flags = map (λ flag. flag.now) p.flags.items;
      names = map (λ name. name.now) p.names.items;
    } };
}

impl<'a> Parts<'a> {
    /// Before the first word.
    pub(crate) fn new(alloc: Global) -> Parts<'a>
        ensures { result ≡ no_parts }
    {
        Parts {
            settings: Vec::new(alloc),
            flags: Vec::new(alloc),
            names: Vec::new(alloc),
        }
    }

    /// The text of the option of this name; None where it is not given.
    pub fn text(&self, option: &str) -> Option<&'a str>
        ensures { option_map (λ text. text.now) result ≡ text_of self.now option.now }
    {
        text_among(self.settings.as_slice(), option)
    }

    /// Whether the flag of this name is given.
    pub fn has_flag(&self, flag: &str) -> bool
        ensures { result ≡ has_flag self.now flag.now }
    {
        is_among(self.flags.as_slice(), flag)
    }

    /// The names, in their order.
    pub fn names(&self) -> &[&'a str]
        ensures { map (λ name. name.now) result.now ≡ self.now.names }
    {
        self.names.as_slice()
    }

    /// Adds the text of an option. `Usage` comes where it is given already.
    pub(crate) fn add_text(&mut self, option: &'a str, text: &'a str) -> Result<(), WordsFault>
        ensures added { OnOk result (with_text self.old option.now text.now ≡ Some self.new) }
        ensures repeated { result ≡ Err WordsFault.Usage → with_text self.old option.now text.now ≡ None }
    {
        if self.text(option).is_some() {
            return Err(WordsFault::Usage);
        }
        self.settings.push((option, text))?;
        Ok(())
    }

    /// Adds a flag. `Usage` comes where it is given already.
    pub(crate) fn add_flag(&mut self, flag: &'a str) -> Result<(), WordsFault>
        ensures added { OnOk result (with_flag self.old flag.now ≡ Some self.new) }
        ensures repeated { result ≡ Err WordsFault.Usage → with_flag self.old flag.now ≡ None }
    {
        if self.has_flag(flag) {
            return Err(WordsFault::Usage);
        }
        self.flags.push(flag)?;
        Ok(())
    }

    /// Adds a name.
    pub(crate) fn add_name(&mut self, name: &'a str) -> Result<(), AllocError>
        ensures { OnOk result (self.new ≡ with_name self.old name.now) }
    {
        self.names.push(name)?;
        Ok(())
    }
}

// The text of the first of these settings that is of the option.
fn text_among<'a>(settings: &[(&'a str, &'a str)], option: &str) -> Option<&'a str>
    ensures { option_map (λ text. text.now) result ≡ text_among (map setting_of settings.now) option.now }
{
    for (name, text) in settings {
        if *name == option {
            return Some(text);
        }
    }
    None
}
