ghost use Rattle.std.specs.Prelude.{◌≡◌, ◌↔◌, IsTrue, Some, IfOk};
ghost use Rattle.sii_words.specs.CheckByte.{IsChecked};
ghost use Rattle.sii_words.specs.Words.{alias_of};
ghost use Rattle.sii_edit.specs.Alias.{with_alias};
ghost use Rattle.sii_edit.specs.Draft.{named, named_as};
ghost use Rattle.sii_edit.specs.Guard.{is_other};

use crate::alias::with_low_byte;
use crate::command::Expect;
use crate::guard::is_other;
use sii_words::Words;
use std::alloc::AllocError;
use std::marker::Model;

/// A new alias of a slave: its words 4 and 7.
#[derive(Clone, Copy)]
pub(crate) struct Name {
    /// Word 4: the configured station alias.
    pub alias: u16,
    /// Word 7: the check byte in the low byte, and the old high byte.
    pub seven: u16,
}

/// The words of a slave, perhaps with a new alias in words 4 and 7. None of them are copied. In contracts its value is the list
/// of the words.
#[derive(Drop)]
pub(crate) struct SlaveWords<'a> {
    words: &'a Words,
    name: Option<Name>,
}

impl<'a> Model for SlaveWords<'a> {
    ghost use Rattle.std.specs.Prelude.{ℕ, List, length, ◌<◌};
    ghost use Rattle.sii_edit.specs.Draft.{named_as};

    ghost Value = { List ℕ };

    ghost view = { λ slave. named_as slave.words.now slave.name };

    ghost invariant = { λ slave. 7 < length slave.words.now };
}

/// Sets words 4 and 7 to those of a new alias.
pub(crate) fn rename(words: &mut Words, name: Name)
    ensures { words.new ≡ named words.old name }
{
    // Every device has 64 words at least.
    let _size = words.len();
    words.set(4, name.alias);
    words.set(7, name.seven);
}

impl<'a> SlaveWords<'a> {
    /// These words, with the new alias if there is one.
    pub fn of(words: &'a Words, name: Option<Name>) -> Self
        ensures { result ≡ named_as words.now name }
    {
        // Every device has 64 words at least.
        let _size = words.len();
        SlaveWords { words, name }
    }

    /// The configured station alias.
    pub fn alias(&self) -> u16
        ensures { result ≡ alias_of self.now }
    {
        match self.name {
            Some(name) => name.alias,
            None => self.words.alias(),
        }
    }

    /// Whether the low byte of word 7 is the check byte of words 0 to 6.
    pub fn check_ok(&self) -> bool
        ensures { IsTrue result ↔ IsChecked self.now }
    {
        match self.name {
            Some(name) => name.seven % 256 == u16::from(self.words.check_byte_with(name.alias)),
            None => self.words.check_ok(),
        }
    }

    /// Whether the slave has another identity than expected. A new alias doesn't change the identity.
    pub fn is_other(&self, expect: Option<Expect>) -> bool
        ensures { result ≡ is_other expect self.now }
    {
        is_other(expect, self.words)
    }

    /// A new alias, and word 7 with its check byte.
    pub fn with_alias(&self, alias: u16) -> Name
        ensures { named self.now result ≡ with_alias self.now alias }
    {
        let seven = match self.name {
            Some(name) => name.seven,
            None => self.words.get(7),
        };
        Name {
            alias,
            seven: with_low_byte(seven, self.words.check_byte_with(alias)),
        }
    }

    /// Copies all words.
    ///
    /// # Errors
    ///
    /// `AllocError` if memory was refused.
    pub fn to_words(&self) -> Result<Words, AllocError>
        ensures { IfOk result (λ words. words ≡ self.now) }
    {
        let mut words = self.words.try_copy()?;
        if let Some(name) = self.name {
            rename(&mut words, name);
        }
        Ok(words)
    }
}
