ghost use Rattle.std.specs.Prelude.{◌≡◌, ◌<◌, ◌≤◌, ◌++◌, ◌∷◌, [], length, vec_len, IfOk, OnOk};
ghost use Rattle.sii_words.specs.Plant.{words_of, with_word};

use crate::words::Words;
use std::alloc::AllocError;
use std::marker::Model;

/// The most slaves of a line.
pub const MAX_SLAVES: usize = 64;

/// The contents of a line: the EEPROM words of its 1 to 64 slaves. In contracts its value is the list of the slaves' word
/// lists.
#[derive(Drop)]
pub struct Plant {
    slaves: Vec<Words>,
}

impl Model for Plant {
    ghost use Rattle.std.specs.Prelude.{ℕ, List, ◌≤◌, length};

    ghost Value = { List (List ℕ) };

    ghost view = { λ plant. plant.slaves.items };

    ghost invariant = { λ plant. (1 ≤ length plant.slaves.items) × (length plant.slaves.items ≤ 64) };
}

fn push_copy(slaves: &mut Vec<Words>, words: &Words) -> Result<(), AllocError>
    ensures { OnOk result (slaves.new.items ≡ slaves.old.items ++ words.now ∷ []) }
{
    slaves.push(words.try_copy()?)?;
    Ok(())
}

impl Plant {
    /// Makes a plant of these slaves, numbered from 0 in their order. There must be 1 to 64 of them.
    pub fn of(slaves: Vec<Words>) -> Self
        requires some { 1 ≤ vec_len slaves }
        requires most { vec_len slaves ≤ 64 }
        ensures { result ≡ slaves.items }
    {
        Plant { slaves }
    }

    /// The number of slaves, 1 to 64.
    pub fn len(&self) -> usize
        ensures len { result ≡ length self.now }
        ensures some { 1 ≤ length self.now }
        ensures most { length self.now ≤ 64 }
    {
        self.slaves.len()
    }

    /// The words of slave `slave`, which must exist.
    pub fn slave(&self, slave: usize) -> &Words
        requires { slave < length self.now }
        ensures { result.now ≡ words_of self.now slave }
    {
        &self.slaves[slave]
    }

    /// Sets word `at` of slave `slave` to `value`, and changes no other word. The slave and its word must exist.
    pub fn set(&mut self, slave: usize, at: usize, value: u16)
        requires slave { slave < length self.old }
        requires word { at < length (words_of self.old slave) }
        ensures { self.new ≡ with_word self.old slave at value }
    {
        self.slaves[slave].set(at, value);
    }

    /// Copies the words of all slaves.
    ///
    /// # Errors
    ///
    /// `AllocError` if memory was refused.
    pub fn try_copy(&self) -> Result<Plant, AllocError>
        ensures { IfOk result (λ copy. copy ≡ self.now) }
    {
        let mut slaves = Vec::with_capacity(*self.slaves.allocator(), self.slaves.len())?;
        for words in &self.slaves {
            push_copy(&mut slaves, words)?;
        }
        Ok(Plant { slaves })
    }
}
