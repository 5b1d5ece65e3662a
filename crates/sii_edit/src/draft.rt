ghost use Rattle.std.specs.Prelude.{◌≡◌, ◌≢◌, ◌<◌, ◌≤◌, ◌+◌, [], ◌++◌, length, slice_set, vec_len, vec_capacity, Ok, IfOk, IfErr, OnOk, OnErr};
ghost use Rattle.std.specs.Option.{option_copied};
ghost use Rattle.sii_words.specs.Plant.{words_of};
ghost use Rattle.sii_image.specs.NewLayouts.{AreRising};
ghost use Rattle.sii_edit.specs.Draft.{drafted, named, new_for, over, renewed, renewed_slaves, with_renewal, FitsWords, IsDraftOf, IsStep};
ghost use Rattle.sii_edit.specs.steps.Draft.{drafted_runs, place_of};
ghost use Rattle.sii_edit.specs.Refusal.{IsCauseOf};
ghost use Rattle.sii_words.specs.Run.{runs_between, stretches};
ghost use Rattle.sii_edit.specs.Command.{edited, swapped};

use crate::command::{Edit, Expect};
use crate::refusal::Cause;
use crate::slave_words::{Name, SlaveWords, rename};
use sii_words::{Plant, Run, Words, push_stretches, push_word};
use std::alloc::{AllocError, Global};
use std::marker::Model;

/// The new words of a slave.
#[derive(Drop)]
pub(crate) enum NewWords {
    /// Words 4 and 7 are new.
    Renamed(Name),
    /// All words are given, as many as the slave has.
    Rewritten(Words),
}

/// A slave with its new words.
#[derive(Drop)]
pub(crate) struct Renewal {
    /// The number of the slave, from 0 in the order of the line.
    pub slave: u16,
    /// Its new words.
    pub new: NewWords,
}

/// Changes of a plant that aren't made yet: the slaves that get new words, in rising order. In contracts its value is the list
/// of these.
#[derive(Drop)]
pub(crate) struct Draft {
    renewals: Vec<Renewal>,
}

impl Model for Draft {
    ghost use Rattle.std.specs.Prelude.{List};
    ghost use Rattle.sii_image.specs.NewLayouts.{AreRising};
    ghost use Rattle.sii_edit.specs.declared.draft.Renewal.{Renewal};
    ghost use Rattle.sii_edit.specs.Draft.{renewed_slaves};

    ghost Value = { List Renewal };

    ghost view = { λ draft. draft.renewals.items };

    ghost invariant = { λ draft. AreRising (renewed_slaves draft.renewals.items) };
}

/// Puts a new alias over new words.
fn rename_over(old: &mut NewWords, name: Name)
    ensures { old.new ≡ over old.old (NewWords.Renamed name) }
{
    match old {
        NewWords::Renamed(first) => *first = name,
        NewWords::Rewritten(words) => rename(words, name),
    }
}

/// Puts newer words over new words.
fn put_over(old: &mut NewWords, new: NewWords)
    ensures { old.new ≡ over old.old new }
{
    match new {
        NewWords::Renamed(name) => rename_over(old, name),
        NewWords::Rewritten(words) => *old = NewWords::Rewritten(words),
    }
}

/// The new words of a slave, or `None` if it gets none.
fn new_for(renewals: &[Renewal], slave: u16) -> Option<&NewWords>
    ensures { option_copied result ≡ new_for renewals.now slave }
{
    for renewal in renewals {
        if renewal.slave == slave {
            return Some(&renewal.new);
        }
    }
    None
}

/// The number of renewals of slaves before this one.
fn place_of(renewals: &[Renewal], slave: u16) -> usize
    ensures place { result ≡ place_of renewals.now slave }
    ensures most { result ≤ length renewals.now }
{
    for (place, renewal) in renewals.iter().enumerate() {
        if renewal.slave >= slave {
            return place;
        }
    }
    renewals.len()
}

/// Gives a slave new words, over those that it was given before.
fn put(renewals: &mut Vec<Renewal>, slave: u16, new: NewWords) -> Result<(), AllocError>
    ensures put { OnOk result (renewals.new.items ≡ with_renewal renewals.old.items slave new) }
    ensures kept { OnErr result (renewals.new.items ≡ renewals.old.items) }
    ensures full { OnErr result (vec_capacity renewals.old ≤ vec_len renewals.old) }
    ensures len { vec_len renewals.new ≤ vec_len renewals.old + 1 }
    ensures room { vec_capacity renewals.old ≤ vec_capacity renewals.new }
{
    let place = place_of(renewals, slave);
    if place < renewals.len() && renewals[place].slave == slave {
        put_over(&mut renewals[place].new, new);
        return Ok(());
    }
    renewals.insert(place, Renewal { slave, new })?;
    Ok(())
}

/// The words of a slave once it has its new ones.
fn renewed<'a>(words: &'a Words, new: &'a NewWords) -> SlaveWords<'a>
    ensures { result ≡ renewed words.now new.now }
{
    match new {
        NewWords::Renamed(name) => SlaveWords::of(words, Some(*name)),
        NewWords::Rewritten(rewritten) => SlaveWords::of(rewritten, None),
    }
}

/// Adds the runs of a slave that gets a new alias.
fn push_name(
    alloc: Global,
    runs: &mut Vec<Run>,
    slave: u16,
    old: &Words,
    name: Name,
) -> Result<(), AllocError>
    ensures { OnOk result (runs.new.items ≡ runs.old.items ++ stretches slave 0 old.now (named old.now name)) }
{
    let words = old.as_slice();
    push_word(alloc, runs, slave, 4, words[4], name.alias)?;
    push_word(alloc, runs, slave, 7, words[7], name.seven)
}

/// Adds the runs of a slave that gets new words.
fn push_runs(
    alloc: Global,
    runs: &mut Vec<Run>,
    plant: &Plant,
    renewal: &Renewal,
) -> Result<(), AllocError>
    requires slave { renewal.now.slave < length plant.now }
    requires fits { FitsWords (words_of plant.now renewal.now.slave) renewal.now.new }
    ensures { let old = words_of plant.now renewal.now.slave in
        OnOk result (runs.new.items ≡ runs.old.items ++ stretches renewal.now.slave 0 old (renewed old renewal.now.new)) }
{
    let slave = renewal.slave;
    let old = plant.slave(usize::from(slave));
    match &renewal.new {
        NewWords::Renamed(name) => push_name(alloc, runs, slave, old, *name),
        NewWords::Rewritten(words) => {
            push_stretches(alloc, runs, slave, old.as_slice(), words.as_slice())
        }
    }
}

/// Adds the runs of all slaves that get new words.
fn push_all_runs(
    alloc: Global,
    runs: &mut Vec<Run>,
    plant: &Plant,
    renewals: &[Renewal],
) -> Result<(), AllocError>
    requires { IsDraftOf plant.now renewals.now }
    ensures { OnOk result (runs.new.items ≡ runs.old.items ++ drafted_runs plant.now renewals.now) }
{
    for renewal in renewals {
        push_runs(alloc, runs, plant, renewal)?;
    }
    Ok(())
}

impl Draft {
    /// A draft that changes nothing.
    pub fn new(alloc: Global) -> Draft
        ensures { result ≡ [] }
    {
        Draft {
            renewals: Vec::new(alloc),
        }
    }

    /// The words of a slave as the draft makes them.
    fn words<'a>(&'a self, plant: &'a Plant, slave: u16) -> SlaveWords<'a>
        requires { slave < length plant.now }
        ensures { result ≡ words_of (drafted plant.now self.now) slave }
    {
        let words = plant.slave(usize::from(slave));
        match new_for(&self.renewals, slave) {
            Some(new) => renewed(words, new),
            None => SlaveWords::of(words, None),
        }
    }

    /// Makes one edit, of a slave that must have the expected identity.
    ///
    /// # Errors
    ///
    /// The first cause that applies: `NoSlave`, then those of the edit. Or `Memory` in place of any answer. The draft is then
    /// unchanged.
    pub fn edit(
        &mut self,
        alloc: Global,
        plant: &Plant,
        expect: Option<Expect>,
        edit: &Edit,
    ) -> Result<(), Cause>
        requires { IsDraftOf plant.now self.old }
        ensures { IsStep plant.now (edited (drafted plant.now self.old) expect edit.now) self.old self.new result }
    {
        let slave = edit.slave();
        if usize::from(slave) >= plant.len() {
            return Err(Cause::NoSlave);
        }
        let new = edit.new_words(alloc, expect, &self.words(plant, slave))?;
        put(&mut self.renewals, slave, new)?;
        Ok(())
    }

    /// The new aliases of two slaves that exchange theirs.
    fn exchanged(&self, plant: &Plant, a: u16, b: u16) -> Result<(Name, Name), Cause>
        ensures there { OnOk result ((a < length plant.now) × (b < length plant.now) × (a ≢ b)) }
        ensures names { let now = drafted plant.now self.now in IfOk result (λ names. swapped now a b
            ≡ Ok (slice_set (slice_set now a (named (words_of now a) names.0)) b (named (words_of now b) names.1))) }
        ensures refused { IfErr result (λ cause. IsCauseOf (swapped (drafted plant.now self.now) a b) cause) }
    {
        if usize::from(a) >= plant.len() || usize::from(b) >= plant.len() {
            return Err(Cause::NoSlave);
        }
        if a == b {
            return Err(Cause::SameSlave);
        }
        let of_a = self.words(plant, a);
        let of_b = self.words(plant, b);
        if !of_a.check_ok() || !of_b.check_ok() {
            return Err(Cause::BadCheck);
        }
        let new_a = of_a.with_alias(of_b.alias());
        let new_b = of_b.with_alias(of_a.alias());
        Ok((new_a, new_b))
    }

    /// Exchanges the aliases of two slaves.
    ///
    /// # Errors
    ///
    /// In this order: `NoSlave`, `SameSlave`, `BadCheck`. Or `Memory` in place of any answer. The draft is then unchanged.
    pub fn swap(&mut self, plant: &Plant, a: u16, b: u16) -> Result<(), Cause>
        requires { IsDraftOf plant.now self.old }
        ensures { IsStep plant.now (swapped (drafted plant.now self.old) a b) self.old self.new result }
    {
        let (new_a, new_b) = self.exchanged(plant, a, b)?;
        self.renewals.reserve(2)?;
        put(&mut self.renewals, a, NewWords::Renamed(new_a))?;
        put(&mut self.renewals, b, NewWords::Renamed(new_b))?;
        Ok(())
    }

    /// The slaves that get new words, in rising order.
    pub fn renewals(&self) -> &[Renewal]
        ensures renewals { result.now ≡ self.now }
        ensures rising { AreRising (renewed_slaves self.now) }
    {
        &self.renewals
    }

    /// The runs that lead from the plant to the draft's.
    ///
    /// # Errors
    ///
    /// `AllocError` if memory was refused.
    pub fn runs(&self, alloc: Global, plant: &Plant) -> Result<Vec<Run>, AllocError>
        requires { IsDraftOf plant.now self.now }
        ensures { IfOk result (λ runs. runs.items ≡ runs_between plant.now (drafted plant.now self.now)) }
    {
        let mut runs = Vec::new(alloc);
        push_all_runs(alloc, &mut runs, plant, &self.renewals)?;
        Ok(runs)
    }
}
