ghost use Rattle.std.specs.Prelude.{◌≡◌, ◌≤◌, ◌<◌, ◌+◌, ◌-◌, ◌^◌, ℕ, List, length, IfOk, OnOk, OnErr};

use sii_edit::{Command, changes};
use sii_image::{ImageFault, Layout, ProcessImage};
use sii_words::{Plant, redo};
use std::alloc::{AllocError, Global};
use std::marker::Model;

/// The contents after the first `count` accepted commands, with their layout. Plans are made of these.
#[derive(Drop)]
pub struct Shown {
    plant: Plant,
    layout: Layout,
    count: u64,
}

impl Model for Shown {
    ghost use Rattle.std.specs.Prelude.{◌≡◌};
    ghost use Rattle.book_parts.specs.Shown as shown;

    ghost Value = { shown.Shown };

    ghost view = { λ s. record { contents = s.plant; count = s.count } };

    ghost invariant = { λ s. s.layout ≡ s.plant };
}

impl Shown {
    ghost use Rattle.sii_edit.specs.Fold.{after};
    ghost use Rattle.sii_image.specs.ProcessImage.{process_image};
    ghost use Rattle.sii_image.specs.Answer.{GivesProcessImage};
    ghost use Rattle.book_parts.specs.Shown.{IsAfter};

    /// Starts with these contents, after none of the commands.
    ///
    /// # Errors
    ///
    /// Memory was refused; the contents are dropped.
    pub fn open(alloc: Global, plant: Plant) -> Result<Shown, AllocError>
        ensures { IfOk result (λ shown. shown ≡ record { contents = plant; count = 0 }) }
    {
        let layout = Layout::of(alloc, &plant)?;
        Ok(Shown {
            plant,
            layout,
            count: 0,
        })
    }

    /// Goes on to the contents after one more command. At an error they stay.
    fn follow(&mut self, alloc: Global, command: &Command) -> Result<(), AllocError>
        requires { self.old.count < 2 ^ 64 - 1 }
        ensures followed { OnOk result (self.new ≡ record { contents = after self.old.contents command.now; count = self.old.count + 1 }) }
        ensures kept { OnErr result (self.new ≡ self.old) }
    {
        match changes(alloc, &self.plant, &self.layout, command) {
            Ok(change) => {
                redo(&mut self.plant, &change.runs);
                self.layout.put_all(change.layouts);
                self.count += 1;
                Ok(())
            }
            Err(_) => Err(AllocError),
        }
    }

    /// Goes on to the contents after the first `count` of the commands: at least as many as so far, and no more than there are.
    ///
    /// # Errors
    ///
    /// Memory was refused, or a command isn't valid on the contents that it comes to. The contents are then those after fewer commands;
    /// `count` says how many.
    pub fn bring_up(
        &mut self,
        alloc: Global,
        accepted: &[Command],
        count: u64,
    ) -> Result<(), AllocError>
        requires least { self.old.count ≤ count }
        requires most { count ≤ length accepted.now }
        ensures follow { (base : List (List ℕ)) → IsAfter base accepted.now self.old → IsAfter base accepted.now self.new }
        ensures least { self.old.count ≤ self.new.count }
        ensures most { self.new.count ≤ count }
        ensures all { OnOk result (self.new.count ≡ count) }
    {
        while self.count < count {
            let command = &accepted[self.count as usize];
            self.follow(alloc, command)?;
        }
        Ok(())
    }

    /// After how many of the commands these contents come.
    pub fn count(&self) -> u64
        ensures { result ≡ self.now.count }
    {
        self.count
    }

    /// The process image of the contents.
    ///
    /// # Errors
    ///
    /// `ImageOverLimit`: it would have more than 1,486 bytes, or a slave more than 8 segments. `Memory` may come in place of any answer.
    pub fn image(&self) -> Result<ProcessImage, ImageFault>
        ensures { GivesProcessImage result (process_image self.now.contents) }
    {
        self.layout.image()
    }
}
