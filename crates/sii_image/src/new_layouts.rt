//! The layouts of slaves that have new words.

ghost use Rattle.std.specs.Prelude.{◌≡◌};
ghost use Rattle.sii_image.specs.NewLayouts.{slaves_of, AreRising};

use crate::slave_layout::SlaveLayout;
use std::marker::Model;

/// The layout of one slave that has new words.
#[derive(Drop)]
pub struct NewLayout {
    /// The number of the slave, from 0 in the order of the line.
    pub slave: u16,
    /// The layout of its new words.
    pub layout: SlaveLayout,
}

/// The layouts of the slaves that have new words, in rising order of the slaves. In contracts its value is the list of them.
#[derive(Drop)]
pub struct NewLayouts {
    pub(crate) items: Vec<NewLayout>,
}

impl Model for NewLayouts {
    ghost use Rattle.std.specs.Prelude.{List};
    ghost use Rattle.sii_image.specs.declared.new_layouts.NewLayout.{NewLayout};
    ghost use Rattle.sii_image.specs.NewLayouts.{slaves_of, AreRising};

    ghost Value = { List NewLayout };

    ghost view = { λ new. new.items.items };

    ghost invariant = { λ new. AreRising (slaves_of new.items.items) };
}

impl NewLayouts {
    /// Makes a list of new layouts. Their slaves must rise, so that none comes twice.
    pub fn of(items: Vec<NewLayout>) -> Self
        requires { AreRising (slaves_of items.items) }
        ensures { result ≡ items.items }
    {
        NewLayouts { items }
    }
}
