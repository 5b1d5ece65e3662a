//! The numbers of an image that have a name of their own: its length, alias, check byte and identity.
ghost use Rattle.line_changes.specs.Difference.{IsHead};

use sii_words::{Identity, ImageFile};
use station_rows::Value::{Byte, Long};
use station_rows::{Rows, bare};
use std::alloc::AllocError;

/// The length of an image, and what its first words say (ETG.1000.6, slave information interface).
#[derive(Clone, Copy)]
pub struct Head {
    /// The number of words: 64 to 4,096.
    pub count: usize,
    /// The configured station alias: word 4.
    pub alias: u16,
    /// The check byte as it stands in the image: the low byte of word 7.
    pub check: u8,
    /// The identity: words 8 to 15.
    pub identity: Identity,
}

impl Head {
    /// The head of an image.
    pub fn of(image: &ImageFile) -> Head
        ensures { IsHead image.now result }
    {
        let words = image.as_slice();
        let [check, _] = words[7].to_le_bytes();
        Head {
            count: words.len(),
            alias: image.alias(),
            check,
            identity: image.identity(),
        }
    }
}

/// Puts a row for each number in which two heads differ: its name, and both values.
pub(crate) fn put_heads(rows: &mut Rows, old: Head, new: Head) -> Result<(), AllocError> {
    let (was, is) = (old.identity, new.identity);
    let fields = [
        ("words", old.count.into(), new.count.into()),
        ("alias", old.alias.into(), new.alias.into()),
        ("check", Byte(old.check), Byte(new.check)),
        ("vendor", Long(was.vendor), Long(is.vendor)),
        ("product", Long(was.product), Long(is.product)),
        ("revision", Long(was.revision), Long(is.revision)),
        ("serial", Long(was.serial), Long(is.serial)),
    ];
    for (field, a, b) in &fields {
        if *a != *b {
            let row = [bare("field", *field), bare("a", *a), bare("b", *b)];
            rows.put("head", &row)?;
        }
    }
    Ok(())
}
