//! The tables of a line file and of a script: their keys, and what the value at each has to be.

use std::fmt;
use thiserror::Error;
use toml::Value;

/// What a value has to be.
#[derive(Clone, Copy, Debug, Error)]
pub(crate) enum Shape {
    #[error("a text")]
    Text,
    /// An integer, at least and at most these.
    #[error("an integer of {0} to {1}")]
    Number(i64, i64),
    #[error("true or false")]
    Flag,
    #[error("a table")]
    Table,
    #[error("an array of tables")]
    Array,
    #[error("an array of two integers of 0 to 65535")]
    Pair,
    #[error("text of four hexadecimal digits for each word")]
    Words,
}

/// A key of a table, and what its value has to be.
#[derive(Clone, Copy, Debug)]
pub(crate) enum Field {
    /// It must be there.
    Needed(&'static str, Shape),
    /// It may be left out.
    Optional(&'static str, Shape),
}

/// The keys of a table, in the order in which they are read. They are printed in words.
#[derive(Clone, Copy, Debug)]
pub(crate) struct Form(pub &'static [Field]);

const SMALL: Shape = Shape::Number(0, 65_535);

const LARGE: Shape = Shape::Number(0, 4_294_967_295);

const AREA: Shape = Shape::Number(4_096, 4_194_304);

const ALIAS: Field = Field::Optional("alias", Shape::Table);

const CATEGORY: Field = Field::Optional("category", Shape::Table);

const IMAGE: Field = Field::Optional("image", Shape::Table);

const SWAP: Field = Field::Optional("swap", Shape::Pair);

const GROUP: Field = Field::Optional("group", Shape::Array);

const GUARD: Field = Field::Optional("expect", Shape::Table);

const OF_SLAVE: Field = Field::Needed("slave", SMALL);

/// A line file.
pub(crate) const LINE: Form = Form(&[
    Field::Needed("journal", Shape::Text),
    Field::Optional("area", AREA),
    Field::Needed("slave", Shape::Array),
]);

/// A slave of a line file.
pub(crate) const SLAVE: Form = Form(&[Field::Needed("image", Shape::Text)]);

/// A script.
pub(crate) const SCRIPT: Form = Form(&[Field::Needed("command", Shape::Array)]);

/// A command of a script, which has one of these keys.
pub(crate) const COMMAND: Form = Form(&[ALIAS, SWAP, CATEGORY, IMAGE, GROUP]);

/// The kinds of an edit of a group, of which it has one.
pub(crate) const EDIT_KINDS: Form = Form(&[ALIAS, CATEGORY, IMAGE]);

/// An edit of a group.
pub(crate) const EDIT: Form = Form(&[ALIAS, CATEGORY, IMAGE, GUARD]);

/// The identity that an edit expects.
pub(crate) const EXPECT: Form = Form(&[
    Field::Needed("vendor", LARGE),
    Field::Needed("product", LARGE),
    Field::Needed("revision", LARGE),
]);

/// What stands at the key of each kind of edit. What it expects may stand among its fields.
pub(crate) const EDITS: [(&str, Form); 3] = [
    (
        "alias",
        Form(&[OF_SLAVE, Field::Needed("value", SMALL), GUARD]),
    ),
    (
        "category",
        Form(&[
            OF_SLAVE,
            Field::Needed("kind", SMALL),
            Field::Needed("content", Shape::Words),
            GUARD,
        ]),
    ),
    (
        "image",
        Form(&[
            OF_SLAVE,
            Field::Needed("file", Shape::Text),
            Field::Optional("replace", Shape::Flag),
            GUARD,
        ]),
    ),
];

impl Field {
    /// The key.
    pub fn key(self) -> &'static str {
        match self {
            Field::Needed(key, _) | Field::Optional(key, _) => key,
        }
    }
}

impl fmt::Display for Form {
    fn fmt<W: fmt::Write>(&self, f: &mut fmt::Formatter<W>) -> fmt::Result {
        let mut left = self.0.len();
        for field in self.0 {
            left = left.saturating_sub(1);
            let gap = match left {
                0 => "",
                1 => " and ",
                _ => ", ",
            };
            write!(f, "{}{gap}", field.key())?;
        }
        Ok(())
    }
}

impl Shape {
    /// Whether a value has this shape.
    pub fn fits(self, value: &Value) -> bool {
        match self {
            Shape::Text => value.is_str(),
            Shape::Number(least, most) => is_number(value, least, most),
            Shape::Flag => value.as_bool().is_some(),
            Shape::Table => value.is_table(),
            Shape::Array => value.is_array(),
            Shape::Pair => value.as_array().is_some_and(|values| {
                values.len() == 2 && values.iter().all(|one| is_number(one, 0, 65_535))
            }),
            Shape::Words => value.as_str().is_some_and(|text| {
                text.len() % 4 == 0 && text.bytes().all(|byte| byte.is_ascii_hexdigit())
            }),
        }
    }
}

fn is_number(value: &Value, least: i64, most: i64) -> bool {
    let number = value.as_integer();
    number.is_some_and(|number| least <= number && number <= most)
}
