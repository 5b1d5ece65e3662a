//! The value of a cell, as text and JSON print it.

use serde::{Serialize, Serializer};
use station_listing::CheckByte;
use std::alloc::{AllocError, Global};
use std::fmt;

/// The value of a cell.
#[derive(Clone, Copy, PartialEq)]
pub enum Value<'a> {
    /// None: the cell isn't there.
    Absent,
    /// None: `none`, or null.
    Null,
    Number(u64),
    Signed(i16),
    /// A number that text prints with two hexadecimal digits.
    Byte(u8),
    /// A number that text prints with four hexadecimal digits.
    Word(u16),
    /// A number that text prints with eight hexadecimal digits.
    Long(u32),
    /// True or false. Text prints the cell's name where it is true, and nothing else.
    Truth(bool),
    Text(&'a str),
    /// Words: in JSON a list of numbers.
    Words(&'a [u16]),
    /// A check byte: in JSON an object.
    Check(CheckByte),
    /// A byte for which there may be a word. JSON has both, the byte under `byte`.
    Kind { word: Option<&'a str>, byte: u8 },
    /// An object of the device's dictionary, by index and subindex. JSON has both, the subindex under `subindex`.
    Object(u16, u8),
    /// A string of an image. What is no printable ASCII is escaped.
    String(&'a [u8]),
    /// A reference to a string of an image: its number, and the string where there is one of this number. 0 refers to none.
    Name(u8, Option<&'a [u8]>),
    /// The cells up to `End` are an object in JSON.
    Begin,
    /// The end of an object.
    End,
    /// The end of a line of the text.
    Break,
}

/// A string of an image, in which what is no printable ASCII is escaped.
#[derive(Clone, Copy)]
struct Escaped<'a>(&'a [u8]);

/// The value as text.
pub fn printed(alloc: Global, value: Value<'_>) -> Result<String, AllocError> {
    format!(in alloc; "{value}")
}

impl<'a> Value<'a> {
    /// The same value, which is printed so, as a number, or as its text if it is none.
    pub fn or_text(self, printed: &'a str) -> Value<'a> {
        match self {
            Value::Number(_) | Value::Signed(_) | Value::Byte(_) | Value::Word(_) => self,
            Value::Kind { word: None, byte } => Value::Byte(byte),
            Value::Name(number, None) if number > 0 => Value::Number(u64::from(number)),
            _ => Value::Text(printed),
        }
    }

    /// Puts the value as JSON, after its key.
    pub(crate) fn put<S: Serializer>(self, out: &mut S) -> Result<(), S::Error> {
        match self {
            Value::Null | Value::Name(0, _) => out.unit(),
            Value::Number(number) => out.u64(number),
            Value::Signed(number) => out.i64(i64::from(number)),
            Value::Byte(number) => out.u64(u64::from(number)),
            Value::Word(number) => out.u64(u64::from(number)),
            Value::Long(number) => out.u64(u64::from(number)),
            Value::Truth(truth) => out.bool(truth),
            Value::Text(text) => out.str(text),
            Value::Words(words) => words.serialize(out),
            Value::Check(check) => {
                out.begin_map(None)?;
                out.key("ok")?;
                out.bool(check == CheckByte::Right)?;
                if let CheckByte::Wrong { found, expected } = check {
                    put_number("found", u64::from(found), out)?;
                    put_number("expected", u64::from(expected), out)?;
                }
                out.end_map()
            }
            Value::Kind { word, byte } => {
                out.str(word.unwrap_or("other"))?;
                put_number("byte", u64::from(byte), out)
            }
            Value::Object(index, subindex) => {
                out.u64(u64::from(index))?;
                put_number("subindex", u64::from(subindex), out)
            }
            Value::String(string) => out.collect_str(&Escaped(string)),
            Value::Name(number, string) => {
                out.begin_map(None)?;
                put_number("string", u64::from(number), out)?;
                if let Some(string) = string {
                    out.key("text")?;
                    out.collect_str(&Escaped(string))?;
                }
                out.end_map()
            }
            Value::Begin => out.begin_map(None),
            Value::End => out.end_map(),
            Value::Absent | Value::Break => Ok(()),
        }
    }
}

fn put_number<S: Serializer>(key: &str, number: u64, out: &mut S) -> Result<(), S::Error> {
    out.key(key)?;
    out.u64(number)
}

impl fmt::Display for Value<'_> {
    fn fmt<W: fmt::Write>(&self, f: &mut fmt::Formatter<W>) -> fmt::Result {
        match *self {
            Value::Null | Value::Name(0, _) => f.write_str("none"),
            Value::Number(number) => number.fmt(f),
            Value::Signed(number) => number.fmt(f),
            Value::Byte(number)
            | Value::Kind {
                word: None,
                byte: number,
            } => write!(f, "0x{number:02x}"),
            Value::Word(number) => write!(f, "0x{number:04x}"),
            Value::Long(number) => write!(f, "0x{number:08x}"),
            Value::Text(text) => f.write_str(text),
            Value::Words(words) => print_words(f, words),
            Value::Check(CheckByte::Right) => f.write_str("ok"),
            Value::Check(CheckByte::Wrong { found, expected }) => {
                write!(f, "bad 0x{found:02x} expected 0x{expected:02x}")
            }
            Value::Kind {
                word: Some(word),
                ..
            } => f.write_str(word),
            Value::Object(index, subindex) => write!(f, "0x{index:04x}:{subindex:02x}"),
            Value::String(string) => write!(f, "\"{}\"", Escaped(string)),
            Value::Name(number, None) => number.fmt(f),
            Value::Name(number, Some(string)) => write!(f, "{number} \"{}\"", Escaped(string)),
            Value::Absent | Value::Truth(_) | Value::Begin | Value::End | Value::Break => Ok(()),
        }
    }
}

fn print_words<W: fmt::Write>(f: &mut fmt::Formatter<W>, words: &[u16]) -> fmt::Result {
    let mut gap = "";
    for word in words {
        write!(f, "{gap}0x{word:04x}")?;
        gap = " ";
    }
    Ok(())
}

impl fmt::Display for Escaped<'_> {
    fn fmt<W: fmt::Write>(&self, f: &mut fmt::Formatter<W>) -> fmt::Result {
        for byte in self.0 {
            match *byte {
                b'"' | b'\\' => write!(f, "\\{}", char::from(*byte))?,
                b' '..=b'~' => write!(f, "{}", char::from(*byte))?,
                _ => write!(f, "\\x{byte:02x}")?,
            }
        }
        Ok(())
    }
}

impl<'a> From<u8> for Value<'a> {
    fn from(number: u8) -> Self {
        Value::Number(u64::from(number))
    }
}

impl<'a> From<u16> for Value<'a> {
    fn from(number: u16) -> Self {
        Value::Number(u64::from(number))
    }
}

impl<'a> From<u32> for Value<'a> {
    fn from(number: u32) -> Self {
        Value::Number(u64::from(number))
    }
}

impl<'a> From<u64> for Value<'a> {
    fn from(number: u64) -> Self {
        Value::Number(number)
    }
}

impl<'a> From<usize> for Value<'a> {
    fn from(number: usize) -> Self {
        Value::Number(number as u64)
    }
}

impl<'a> From<bool> for Value<'a> {
    fn from(truth: bool) -> Self {
        Value::Truth(truth)
    }
}

impl<'a> From<&'a str> for Value<'a> {
    fn from(text: &'a str) -> Self {
        Value::Text(text)
    }
}

impl<'a> From<CheckByte> for Value<'a> {
    fn from(check: CheckByte) -> Self {
        Value::Check(check)
    }
}

impl<'a, T: Into<Value<'a>>> From<Option<T>> for Value<'a> {
    fn from(value: Option<T>) -> Self {
        match value {
            Some(value) => value.into(),
            None => Value::Absent,
        }
    }
}
