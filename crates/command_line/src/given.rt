//! The words that were given, by the names of the arguments.

use crate::input_script::TYPED;
use clap::ArgMatches;
use std::time::Duration;

/// What the words of a command line give: a subcommand, and the arguments that are there.
#[derive(Drop)]
pub struct ParsedArguments<'a> {
    /// The name of the subcommand; empty where none was given.
    pub subcommand: &'a str,
    pub(crate) matches: ArgMatches<'a>,
}

impl<'a> ParsedArguments<'a> {
    /// What these matches have found.
    pub(crate) fn of(matches: ArgMatches<'a>) -> ParsedArguments<'a> {
        let subcommand = matches.subcommand_name().unwrap_or("");
        ParsedArguments {
            subcommand,
            matches,
        }
    }

    /// The text of this argument, if it is there.
    pub fn text(&self, id: &str) -> Option<&'a str> {
        let of_subcommand = match self.matches.subcommand() {
            Some((_, found)) => found.get_str(id),
            None => None,
        };
        of_subcommand.or_else(|| self.matches.get_str(id))
    }

    /// The text of an argument that has to be there.
    pub fn word(&self, id: &str) -> &'a str {
        self.text(id).unwrap_or("")
    }

    /// Whether this option without a value is there.
    pub fn has(&self, id: &str) -> bool {
        self.text(id) == Some("true")
    }

    /// The name of the script: that of the argument `SCRIPT`, which has to be there unless commands are typed, or `TYPED`.
    pub fn script(&self) -> &'a str {
        self.text("SCRIPT").unwrap_or(TYPED)
    }

    /// The milliseconds of this option, if it is there and they aren't 0.
    pub fn milliseconds(&self, id: &str) -> Option<Duration> {
        match self.text(id)?.parse::<u16>() {
            Ok(0) | Err(_) => None,
            Ok(milliseconds) => Some(Duration::from_millis(u64::from(milliseconds))),
        }
    }

    /// A power cut after so many units, as this option and `--left` say: their number, and what is left of the next one. `--left` is checked
    /// even without the option.
    ///
    /// # Errors
    ///
    /// The text for one that isn't in digits.
    pub fn cut(&self, id: &str) -> Result<Option<(u32, u16)>, &'static str> {
        let count = self.text(id);
        let left = self.text("left");
        if !count.is_none_or(is_digits) || !left.is_none_or(is_digits) {
            return Err("K is a number in digits, 0 to 4294967295, and W one of 0 to 65535");
        }
        let left = left.unwrap_or("0").parse::<u16>().unwrap_or(0);
        let count = count.unwrap_or("").parse::<u32>().ok();
        Ok(count.map(|count| (count, left)))
    }
}

/// Whether a text has digits only: a sign is not taken.
fn is_digits(text: &str) -> bool {
    text.bytes().all(|byte| byte.is_ascii_digit())
}

/// The number that a text spells, in decimal digits, or in hexadecimal ones after `0x`, as in a script. A sign is not taken.
pub fn number_in(text: &str) -> Option<u32> {
    match text.strip_prefix("0x") {
        Some(digits) if digits.bytes().all(|byte| byte.is_ascii_hexdigit()) => {
            u32::from_str_radix(digits, 16).ok()
        }
        None if is_digits(text) => text.parse::<u32>().ok(),
        _ => None,
    }
}

/// The number of 0 to 65535 that a text spells so.
pub fn small_in(text: &str) -> Option<u16> {
    u16::try_from(number_in(text)?).ok()
}
