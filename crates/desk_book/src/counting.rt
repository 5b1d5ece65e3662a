//! Adds up shares, and compares receipts with the accepted commands.

ghost use Rattle.std.specs.Prelude.{◌↔◌, ◌≡◌, ◌≤◌, ◌^◌, length, sum_by, IfSome, IfNone, IsTrue, All};
ghost use Rattle.desk_book.specs.Serving.{ShareCounts};
ghost use Rattle.desk_book.specs.Numbered.{Numbered};
ghost use Rattle.desk_book.specs.Closing.{StandsAt, HasNumber, AreSeparate};

use crate::naming::{Refusals, Tickets};
use crate::share::Share;
use crate::ticket::Receipt;
use sii_edit::{Command, is_same_command};

/// How many tickets the shares count together. `None` if these are more than `u64::MAX`.
pub(crate) fn all_tickets<T: Tickets, R: Refusals>(shares: &[Share<T, R>]) -> Option<u64>
    ensures some { IfSome result (λ sum. sum ≡ sum_by (λ (s : ShareCounts). s.tickets) shares.now) }
    ensures none { IfNone result (2 ^ 64 ≤ sum_by (λ (s : ShareCounts). s.tickets) shares.now) }
{
    let mut sum: u64 = 0;
    for i in 0..shares.len() {
        let share = &shares[i];
        sum = sum.checked_add(share.tickets())?;
    }
    Some(sum)
}

/// How many refusals the shares count together. `None` if these are more than `u64::MAX`.
pub(crate) fn all_refusals<T: Tickets, R: Refusals>(shares: &[Share<T, R>]) -> Option<u64>
    ensures some { IfSome result (λ sum. sum ≡ sum_by (λ (s : ShareCounts). s.refusals) shares.now) }
    ensures none { IfNone result (2 ^ 64 ≤ sum_by (λ (s : ShareCounts). s.refusals) shares.now) }
{
    let mut sum: u64 = 0;
    for i in 0..shares.len() {
        let share = &shares[i];
        sum = sum.checked_add(share.refusals())?;
    }
    Some(sum)
}

/// Whether the command of this number in `commands` is this one, and is among the first `durable`.
pub(crate) fn stands_at(number: u64, command: &Command, commands: &[Command], durable: u64) -> bool
    ensures { IsTrue result ↔ StandsAt commands.now durable (record { number = number; command = command.now }) }
{
    let at = number as usize;
    if number >= durable || at >= commands.len() {
        return false;
    }
    is_same_command(&commands[at], command)
}

/// Whether the command of each receipt is the one of its number in `commands`, and is among the first `durable`.
pub(crate) fn stand_at_their_numbers(
    receipts: &[Receipt],
    commands: &[Command],
    durable: u64,
) -> bool
    ensures { IsTrue result ↔ All (StandsAt commands.now durable) receipts.now }
{
    for i in 0..receipts.len() {
        let receipt = &receipts[i];
        if !stands_at(receipt.number(), receipt.command(), commands, durable) {
            return false;
        }
    }
    true
}

/// Whether no two receipts have the same number. Receipts in the order of their numbers are told apart in one pass.
pub(crate) fn are_separate(receipts: &[Receipt]) -> bool
    ensures { IsTrue result ↔ AreSeparate receipts.now }
{
    are_rising(receipts) || have_each_their_own(receipts)
}

/// Whether the number of each receipt is above that of the one before it.
fn are_rising(receipts: &[Receipt]) -> bool
    ensures { IsTrue result → AreSeparate receipts.now }
{
    let mut least = 0;
    for i in 0..receipts.len() {
        let number = receipts[i].number();
        if number < least || number == u64::MAX {
            return false;
        }
        least = number + 1;
    }
    true
}

/// Whether no two receipts have the same number, in any order. Compares each with all before it.
fn have_each_their_own(receipts: &[Receipt]) -> bool
    ensures { IsTrue result ↔ AreSeparate receipts.now }
{
    for i in 0..receipts.len() {
        let receipt = &receipts[i];
        if has_number(receipts, i, receipt.number()) {
            return false;
        }
    }
    true
}

/// Whether one of the first `count` receipts has this number.
fn has_number(receipts: &[Receipt], count: usize, number: u64) -> bool
    requires { count ≤ length receipts.now }
    ensures { IsTrue result ↔ HasNumber receipts.now count number }
{
    for k in 0..count {
        let receipt = &receipts[k];
        if receipt.number() == number {
            return true;
        }
    }
    false
}
