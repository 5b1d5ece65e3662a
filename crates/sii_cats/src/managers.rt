//! SyncM categories (type 41; ETG.1000.6 and ETG.2010).

ghost use Rattle.std.specs.Prelude.{◌≡◌, IfOk, MatchOption, Ok};
ghost use Rattle.std.specs.List.{flat_map};
ghost use Rattle.sii_cats.specs.Bytes.{bytes_of};
ghost use Rattle.sii_cats.specs.steps.Items.Front.{Ended, Item};
ghost use Rattle.sii_cats.specs.Contents.{AreManagers, manager_bytes};
ghost use Rattle.sii_cats.specs.steps.Contents.{manager_at, managers_of};

use crate::bytes::{halves, pair, push_four};
use std::alloc::{AllocError, Global};

/// A sync manager as a SyncM category describes it (ETG.1000.6 and ETG.2010): eight bytes.
#[derive(Clone, Copy)]
pub struct Manager {
    /// Physical start address.
    pub start: u16,
    /// Length in bytes.
    pub length: u16,
    /// Control register.
    pub control: u8,
    /// Status register; not used for initialization.
    pub status: u8,
    /// Enable flags.
    pub enable: u8,
    /// Type: 0 unused, 1 mailbox out, 2 mailbox in, 3 process data out, 4 process data in.
    pub kind: u8,
}

/// The sync manager in front of the words, and the words after it; `None` if fewer than four words are left.
fn manager_of(words: &[u16]) -> Option<(Manager, &[u16])>
    ensures { MatchOption result (manager_at (bytes_of words.now) ≡ Ended)
        (λ x. manager_at (bytes_of words.now) ≡ Item x.0 (bytes_of x.1.now)) }
{
    match words {
        [start, length, state, mode, rest @ ..] => {
            let (control, status) = halves(*state);
            let (enable, kind) = halves(*mode);
            let manager = Manager {
                start: *start,
                length: *length,
                control,
                status,
                enable,
                kind,
            };
            Some((manager, rest))
        }
        _ => None,
    }
}

/// Reads the content of a SyncM category: its sync managers, in order. Up to three words after the last whole one are ignored,
/// and any content can be read.
///
/// # Errors
///
/// `AllocError` if memory was refused.
pub fn syncms(alloc: Global, words: &[u16]) -> Result<Vec<Manager>, AllocError>
    ensures grammar { IfOk result (λ v. AreManagers (bytes_of words.now) v.items) }
    ensures exact { IfOk result (λ v. managers_of words.now ≡ Ok v.items) }
{
    let mut managers = Vec::with_capacity(alloc, words.len() / 4)?;
    let mut rest = words;
    while let Some((manager, after)) = manager_of(rest) {
        managers.push(manager)?;
        rest = after;
    }
    Ok(managers)
}

/// The four words of a sync manager.
fn manager_words(manager: Manager) -> [u16; 4]
    ensures { bytes_of result ≡ manager_bytes manager }
{
    [
        manager.start,
        manager.length,
        pair(manager.control, manager.status),
        pair(manager.enable, manager.kind),
    ]
}

/// The content of a SyncM category with these sync managers.
///
/// # Errors
///
/// `AllocError` if memory was refused.
pub fn write_syncms(alloc: Global, managers: &[Manager]) -> Result<Vec<u16>, AllocError>
    ensures written { IfOk result (λ v. bytes_of v.items ≡ flat_map manager_bytes managers.now) }
    ensures read_back { IfOk result (λ v. AreManagers (bytes_of v.items) managers.now) }
{
    let mut words = Vec::new(alloc);
    for manager in managers {
        push_four(&mut words, manager_words(*manager))?;
    }
    Ok(words)
}
