ghost use Rattle.std.specs.Prelude.{◌≡◌};
ghost use Rattle.sii_edit.specs.Guard.{is_other, is_same};

use crate::command::Expect;
use sii_words::{Identity, Words};

/// Whether vendor, product and revision are the expected ones. The serial number isn't compared.
fn is_same(expect: Expect, identity: Identity) -> bool
    ensures { result ≡ is_same expect identity }
{
    expect.vendor == identity.vendor
        && expect.product == identity.product
        && expect.revision == identity.revision
}

/// Whether the slave with these words has another identity than expected; never, if none is expected.
pub(crate) fn is_other(expect: Option<Expect>, words: &Words) -> bool
    ensures { result ≡ is_other expect words.now }
{
    match expect {
        Some(expect) => !is_same(expect, words.identity()),
        None => false,
    }
}
