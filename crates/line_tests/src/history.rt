//! A list that exists for contracts alone.

use sii_words::History;
use std::mem::size_of;

#[test]
fn takes_no_memory(rt: HostRuntime) {
    let mut history = History::new();
    for number in 0..1000u32 {
        history.note(&number);
    }
    assert!(rt; size_of::<History<u32>>() <= 1);
}
