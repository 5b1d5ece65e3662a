use crate::rest::WordWrite;

/// What a half is doing. `left` is the number of further datagrams that will find it busy.
#[derive(Clone, Copy)]
pub(crate) enum Work {
    Idle,
    Reading { left: u32 },
    Writing { write: WordWrite, left: u32 },
}
