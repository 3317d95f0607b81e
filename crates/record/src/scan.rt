use sets::Members;

/// What a reader keeps of the choices so far: the last owner, the place of its next choice, and whom it has named.
#[derive(Clone, Copy)]
pub struct ChoiceScan {
    pub(crate) owner: u8,
    pub(crate) next: u16,
    pub(crate) named: Members,
}

/// What a reader keeps of the turns so far: their count.
#[derive(Clone, Copy)]
pub struct TurnScan {
    pub(crate) count: u16,
}

/// What a reader keeps of the pairs so far: the lowest stream that may come next, and the lanes given.
#[derive(Clone, Copy)]
pub struct PairScan {
    pub(crate) floor: u16,
    pub(crate) given: Members,
}
