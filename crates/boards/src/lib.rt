//! The worked boards, as records, and what must come out of them.
#![tactic(auto)]

#[cfg(test)]
mod tests;

/// The square board: S0 ranks L0, L1; S1 ranks L1, L0; L0 ranks S1, S0; L1 ranks S0, S1.
pub const SQUARE: [u32; 10] = [
    0x1000_0202,
    0x2000_0000,
    0x2000_0101,
    0x2001_0001,
    0x2001_0100,
    0x2002_0001,
    0x2002_0100,
    0x2003_0000,
    0x2003_0101,
    0x5000_0009,
];

/// The median board: S0 ranks L0, L1, L2; S1 ranks L1, L2, L0; S2 ranks L2, L0, L1; L0 ranks S1, S2, S0; L1 ranks S2, S0, S1;
/// L2 ranks S0, S1, S2. Of its three stable pairings, one gives everybody its second choice.
pub const MEDIAN: [u32; 20] = [
    0x1000_0303,
    0x2000_0000,
    0x2000_0101,
    0x2000_0202,
    0x2001_0001,
    0x2001_0102,
    0x2001_0200,
    0x2002_0002,
    0x2002_0100,
    0x2002_0201,
    0x2003_0001,
    0x2003_0102,
    0x2003_0200,
    0x2004_0002,
    0x2004_0100,
    0x2004_0201,
    0x2005_0000,
    0x2005_0101,
    0x2005_0202,
    0x5000_0013,
];

/// The withdrawal board: S0 ranks L2, L0; S1 ranks L1, L0; S2 ranks L2, L1; L0 ranks S1, S0; L1 ranks S2, S1; L2 ranks S2, S0.
pub const WITHDRAWAL: [u32; 14] = [
    0x1000_0303,
    0x2000_0002,
    0x2000_0100,
    0x2001_0001,
    0x2001_0100,
    0x2002_0002,
    0x2002_0101,
    0x2003_0001,
    0x2003_0100,
    0x2004_0002,
    0x2004_0101,
    0x2005_0002,
    0x2005_0100,
    0x5000_000d,
];

/// One stream, which ranks the one lane, and is not ranked by it.
pub const ONE_SIDED: [u32; 3] = [0x1000_0101, 0x2000_0000, 0x5000_0002];

/// The agreed board: S0 and S1 both rank L1 before L0, and L0 and L1 both rank S0 before S1.
pub const AGREED: [u32; 10] = [
    0x1000_0202,
    0x2000_0001,
    0x2000_0100,
    0x2001_0001,
    0x2001_0100,
    0x2002_0000,
    0x2002_0101,
    0x2003_0000,
    0x2003_0101,
    0x5000_0009,
];
