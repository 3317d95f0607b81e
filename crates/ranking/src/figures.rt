ghost use Rattle.std.specs.Prelude.{◌≡◌};
ghost use Rattle.ranking.specs.Figures.{stream_figured, lane_figured};

/// The figures of a stream: its rate, the wear that it wishes of a lane, and how far from its wish it goes.
#[derive(Clone, Copy, Default)]
pub struct StreamFigures {
    pub rate: u16,
    pub wish: u16,
    pub reach: u16,
}

/// The figures of a lane: its wear, the rate that it wishes of a stream, and how far from its wish it goes.
#[derive(Clone, Copy, Default)]
pub struct LaneFigures {
    pub wear: u16,
    pub wish: u16,
    pub reach: u16,
}

/// The figures of a party of either side: its own, a stream's rate or a lane's wear, its wish of the other side's,
/// and how far from its wish it goes.
#[derive(Clone, Copy, Default)]
pub struct PartyFigures {
    pub own: u16,
    pub wish: u16,
    pub reach: u16,
}

// Two types, so that streams and lanes are not taken for each other; each names its own figure, and so has its own conversion.
impl From<StreamFigures> for PartyFigures {
    ghost from_gives = { λ x y. y ≡ stream_figured x };

    fn from(stream: StreamFigures) -> PartyFigures {
        PartyFigures {
            own: stream.rate,
            wish: stream.wish,
            reach: stream.reach,
        }
    }
}

impl From<LaneFigures> for PartyFigures {
    ghost from_gives = { λ x y. y ≡ lane_figured x };

    fn from(lane: LaneFigures) -> PartyFigures {
        PartyFigures {
            own: lane.wear,
            wish: lane.wish,
            reach: lane.reach,
        }
    }
}
