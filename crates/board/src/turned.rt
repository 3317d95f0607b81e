/// What a turn answers.
// Two named cases, as the project names them; an idle turn is an answer, and not the want of one.
#[derive(Clone, Copy, PartialEq, Eq, Debug)]
pub enum Turned {
    /// The party was content: nothing changed.
    Idle,
    /// The party made an offer. All offers of the turn are counted, those of its chains too, and its chains.
    Moved { offers: u16, chains: u8 },
}
