use crate::sizes::Sizes;

/// A part of a record: words of the caller's own list, and the place of the first; where there is none, where it would be.
#[derive(Clone, Copy)]
pub struct Part<'a> {
    pub at: usize,
    pub words: &'a [u32],
}

/// What a record says: the sizes, and the choices, the turns and the pairs as parts of the caller's own words.
#[derive(Clone, Copy)]
pub struct Parts<'a> {
    pub sizes: Sizes,
    pub choices: Part<'a>,
    pub turns: Part<'a>,
    pub pairs: Part<'a>,
}
