// What is chosen and what fits of the links of found entries, by the indexes of entries.

/// A link by the index of the found entry that holds it, and by its place there.
#[derive(Clone, Copy, Debug, PartialEq, Eq)]
pub struct Choice {
    pub holder: usize,
    pub place: u64,
}

/// A fitted link by its place, and by the index of the found entry to which it leads.
#[derive(Clone, Copy, Debug, PartialEq, Eq)]
pub struct Fitted {
    pub place: u64,
    pub to: usize,
}

/// The links of a found entry, and that to it.
#[derive(Debug, Drop)]
pub struct Selected {
    /// The chosen link to it, where it is a directory and no start.
    pub chosen: Option<Choice>,
    /// Its own fitted links in the order of their places; none where it is not sound.
    pub fitted: Vec<Fitted>,
}
