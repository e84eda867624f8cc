// Items of RLE texts.

/// What a run is of.
#[derive(Clone, Copy, Debug, PartialEq, Eq)]
pub(crate) enum Tag {
    /// `b`
    Dead,
    /// `o`
    Live,
    /// `$`
    RowEnd,
}

/// So many cells or row ends.
#[derive(Clone, Copy, Debug, PartialEq, Eq)]
pub(crate) struct Item {
    pub count: u32,
    pub tag: Tag,
}
