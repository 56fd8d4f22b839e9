//! The events of a newest-value cell: its writer's and its reader's.

/// What the writer of a cell did.
pub enum WriterEvent<T> {
    Store { value: T },
    /// So many of the reader's events stand before.
    Learn { count: u64 },
}

/// What the reader of a cell did.
pub enum ReaderEvent<T> {
    /// The reader was shown this value, the one stored under this number. The first content has the number 0.
    Load { number: u64, value: T },
    /// So many of the writer's events stand before.
    Learn { count: u64 },
}
