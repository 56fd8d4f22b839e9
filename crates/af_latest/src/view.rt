//! What a seat at the table knows. No value of these types is made.
use af_model::{ReaderEvent, WriterEvent};
use std::collections::LinkedList;

/// What the writer has: the first content, its events, its slot, and whether that slot is out with it.
pub struct Writing<T> {
    pub first: Option<T>,
    pub events: LinkedList<WriterEvent<T>>,
    pub slot: u64,
    pub out: bool,
}

/// What the reader has: its events, its slot, whether that slot is out with it, and the value in it. It is `fresh` from a look that found a fresh value to the swap.
pub struct Reading<T> {
    pub events: LinkedList<ReaderEvent<T>>,
    pub slot: u64,
    pub out: bool,
    pub value: Option<T>,
    pub fresh: bool,
}

/// Each seat has the two parts, and says which of them are its own.
pub struct View<T> {
    pub writes: bool,
    pub writing: Writing<T>,
    pub reads: bool,
    pub reading: Reading<T>,
}
