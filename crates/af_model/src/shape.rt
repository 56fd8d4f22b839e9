/// The sizes of a block.
#[derive(Clone, Copy, Drop)]
pub struct Shape {
    /// How many frames may lie in it.
    pub frames: u32,
    /// How many cells it has.
    pub cells: u32,
    /// The position of the first frame.
    pub base: u32,
    /// Of a positional block how far apart the words of two flushes lie at least, a multiple of the cells; 0 of a block whose flushes are only counted.
    pub wrap: u32,
}
