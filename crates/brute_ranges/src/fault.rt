//! What is wrong with the ranges of a search.

/// Why ranges are none of a search. The first one that holds is given, in this order: the number of tics, then
/// each tic in order, then the number of sequences.
#[derive(Clone, Copy, Debug, PartialEq, Eq)]
pub enum SpaceFault {
    /// There are this many tics, and not 1 to 35.
    Depth(usize),
    /// A range of this tic reaches beyond what a tic can hold, or its turn range has more numbers
    /// than a circle has turns: 256, and 65,536 in a long demo.
    Bounds(usize),
    /// A range of this tic has its low above its high.
    EmptyRange(usize),
    /// There are more than 2^40 sequences.
    TooMany,
    /// There was no memory.
    Memory,
}
