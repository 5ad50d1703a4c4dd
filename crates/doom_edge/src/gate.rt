// A place that the workers of a search pass.

/// What a search tells of its course while it runs. Neither call gives anything back, so neither can change an
/// answer: a test holds workers up with `at`, to see that there is more than one, and the program may show with
/// both how far a search has come.
pub trait Gate {
    /// A search of `count` sequences is about to start its workers.
    fn begin(&self, count: u64);

    /// Worker `worker` is about to try block `block`, after its claim and before the block's first try. Both are
    /// counted from 0.
    fn at(&self, worker: u32, block: u64);
}

/// The gate that is always open, which the program uses.
#[derive(Clone, Copy, Debug, PartialEq, Eq)]
pub struct NoGate;

impl Gate for NoGate {
    fn begin(&self, _count: u64) {}

    fn at(&self, _worker: u32, _block: u64) {}
}
