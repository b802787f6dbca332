// What a thread can be told to do, with the arguments that it uses.
#[derive(Clone, Copy, PartialEq, Eq, Debug)]
pub enum Operation {
    Protect { root: usize, hazard: usize },
    Copy { from: usize, to: usize },
    Release { hazard: usize },
    Publish { root: usize, node: usize },
    Remove { root: usize },
    Reclaim,
    OwnerLock,
    OwnerUnlock,
    OtherLock,
    OtherUnlock,
}
