// Where a node is.
#[derive(Clone, Copy, PartialEq, Eq, Debug)]
pub enum NodeState {
    Free,
    // by the thread that publishes it
    Taken { thread: usize },
    Published { root: usize },
    // by the thread that is to retire it
    Removed { thread: usize },
    // in the list of the thread
    Retired { thread: usize },
}
