// What a step asks of the memory.
#[derive(Clone, Copy, PartialEq, Eq, Debug)]
pub enum Request {
    Load { cell: usize },
    Store { cell: usize, value: u64 },
    Exchange { cell: usize, old: u64, new: u64 },
    Clock,
    // the thread's writes have landed
    Fence,
    Nothing,
}
