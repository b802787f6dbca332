// A write that waits in a store buffer.
use dated::entry::Dated;

#[derive(Clone, Copy, PartialEq, Eq, Debug)]
pub struct Write {
    pub cell: usize,
    pub value: u64,
    // the clock when it was stored
    pub date: u32,
}

impl Dated for Write {
    ghost stamp = { λ w. w.date };

    fn date(&self) -> u32 {
        self.date
    }
}
