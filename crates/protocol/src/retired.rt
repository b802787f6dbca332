// A node in a retire list, with the clock of its retirement.
use dated::entry::Dated;

#[derive(Clone, Copy, PartialEq, Eq, Debug)]
pub struct Retired {
    pub node: usize,
    pub date: u32,
}

impl Dated for Retired {
    ghost stamp = { λ r. r.date };

    fn date(&self) -> u32 {
        self.date
    }
}
