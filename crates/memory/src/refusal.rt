// Why a memory refuses.
ghost use Rattle.std.specs.Prelude.{◌≡◌};
ghost use Rattle.memory.specs.Number.{number};

#[derive(Clone, Copy, PartialEq, Eq, Debug)]
pub enum Refusal {
    // the thread is not below 8, or the cell not below 64
    OutOfRange = 1,
    // 8 writes of the thread wait already
    BufferFull = 2,
    // land: no write of the thread waits
    NothingWaiting = 3,
    // exchange: a write of the thread waits
    WritesWaiting = 4,
    // tick: a write would wait longer than the bound
    WriteDue = 5,
    // tick: the clock has reached its end
    ClockAtEnd = 6,
    // a bound or limit out of range, or a layer over a memory that is not new
    NotMade = 7,
}

impl Refusal {
    // The number under which the refusal is reported.
    pub fn number(self) -> u8
        ensures { result ≡ number self }
    {
        self as u8
    }
}
