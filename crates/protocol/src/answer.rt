// What the machine answers: a code and a value.
ghost use Rattle.std.specs.Prelude.{◌≡◌};
ghost use Rattle.protocol.specs.Codes.{code_of, value_of, number_of, pair_of};

#[derive(Clone, Copy, PartialEq, Eq, Debug)]
pub enum Refusal {
    AlreadySetUp = 11,
    SettingsOutOfRange = 12,
    MemoryNotNew = 13,
    NotSetUp = 14,
    CallsUsedUp = 15,
    NoSuchThread = 16,
    TickRefused = 17,
    NothingWaiting = 18,
    ThreadBusy = 19,
    BadOperation = 20,
    GuardOrNode = 21,
    ListFull = 22,
    WrongSide = 23,
    ThreadIdle = 24,
    BufferFull = 25,
    WritesWaiting = 26,
}

// Refusals stand among the answers and not beside them in a `Result`, since every answer has one code and one value, a refusal too.
#[derive(Clone, Copy, PartialEq, Eq, Debug)]
pub enum Answer {
    // a set-up, tick, landing or begin was done
    Done,
    // the operation goes on with this step
    GoingOn(u64),
    // the operation ended well, with this value
    Ended(u64),
    // the root held no node
    Empty,
    // the root no longer held that node
    Moved,
    // the root held a node already, and this one is free again
    Occupied(u64),
    Refused(Refusal),
}

impl Refusal {
    pub fn number(self) -> u64
        ensures { result ≡ number_of self }
    {
        self as u64
    }
}

impl Answer {
    pub fn code(self) -> u64
        ensures { result ≡ code_of self }
    {
        match self {
            Answer::Done => 0,
            Answer::GoingOn(_) => 1,
            Answer::Ended(_) => 2,
            Answer::Empty => 3,
            Answer::Moved => 4,
            Answer::Occupied(_) => 5,
            Answer::Refused(refusal) => refusal.number(),
        }
    }

    // The code with the value, by which an answer is printed.
    pub fn pair(self) -> (u64, u64)
        ensures { result ≡ pair_of self }
    {
        (self.code(), self.value())
    }

    pub fn value(self) -> u64
        ensures { result ≡ value_of self }
    {
        match self {
            Answer::GoingOn(step) => step,
            Answer::Ended(value) => value,
            Answer::Occupied(node) => node,
            Answer::Done | Answer::Empty | Answer::Moved | Answer::Refused(_) => 0,
        }
    }
}
