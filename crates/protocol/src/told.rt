// What the memory told in a call.
ghost use Rattle.std.specs.Prelude.{◌≡◌};
ghost use Rattle.protocol.specs.Plain.{told_of};
ghost use Rattle.protocol.specs.Steps.{value_told, clock_told};

#[derive(Clone, Copy, PartialEq, Eq, Debug)]
pub enum Told {
    Nothing,
    Clock(u32),
    // the value loaded
    Value(u64),
    // whether the exchange was done
    Done(bool),
}

impl Told {
    // The value loaded, 0 where none was.
    pub fn value(self) -> u64
        ensures { result ≡ value_told (told_of self) }
    {
        match self {
            Told::Value(value) => value,
            Told::Nothing | Told::Clock(_) | Told::Done(_) => 0,
        }
    }

    // The clock read, 0 where none was.
    pub fn clock(self) -> u32
        ensures { result ≡ clock_told (told_of self) }
    {
        match self {
            Told::Clock(clock) => clock,
            Told::Nothing | Told::Value(_) | Told::Done(_) => 0,
        }
    }
}
