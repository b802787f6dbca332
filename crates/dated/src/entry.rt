// What an entry of a row is, and what chooses among entries.
ghost use Rattle.std.specs.Prelude.{◌≡◌, ℕ, Bool};

// An entry that has a date, the clock when it was made.
pub trait Dated {
    ghost stamp: { Self → ℕ };

    fn date(&self) -> u32
        ensures { result ≡ stamp self.now };
}

// A rule that says of each entry whether it is kept. A trait, and no closure `F: Fn(&T) -> bool`: its ghost member names the rule as
// a function, so that contracts can say exactly which entries are kept; a closure's predicates only relate calls and results.
pub trait Rule<T> {
    ghost keeps: { Self → T → Bool };

    fn keeps(&self, entry: &T) -> bool
        ensures { result ≡ keeps self.now entry.now };
}
