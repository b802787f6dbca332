// What is proved of every printed line. A call of this function does nothing: its contract is the theorem.
ghost use Rattle.lines.specs.Laws.{PrintedNumbersReadBack, NoZeroInFront};

// What is printed reads as the numbers that it was printed from, and has no zeros in front.
pub fn printed_numbers_read_back()
    ensures reads { PrintedNumbersReadBack }
    ensures front { NoZeroInFront }
{}
