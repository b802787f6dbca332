// Printing a code and a value.
ghost use Rattle.std.specs.Prelude.{◌≡◌, ◌+◌, ◌≤◌, ◌++◌, length, drop};
ghost use Rattle.std.specs.Fmt.{decimal};
ghost use Rattle.protocol.specs.Codes.{code_of, value_of};
ghost use Rattle.lines.specs.Output.{printed, bytes_of};

use crate::line::{Line, SIZE};
use itoa::write_digits;
use protocol::answer::Answer;

// Writes the digits of a number so that they end before `end`, and tells where they start.
fn write_number(out: &mut [u8], end: usize, n: u64) -> usize
    requires { (length (decimal n) ≤ end) × (end ≤ length out.old) }
    ensures start { result + length (decimal n) ≡ end }
    ensures written { drop result out.new ≡ decimal n ++ drop end out.old }
{
    write_digits(n, out, end)
}

impl Line {
    // The code, a blank, the value and a newline, written from the last to the first.
    pub fn print(code: u64, value: u64) -> Line
        ensures { bytes_of result ≡ printed code value }
    {
        let mut bytes = [b'\n'; SIZE];
        let blank = write_number(&mut bytes, SIZE - 1, value) - 1;
        bytes[blank] = b' ';
        let start = write_number(&mut bytes, blank, code);
        Line { bytes, start }
    }

    // The bytes to write out.
    pub fn as_slice(&self) -> &[u8]
        ensures { result.now ≡ bytes_of self.now }
    {
        &self.bytes[self.start..]
    }
}

// The line of an answer.
impl From<Answer> for Line {
    ghost from_gives = { λ answer line. bytes_of line ≡ printed (code_of answer) (value_of answer) };

    fn from(answer: Answer) -> Line {
        let (code, value) = answer.pair();
        Line::print(code, value)
    }
}
