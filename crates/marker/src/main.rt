// Reads the lines of a listing from standard input and prints the line of each to standard output.
#![tactic(auto)]

ghost use Rattle.std.specs.Prelude.{◌≡◌};
ghost use Rattle.marker.specs.Trim.{without_newline};

use listing::listing::Listing;
use std::io;
use std::io::{BufRead, BufReader, BufWriter, Write};

// The line without the newline that ends it; the last line may have none.
fn trimmed(line: &[u8]) -> &[u8]
    ensures { result.now ≡ without_newline line.now }
{
    match line {
        [front @ .., b'\n'] => front,
        _ => line,
    }
}

// Where a line cannot be read, for want of memory too, nothing is printed for it. What was printed before is written out then too,
// as the writer is dropped.
fn main(rt: HostRuntime) -> io::Result<()> {
    let mut input = BufReader::new(rt.alloc(), rt.stdin())?;
    let mut output = BufWriter::new(rt.alloc(), rt.stdout())?;
    let mut listing = Listing::new();
    let mut line: Vec<u8> = Vec::new(rt.alloc());
    // One buffer serves every line, where `split` would make a `Vec` for each. The count is the form for reading to the end of an
    // input: a loop that reads has to have one, and no input has so many lines.
    for _ in 0..u64::MAX {
        line.clear();
        if input.read_until(b'\n', &mut line)? == 0 {
            break;
        }
        output.write_all(listing.line(trimmed(line.as_slice())).as_slice())?;
    }
    output.flush()
}
