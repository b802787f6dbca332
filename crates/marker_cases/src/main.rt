// Runs many listings, which standard input has one after another, each below a title. Prints each line with what it gives.
#![tactic(auto)]

use listing::listing::Listing;
use std::io;
use std::io::{BufRead, BufReader, BufWriter, Write};

// A title begins a new listing; any other line is a line of the listing.
fn show<W: Write>(output: &mut W, listing: &mut Listing, line: &[u8]) -> io::Result<()> {
    output.write_all(line)?;
    match line {
        [b'#', ..] => {
            *listing = Listing::new();
            output.write_all(b"\n")
        }
        _ => {
            output.write_all(b" > ")?;
            output.write_all(listing.line(line).as_slice())
        }
    }
}

fn main(rt: HostRuntime) -> io::Result<()> {
    let mut output = BufWriter::new(rt.alloc(), rt.stdout())?;
    let mut listing = Listing::new();
    for line in BufReader::new(rt.alloc(), rt.stdin())?.split(rt.alloc(), b'\n') {
        show(&mut output, &mut listing, line?.as_slice())?;
    }
    output.flush()
}
