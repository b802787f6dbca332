// A printed line.
pub mod print;

ghost use Rattle.std.specs.Prelude.{◌≡◌, ◌≤◌, length};

// The most bytes of a printed line: two numbers of 64 bits, which have at most 20 digits each, a blank and a newline.
const SIZE: usize = 42;

// The bytes from `start` on are the line, with its newline. An array beside a start, since a line in an `ArrayString` gets no proof where
// it is passed by value and used again. No `FixedRow` either: the digits are written from the last to the first, so that the line ends
// where the array ends.
#[derive(Clone, Copy)]
pub struct Line {
    bytes: [u8; SIZE],
    start: usize,
    ghost size: { length bytes ≡ 42 },
    ghost within: { start ≤ 42 },
}
