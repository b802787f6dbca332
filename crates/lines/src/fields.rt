// Numbers in a line, with blanks between them.
ghost use Rattle.std.specs.Prelude.{◌≡◌, length};
ghost use Rattle.std.specs.Option.{option_map};
ghost use Rattle.lines.specs.Text.{number_in, numbers};

// The number that the bytes write, if they are digits and it is at most `limit`.
fn number(limit: u16, bytes: &[u8]) -> Option<u16>
    ensures { result ≡ number_in limit bytes.now }
{
    if bytes.is_empty() {
        return None;
    }
    let mut value: u32 = 0;
    for byte in bytes {
        if !byte.is_ascii_digit() {
            return None;
        }
        value = value * 10 + u32::from(*byte - b'0');
        // further digits would only make it larger
        if value > u32::from(limit) {
            return None;
        }
    }
    // nothing is cut off, which is proved; `try_from` would have a case that never comes
    Some(value as u16)
}

// One number for each place, each at most `limit`, with single blanks between them. The last field is all that is left of the line: it is not
// searched for a blank, which is no digit and so ends the reading of its number, as any other wrong byte does. Over a slice, since a loop beside
// a `SplitN` gets no goals in a function with a const parameter.
fn fill(limit: u16, line: &[u8], found: &mut [u16]) -> Option<()>
    ensures { option_map (λ _. found.new) result ≡ numbers limit (length found.old) line.now }
{
    if found.is_empty() {
        return None;
    }
    let mut fields = line.splitn(found.len(), |byte| *byte == b' ');
    for place in found {
        *place = number(limit, fields.next()?)?;
    }
    Some(())
}

// Exactly so many numbers, each at most `limit`, with single blanks between them.
pub(crate) fn numbers<const N: usize>(limit: u16, line: &[u8]) -> Option<[u16; N]>
    ensures { result ≡ numbers limit N line.now }
{
    let mut found = [0; N];
    fill(limit, line, &mut found)?;
    Some(found)
}
