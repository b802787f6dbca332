// The last call that a machine accepts.
use crate::listing::Listing;

// A machine accepts 8,000 calls; a refused call and a malformed line do not count.
#[test]
fn ends_after_8000_calls(rt: HostRuntime) {
    let mut listing = Listing::new();
    assert_eq!(rt;
        listing.line(b"2 0 2 1 1 2 3 2").as_slice(),
        b"0 0\n".as_slice()
    );
    for _ in 0..8000 {
        assert_eq!(rt; listing.line(b"l 0").as_slice(), b"18 0\n".as_slice());
        assert_eq!(rt; listing.line(b"x").as_slice(), b"38 0\n".as_slice());
        assert_eq!(rt; listing.line(b"t").as_slice(), b"0 0\n".as_slice());
    }
    assert_eq!(rt; listing.line(b"t").as_slice(), b"15 0\n".as_slice());
    assert_eq!(rt; listing.line(b"l 255").as_slice(), b"15 0\n".as_slice());
    assert_eq!(rt; listing.line(b"x").as_slice(), b"38 0\n".as_slice());
}
