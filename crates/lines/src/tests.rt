// Good and bad lines of every kind, and printed lines.
use crate::head::{Head, MemoryKind, UnknownMemory};
use crate::line::Line;
use crate::parse::{parse_call, parse_head};
use protocol::call::Call;
use protocol::settings::Settings;

const BAD_HEADS: [&[u8]; 20] = [
    b"",
    b" ",
    b"t",
    b"1 0 2 1 1 2 3",
    b"1 0 2 1 1 2 3 2 0",
    b"1 0 2 1 1 2 3 ",
    b"1 0 2 1 1 2 3 2 ",
    b" 1 0 2 1 1 2 3 2",
    b"1  0 2 1 1 2 3 2",
    b"1 0 2 1 1 2  3 2",
    b"1\t0 2 1 1 2 3 2",
    b"1 0 2 1 1 2 3 2\r",
    b"1 0 2 1 1 2 3 2\n",
    b"+1 0 2 1 1 2 3 2",
    b"1 0 2 1 1 2 3 -2",
    b"1 0 2 1 1 2 3 x",
    b"1 0 2 1 1 2 3 2\xff",
    b"1 0 2 1 1 2 3 65536",
    b"65536 0 2 1 1 2 3 2",
    b"1 0 18446744073709551617 1 1 2 3 2",
];

const BAD_CALLS: [&[u8]; 40] = [
    b"",
    b" ",
    b"1 0 2 1 1 2 3 2",
    b"T",
    b"tt",
    b"t ",
    b" t",
    b"t 0",
    b"t\r",
    b"\xf4",
    b"l",
    b"l ",
    b"l  1",
    b"l 1 ",
    b" l 1",
    b"l1",
    b"l\t1",
    b"l 1 2",
    b"l x",
    b"l +1",
    b"l 256",
    b"l 4294967297",
    b"l 18446744073709551616",
    b"l 1\xb2",
    b"s",
    b"s ",
    b"s -1",
    b"s 0 0",
    b"s 1:",
    b"s /1",
    b"s 0x1",
    b"x 1",
    b"b",
    b"b 0 4 0",
    b"b 0 4 0 1 ",
    b"b 0 4 0 1 2",
    b"b 0 4  0 1",
    b"b 256 4 0 1",
    b"b 0 4 0 256",
    b"b 0 4 0 1\r",
];

const GOOD_CALLS: [(&[u8], Call); 7] = [
    (b"t", Call::Tick),
    (b"l 0", Call::Land { thread: 0 }),
    (b"l 255", Call::Land { thread: 255 }),
    (b"s 7", Call::Step { thread: 7 }),
    (b"s 007", Call::Step { thread: 7 }),
    (
        b"b 1 10 0 64",
        Call::Begin {
            thread: 1,
            operation: 10,
            a: 0,
            b: 64,
        },
    ),
    (
        b"b 00 255 0255 1",
        Call::Begin {
            thread: 0,
            operation: 255,
            a: 255,
            b: 1,
        },
    ),
];

#[test]
fn refuses_bad_first_lines(rt: HostRuntime) {
    for line in BAD_HEADS {
        assert!(rt; parse_head(line).is_none());
    }
}

#[test]
fn refuses_bad_calls(rt: HostRuntime) {
    for line in BAD_CALLS {
        assert!(rt; parse_call(line).is_none());
    }
}

#[test]
fn reads_first_lines(rt: HostRuntime) {
    let plain = Head {
        memory: 1,
        limit: 0,
        settings: Settings {
            threads: 2,
            hazards: 1,
            roots: 3,
            nodes: 4,
            places: 5,
        },
        bound: 6,
    };
    assert_eq!(rt; parse_head(b"1 0 2 1 3 4 5 6"), Some(plain));
    let large = Head {
        memory: 65535,
        limit: 65534,
        settings: Settings {
            threads: 0,
            hazards: 0,
            roots: 7,
            nodes: 65535,
            places: 1,
        },
        bound: 10,
    };
    assert_eq!(rt;
        parse_head(b"65535 65534 0 00 007 0065535 1 10"),
        Some(large)
    );
}

#[test]
fn names_memories(rt: HostRuntime) {
    assert_eq!(rt; MemoryKind::try_from(1), Ok(MemoryKind::Held));
    assert_eq!(rt; MemoryKind::try_from(2), Ok(MemoryKind::Immediate));
    assert_eq!(rt; MemoryKind::try_from(3), Ok(MemoryKind::Quiescing));
    assert_eq!(rt; MemoryKind::try_from(0), Err(UnknownMemory(0)));
    assert_eq!(rt; MemoryKind::try_from(4), Err(UnknownMemory(4)));
}

#[test]
fn reads_calls(rt: HostRuntime) {
    for (line, call) in GOOD_CALLS {
        assert_eq!(rt; parse_call(line), Some(call));
    }
}

// A thousand zeros do not change a number, and the limit is on its value.
#[test]
fn reads_long_numbers(rt: HostRuntime) {
    let mut line = [b'0'; 1003];
    line[0] = b's';
    line[1] = b' ';
    line[1002] = b'5';
    assert_eq!(rt; parse_call(&line), Some(Call::Step { thread: 5 }));
    line[2] = b'1';
    assert!(rt; parse_call(&line).is_none());
}

#[test]
fn prints_lines(rt: HostRuntime) {
    assert_eq!(rt; Line::print(0, 0).as_slice(), b"0 0\n".as_slice());
    assert_eq!(rt; Line::print(2, 10).as_slice(), b"2 10\n".as_slice());
    assert_eq!(rt; Line::print(38, 0).as_slice(), b"38 0\n".as_slice());
    assert_eq!(rt; Line::print(255, 100).as_slice(), b"255 100\n".as_slice());
    let largest = Line::print(u64::MAX, 10000000000000000000);
    assert_eq!(rt;
        largest.as_slice(),
        b"18446744073709551615 10000000000000000000\n".as_slice()
    );
}
