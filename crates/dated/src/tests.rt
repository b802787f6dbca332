// The functions on rows, at a small kind of entry.
ghost use Rattle.std.specs.Prelude.{◌==◌};

use crate::entry::{Dated, Rule};
use crate::fixed_row::{FixedRow, Full};
use crate::row::{append, keep, take_first};
use std::test::Fail;

#[derive(Clone, Copy)]
struct Note {
    date: u32,
    kind: u8,
}

impl Dated for Note {
    ghost stamp = { λ n. n.date };

    fn date(&self) -> u32 {
        self.date
    }
}

// Keeps the notes of one kind.
struct OfKind {
    kind: u8,
}

impl Rule<Note> for OfKind {
    ghost keeps = { λ r n. (n.kind == r.kind) };

    fn keeps(&self, entry: &Note) -> bool {
        entry.kind == self.kind
    }
}

const NOTES: [Note; 4] = [
    Note { date: 1, kind: 7 },
    Note { date: 2, kind: 8 },
    Note { date: 2, kind: 7 },
    Note { date: 5, kind: 7 },
];

#[test]
fn appends_while_there_is_a_place(rt: HostRuntime) {
    let mut notes = NOTES;
    assert_eq!(rt; append(&mut notes, 3, Note { date: 9, kind: 8 }), Some(4));
    assert_eq!(rt; notes[3].date, 9);
    assert_eq!(rt; append(&mut notes, 4, Note { date: 10, kind: 8 }), None);
    assert_eq!(rt; notes[3].date, 9);
}

#[test]
fn takes_the_oldest(rt: HostRuntime) -> Result<(), Fail> {
    let mut notes = NOTES;
    assert_eq!(rt; take_first(&mut notes, 3).ok_or("empty")?.date, 1);
    assert_eq!(rt; notes[0].kind, 8);
    assert_eq!(rt; notes[1].kind, 7);
    assert_eq!(rt; notes[3].date, 5);
    Ok(())
}

#[test]
fn takes_nothing_from_no_row(rt: HostRuntime) {
    let mut notes = NOTES;
    assert!(rt; take_first(&mut notes, 0).is_none());
    assert!(rt; take_first(&mut notes, 5).is_none());
    assert_eq!(rt; notes[0].date, 1);
}

#[test]
fn keeps_in_order(rt: HostRuntime) {
    let mut notes = NOTES;
    assert_eq!(rt; keep(&mut notes, 9, &OfKind { kind: 7 }), 3);
    assert_eq!(rt; notes[0].date, 1);
    assert_eq!(rt; notes[1].date, 2);
    assert_eq!(rt; notes[2].date, 5);
    assert_eq!(rt; notes[3].date, 5);
}

#[test]
fn a_fixed_row_fills_up(rt: HostRuntime) -> Result<(), Fail> {
    let mut row: FixedRow<u64, 3> = FixedRow::empty(0);
    assert_eq!(rt; row.as_slice().len(), 0);
    row.push(5)?;
    row.push(6)?;
    row.push(7)?;
    assert_eq!(rt; row.push(8), Err(Full));
    assert_eq!(rt; row.as_slice(), [5, 6, 7].as_slice());
    Ok(())
}

#[test]
fn a_fixed_row_repeats_an_entry(rt: HostRuntime) {
    let mut row: FixedRow<u64, 4> = FixedRow::repeat(9, 2);
    row.set(0, 1);
    row.set(2, 3);
    assert_eq!(rt; row.as_slice(), [1, 9].as_slice());
    let all: FixedRow<u64, 4> = FixedRow::repeat(9, 5);
    assert_eq!(rt; all.as_slice(), [9, 9, 9, 9].as_slice());
}

#[test]
fn a_fixed_row_of_notes(rt: HostRuntime) -> Result<(), Fail> {
    let mut row: FixedRow<Note, 4> = FixedRow::empty(NOTES[0]);
    for note in NOTES {
        row.append(note)?;
    }
    assert_eq!(rt; row.append(NOTES[0]), Err(Full));
    row.keep(&OfKind { kind: 7 });
    assert_eq!(rt; row.as_slice().len(), 3);
    assert_eq!(rt; row.take_first().ok_or("empty")?.date, 1);
    assert_eq!(rt; row.as_slice()[0].date, 2);
    assert_eq!(rt; row.as_slice()[1].date, 5);
    let copy = row;
    row.keep(&OfKind { kind: 9 });
    assert!(rt; row.take_first().is_none());
    assert_eq!(rt; copy.as_slice().len(), 2);
    Ok(())
}
