// Reading a table into fields, and writing fields as words: refusals 2, 11, 5, 6, 7 and 10.
ghost use Rattle.std.specs.Prelude.{◌≡◌, MatchResult};
ghost use Rattle.fields.specs.Read.{read_of};
ghost use Rattle.rows.specs.Rows.{made};

use crate::print::{Fine, Numbers, Told, Words, Wrote};
use crate::stations::{self, A, Change, GUARD, changed};
use std::fmt::{self, Display};
use std::io;
use tables::Fields;

// Fields as a row prints them.
#[derive(Clone, Copy)]
struct Printed(Fields);

impl Display for Printed {
    fn fmt<W: fmt::Write>(&self, f: &mut fmt::Formatter<W>) -> fmt::Result {
        let fields = self.0;
        let numbers = [
            fields.states,
            fields.actions,
            fields.observations,
            fields.start,
            fields.bad,
        ];
        write!(f, "{}", Numbers(&numbers))?;
        if fields.marked {
            write!(f, " parked {}", fields.parked)?;
        }
        write!(f, " {} {}", Numbers(&fields.shown), Numbers(&fields.moves))
    }
}

pub fn read(rt: &impl Print, name: impl Display + Drop, table: &[u32]) -> io::Result<()> {
    let read = fields::read(table);
    let answer = Told(read.map(|_| Fine(())));
    let printed = Printed(read.unwrap_or(NO_FIELDS));
    println!(rt; "read {name}: {answer} {printed}")
}

fn reads(rt: &impl Print) -> io::Result<()> {
    read(rt, "A", &A)?;
    read(rt, "C", &stations::C)?;
    read(rt, "no words", &[])?;
    read(rt, "n 13", &stations::STATES_13)?;
    let unseen = Change(3, 0x40000003);
    read(rt, format_args!("A with {unseen}"), &changed(A, &[unseen]))
}

pub fn write(
    rt: &impl Print,
    name: impl Display + Drop,
    f: Fields,
    out: &mut [u32],
) -> io::Result<()> {
    let room = out.len();
    let answer = Told(fields::write(f, out).map(Wrote));
    let words = Words(out);
    println!(rt; "write {name} into {room}: {answer} {words}")
}

// What a row shows where a read is refused.
const NO_FIELDS: Fields = Fields {
    states: 0,
    actions: 0,
    observations: 0,
    start: 0,
    bad: 0,
    marked: false,
    parked: 0,
    shown: [0; tables::SHOWN_SLOTS],
    moves: [0; tables::MOVE_SLOTS],
};

// The fields of a table, or those.
pub fn fields_of(table: &[u32]) -> Fields
    ensures { MatchResult (read_of table.now) (λ f. result ≡ f) (λ _. result ≡ NO_FIELDS) }
{
    fields::read(table).unwrap_or(NO_FIELDS)
}

// What differs from A's fields.
#[derive(Clone, Copy)]
pub enum Difference {
    Numbers(u32, u32, u32),
    Sets(u32, u32),
    Reading(usize, u32),
    Move(usize, u32),
}

impl Display for Difference {
    fn fmt<W: fmt::Write>(&self, f: &mut fmt::Formatter<W>) -> fmt::Result {
        match *self {
            Difference::Numbers(n, a, o) => write!(f, "n {n} a {a} o {o}"),
            Difference::Sets(start, bad) => write!(f, "start {start} bad {bad}"),
            Difference::Reading(slot, mask) => write!(f, "reading {mask} in slot {slot}"),
            Difference::Move(slot, mask) => write!(f, "move {mask} in slot {slot}"),
        }
    }
}

impl Difference {
    // The fields with the difference.
    pub fn make(self, f: Fields) -> Fields
        ensures { result ≡ made self f }
    {
        match self {
            Difference::Numbers(n, a, o) => Fields {
                states: n,
                actions: a,
                observations: o,
                ..f
            },
            Difference::Sets(start, bad) => Fields { start, bad, ..f },
            Difference::Reading(slot, mask) => Fields {
                shown: changed(f.shown, &[Change(slot, mask)]),
                ..f
            },
            Difference::Move(slot, mask) => Fields {
                moves: changed(f.moves, &[Change(slot, mask)]),
                ..f
            },
        }
    }
}

// Read and written again. Last, what is shown where a read is refused.
fn written(rt: &impl Print) -> io::Result<()> {
    let fields = fields_of(&A);
    write(rt, "A", fields, &mut [GUARD; 10])?;
    write(rt, "A", fields, &mut [GUARD; 12])?;
    write(rt, "A", fields, &mut [GUARD; 9])?;
    write(rt, "A", fields, &mut [])?;
    write(rt, "C", fields_of(&stations::C), &mut [GUARD; 11])?;
    write(rt, "fields of 0", fields_of(&[]), &mut [GUARD; 2])
}

// All that the limits allow: 107 words, 108 with the parked set.
pub const WIDEST: Fields = Fields {
    states: 12,
    actions: 8,
    observations: 8,
    start: 4095,
    bad: 0,
    marked: false,
    parked: 0,
    shown: [4095; tables::SHOWN_SLOTS],
    moves: [4095; tables::MOVE_SLOTS],
};

fn written_widest(rt: &impl Print) -> io::Result<()> {
    write(rt, "n 12 a 8 o 8", WIDEST, &mut [GUARD; 108])?;
    write(rt, "n 12 a 8 o 8", WIDEST, &mut [GUARD; 106])
}

// A with one difference each, into ten words.
fn write_each(rt: &impl Print, differences: &[Difference]) -> io::Result<()> {
    let a = fields_of(&A);
    for difference in differences {
        let fields = difference.make(a);
        let mut out = [GUARD; 10];
        write(rt, format_args!("A with {difference}"), fields, &mut out)?;
    }
    Ok(())
}

// Refusals 2, 11, 5, 6 and 7, and what is just inside.
fn differences(rt: &impl Print) -> io::Result<()> {
    write_each(
        rt,
        &[
            Difference::Numbers(0, 2, 1),
            Difference::Numbers(13, 2, 1),
            Difference::Numbers(3, 0, 1),
            Difference::Numbers(3, 9, 1),
            Difference::Numbers(3, 2, 0),
            Difference::Numbers(3, 2, 9),
            Difference::Numbers(4294967295, 2, 1),
            Difference::Reading(1, 1),
            Difference::Reading(7, 1),
            Difference::Move(6, 1),
            Difference::Move(95, 1),
            Difference::Sets(7, 4),
            Difference::Sets(8, 4),
            Difference::Sets(65536, 4),
            Difference::Sets(1, 7),
            Difference::Sets(1, 8),
            Difference::Reading(0, 15),
            Difference::Move(5, 7),
            Difference::Move(5, 8),
            Difference::Sets(0, 4),
            Difference::Reading(0, 3),
            Difference::Reading(0, 0),
        ],
    )
}

// 2 before 11, 11 before 5; 5 before 6, 6 before 7, 7 before 10.
fn order(rt: &impl Print) -> io::Result<()> {
    let a = fields_of(&A);
    let beyond = Difference::Reading(1, 1);
    let unseen = Difference::Reading(0, 3);
    let numbers = beyond.make(Difference::Numbers(13, 2, 1).make(a));
    let name = "A with n 13 and reading 1 in slot 1";
    write(rt, name, numbers, &mut [GUARD; 10])?;
    let unshown = beyond.make(Difference::Sets(8, 4).make(a));
    let name = "A with start 8 and reading 1 in slot 1";
    write(rt, name, unshown, &mut [GUARD; 10])?;
    write_each(rt, &[Difference::Sets(0, 8)])?;
    let empty = unseen.make(Difference::Sets(0, 4).make(a));
    let name = "A with start 0 and reading 3 in slot 0";
    write(rt, name, empty, &mut [GUARD; 10])?;
    let name = format_args!("A with {unseen}");
    write(rt, name, unseen.make(a), &mut [GUARD; 9])
}

pub fn rows(rt: &impl Print) -> io::Result<()> {
    reads(rt)?;
    written(rt)?;
    written_widest(rt)?;
    differences(rt)?;
    order(rt)
}
