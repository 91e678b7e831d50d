// The bit, its word and 19: the table checks, reading and writing.
use rows::check_rows::{check_changed, check_each, check_each_changed, check_heads};
use rows::field_rows::{Difference, WIDEST, fields_of, read, write};
use rows::stations::{self, A, Change, GUARD, MARKED_A, MIXED, PARKED_E};
use std::fmt::{self, Display};
use std::io;
use tables::Fields;

fn accepted(rt: &impl Print) -> io::Result<()> {
    check_each(
        rt,
        &[
            ("marked A", &MARKED_A),
            ("E parked", &PARKED_E),
            ("E parked and bad", &stations::BAD_E),
            ("G parked", &stations::PARKED_G),
            ("Q parked", &stations::PARKED_Q),
            ("mixed", &MIXED),
            ("n 12 parked", &stations::PARKED_12),
        ],
    )
}

// Bits 24 to 27: one of them is no longer spare.
fn heads(rt: &impl Print) -> io::Result<()> {
    check_heads(
        rt,
        &[0x11010203, 0x12010203, 0x13010203, 0x14010203, 0x18010203],
    )
}

// 3 with the bit alone and with the word alone; 4 and 5.
fn words(rt: &impl Print) -> io::Result<()> {
    check_changed(rt, "A", A, &[Change(0, 0x11010203)])?;
    check_each_changed(
        rt,
        "marked A",
        MARKED_A,
        &[
            Change(0, 0x10010203),
            Change(3, 0x70000000),
            Change(3, 0x40000000),
            Change(3, 0x60010000),
            Change(3, 0x60100000),
            Change(3, 0x61000000),
            Change(3, 0x68000000),
            Change(3, 0x70000008),
            Change(3, 0x60000008),
            Change(3, 0x60008000),
            Change(4, 0x60000000),
            Change(10, 0x50120008),
        ],
    )
}

// 19: state 1 has a successor under the second action alone.
fn departing(rt: &impl Print) -> io::Result<()> {
    check_each_changed(
        rt,
        "marked A",
        MARKED_A,
        &[
            Change(3, 0x60000001),
            Change(3, 0x60000002),
            Change(3, 0x60000004),
            Change(3, 0x60000006),
            Change(3, 0x60000007),
        ],
    )
}

// 5, 6 and 7 before 19.
fn order(rt: &impl Print) -> io::Result<()> {
    for changes in [
        [Change(3, 0x60000001), Change(10, 0x50120008)],
        [Change(1, 0x20000000), Change(3, 0x60000001)],
        [Change(3, 0x60000001), Change(4, 0x40000003)],
    ] {
        check_changed(rt, "marked A", MARKED_A, &changes)?;
    }
    check_each_changed(
        rt,
        "n 12 parked",
        stations::PARKED_12,
        &[Change(3, 0x60001000), Change(3, 0x60000C00)],
    )
}

fn read_and_written(rt: &impl Print) -> io::Result<()> {
    read(rt, "marked A", &MARKED_A)?;
    read(rt, "E parked", &PARKED_E)?;
    let fields = fields_of(&PARKED_E);
    write(rt, "E parked", fields, &mut [GUARD; 6])?;
    write(rt, "E parked", fields, &mut [GUARD; 5])?;
    let most = Fields {
        marked: true,
        ..WIDEST
    };
    write(rt, "marked n 12 a 8 o 8", most, &mut [GUARD; 108])?;
    write(rt, "marked n 12 a 8 o 8", most, &mut [GUARD; 107])
}

// A with parked states, and with the bit that says so or without. (No `Option`: a row without the bit has a mask too.)
#[derive(Clone, Copy)]
struct Parked(bool, u32);

impl Parked {
    fn fields(self) -> Fields {
        let Parked(marked, parked) = self;
        Fields {
            marked,
            parked,
            ..fields_of(&A)
        }
    }
}

impl Display for Parked {
    fn fmt<W: fmt::Write>(&self, f: &mut fmt::Formatter<W>) -> fmt::Result {
        let Parked(marked, mask) = *self;
        let name = if marked { "marked A" } else { "A" };
        write!(f, "{name} with parked {mask}")
    }
}

// The mask 0 without the bit and with it; 11 before 5; 5.
fn written(rt: &impl Print) -> io::Result<()> {
    for parked in [
        Parked(false, 0),
        Parked(false, 1),
        Parked(false, 8),
        Parked(true, 0),
        Parked(true, 8),
        Parked(true, 65536),
        Parked(true, 4),
    ] {
        write(rt, parked, parked.fields(), &mut [GUARD; 11])?;
    }
    Ok(())
}

// 7 before 19, 19 before 10.
fn unwritten(rt: &impl Print) -> io::Result<()> {
    let departing = Parked(true, 2);
    let seen = Parked(true, 1);
    let reading = Difference::Reading(0, 3);
    let unseen = reading.make(seen.fields());
    write(rt, format_args!("{seen} and {reading}"), unseen, &mut [])?;
    write(rt, departing, departing.fields(), &mut [])
}

pub(crate) fn rows(rt: &impl Print) -> io::Result<()> {
    accepted(rt)?;
    heads(rt)?;
    words(rt)?;
    departing(rt)?;
    order(rt)?;
    read_and_written(rt)?;
    written(rt)?;
    unwritten(rt)
}
