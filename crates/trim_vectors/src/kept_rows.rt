// Which cells are kept, in which order and with which numbers.
use crate::print_trim::{Row, trim, trim_each};
use rows::stations::{A_CARD, C_CARD, GUARD, STATES_12_CARD};
use std::io;

// The solver's card for the table `tightest`: no play uses cell 0.
pub const TIGHTEST_CARD: [u32; 6] = [
    0x80210002, 0x90000001, 0xA0000007, 0xB0000001, 0xA0100009, 0xB0000001,
];

// The one for the table `tied`: cells 0 and 2 are idle, and with cell 2 action 2 goes out of use.
const TIED_CARD: [u32; 8] = [
    0x80310003, 0x90000001, 0xA0000007, 0xB0000001, 0xA0100009, 0xB0000001, 0xA0200011, 0xB0000001,
];

// Cell 3 comes first, then cells 1 and 2; cell 0 names itself.
const TURNED_CARD: [u32; 10] = [
    0x80210004, 0x90000003, 0xA0000001, 0xB0000000, 0xA0000002, 0xB0000002, 0xA0100004, 0xB0000003,
    0xA0100008, 0xB0000001,
];

// Every first word names cell 1.
const WIDEST_CARD: [u32; 27] = [
    0x80880002, 0x90000001, 0x90010001, 0x90020001, 0x90030001, 0x90040001, 0x90050001, 0x90060001,
    0x90070001, 0xA0000001, 0xB0000000, 0xB0010000, 0xB0020000, 0xB0030000, 0xB0040000, 0xB0050000,
    0xB0060000, 0xB0070000, 0xA0700002, 0xB0000001, 0xB0010001, 0xB0020001, 0xB0030001, 0xB0040001,
    0xB0050001, 0xB0060001, 0xB007FFFF,
];

const OWN_CARD: [u32; 6] = [
    0x80210002, 0x90000000, 0xA0000001, 0xB0000000, 0xA0100002, 0xB0000001,
];

const BEHIND_CARD: [u32; 8] = [
    0x80210003, 0x90000000, 0xA0000001, 0xB0000000, 0xA0000002, 0xB0000002, 0xA0100004, 0xB0000000,
];

const PAIR_CARD: [u32; 10] = [
    0x80210004, 0x90000000, 0xA0000001, 0xB0000003, 0xA0000002, 0xB0000002, 0xA0000004, 0xB0000001,
    0xA0100008, 0xB0000000,
];

const ALONE_CARD: [u32; 6] = [
    0x80210002, 0x9000FFFF, 0xA0000001, 0xB000FFFF, 0xA0100002, 0xB0000000,
];

const FOLLOWED_CARD: [u32; 8] = [
    0x80210003, 0x9000FFFF, 0xA0000001, 0xB0000002, 0xA0000002, 0xB0000000, 0xA0100004, 0xB000FFFF,
];

const ONE_FIRST_CARD: [u32; 9] = [
    0x80220002, 0x9000FFFF, 0x90010001, 0xA0000001, 0xB0000000, 0xB0010000, 0xA0100002, 0xB0000001,
    0xB001FFFF,
];

const ROWS: [Row; 13] = [
    // Cards without idle cells stay as they are.
    Row("A's card", &A_CARD, 3, 7),
    Row("C's card", &C_CARD, 3, 10),
    Row("n 12's card", &STATES_12_CARD, 3, 7),
    Row("tightest's card", &TIGHTEST_CARD, 3, 7),
    Row("tied's card", &TIED_CARD, 5, 11),
    Row("a cell that only itself names", &OWN_CARD, 3, 7),
    // To be named is not enough: the cell that names must be reached.
    Row("a cell that only an idle one names", &BEHIND_CARD, 5, 11),
    Row("two idle cells that name each other", &PAIR_CARD, 5, 11),
    // The card's order, whichever cell is found first.
    Row("cells found as 3, 1, 2", &TURNED_CARD, 5, 11),
    // Cell 0 is kept where no first word names a cell, and only there.
    Row("no first cell", &ALONE_CARD, 3, 7),
    Row("no first cell, cell 2 behind cell 0", &FOLLOWED_CARD, 5, 11),
    Row(
        "one first cell for two observations",
        &ONE_FIRST_CARD,
        3,
        10,
    ),
    // The head keeps a and o.
    Row("a 8 o 8", &WIDEST_CARD, 3, 19),
];

// With just enough work and room; then the trimmed card once more.
fn twice(rt: &impl Print) -> io::Result<()> {
    let mut out = [GUARD; 4];
    trim(
        rt,
        "tightest's card",
        &TIGHTEST_CARD,
        &mut [GUARD; 2],
        &mut out,
    )?;
    let name = "tightest's card again";
    trim(rt, name, &out, &mut [GUARD; 1], &mut [GUARD; 4])
}

fn turned_twice(rt: &impl Print) -> io::Result<()> {
    let name = "cells found as 3, 1, 2";
    let mut out = [GUARD; 8];
    trim(rt, name, &TURNED_CARD, &mut [GUARD; 4], &mut out)?;
    let name = "cells found as 3, 1, 2 again";
    trim(rt, name, &out, &mut [GUARD; 3], &mut [GUARD; 8])
}

pub(crate) fn rows(rt: &impl Print) -> io::Result<()> {
    trim_each(rt, &ROWS)?;
    twice(rt)?;
    turned_twice(rt)
}
