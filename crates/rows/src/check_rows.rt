// Table checks: refusals 1 to 7, and tables at the limits.
use crate::print::{Fine, Told, Word};
use crate::stations::{self, A, Change, With, changed};
use std::fmt::Display;
use std::io;

fn check(rt: &impl Print, name: impl Display + Drop, table: &[u32]) -> io::Result<()> {
    let answer = Told(tables::check(table).map(Fine));
    println!(rt; "check {name}: {answer}")
}

pub fn check_each(rt: &impl Print, rows: &[(&str, &[u32])]) -> io::Result<()> {
    for (name, table) in rows {
        check(rt, *name, table)?;
    }
    Ok(())
}

// Each head alone: 3 where it is right.
pub fn check_heads(rt: &impl Print, heads: &[u32]) -> io::Result<()> {
    for head in heads {
        let word = Word(*head);
        check(rt, format_args!("{word} alone"), &[*head])?;
    }
    Ok(())
}

fn heads(rt: &impl Print) -> io::Result<()> {
    check_heads(
        rt,
        &[
            0x10010203, 0x10010200, 0x10010003, 0x10000203, 0x1001020C, 0x1001020D, 0x10010803,
            0x10010903, 0x10080203, 0x10090203, 0x100102FF, 0x00010203, 0x20010203, 0x11010203,
            0x18010203,
        ],
    )
}

fn limits(rt: &impl Print) -> io::Result<()> {
    check_each(
        rt,
        &[
            ("n 12", &stations::STATES_12),
            ("n 13", &stations::STATES_13),
            ("n 1", &stations::F),
            ("n 0", &stations::STATES_0),
            ("a 8", &stations::ACTIONS_8),
            ("a 9", &stations::ACTIONS_9),
            ("a 0", &stations::ACTIONS_0),
            ("o 8", &stations::OBSERVATIONS_8),
            ("o 9", &stations::OBSERVATIONS_9),
            ("o 0", &stations::OBSERVATIONS_0),
        ],
    )
}

fn lengths(rt: &impl Print) -> io::Result<()> {
    let long: [u32; 11] = [
        0x10010203, 0x20000001, 0x30000004, 0x40000007, 0x50000002, 0x50010000, 0x50020004,
        0x50100004, 0x50110001, 0x50120004, 0x50200000,
    ];
    check(rt, "A without its last word", &long[..9])?;
    check(rt, "A and a word", &long)?;
    check(rt, "no words", &[])?;
    check(rt, "10010200 00000000", &[0x10010200, 0])
}

// A table with some words changed.
pub fn check_changed<const N: usize>(
    rt: &impl Print,
    name: &str,
    table: [u32; N],
    changes: &[Change],
) -> io::Result<()> {
    check(rt, With(name, " with ", changes), &changed(table, changes))
}

// A table with each of the words changed alone.
pub fn check_each_changed<const N: usize>(
    rt: &impl Print,
    name: &str,
    table: [u32; N],
    changes: &[Change],
) -> io::Result<()> {
    for alone in changes.chunks(1) {
        check_changed(rt, name, table, alone)?;
    }
    Ok(())
}

// Refusal 4 (another kind, spare bits, another index); 5, with the masks just inside; 6 and 7.
fn changes(rt: &impl Print) -> io::Result<()> {
    check_each_changed(
        rt,
        "A",
        A,
        &[
            Change(1, 0x30000001),
            Change(1, 0x00000001),
            Change(1, 0x20010001),
            Change(1, 0x28000001),
            Change(2, 0x20000004),
            Change(2, 0x30100004),
            Change(3, 0x40010007),
            Change(3, 0x40100007),
            Change(3, 0x50000007),
            Change(4, 0x50010002),
            Change(5, 0x50000000),
            Change(7, 0x50200004),
            Change(9, 0x50020004),
            Change(9, 0x51120004),
            Change(1, 0x20000007),
            Change(1, 0x20000008),
            Change(1, 0x20008000),
            Change(2, 0x30000007),
            Change(2, 0x30000008),
            Change(3, 0x4000000F),
            Change(4, 0x50000007),
            Change(4, 0x50000008),
            Change(9, 0x50120007),
            Change(9, 0x50120008),
            Change(1, 0x20000000),
            Change(3, 0x40000003),
            Change(3, 0x40000005),
            Change(3, 0x40000000),
        ],
    )
}

// 4 before 5 within a word; the words in order; 5 before 6; 6 before 7; 2 before 3 is above.
fn order(rt: &impl Print) -> io::Result<()> {
    let rows: [&[Change]; 5] = [
        &[Change(1, 0x30000008)],
        &[Change(1, 0x20000008), Change(2, 0x20000004)],
        &[Change(1, 0x20000000), Change(9, 0x50120008)],
        &[Change(1, 0x20000000), Change(3, 0x40000003)],
        &[Change(3, 0x40000003), Change(9, 0x50130004)],
    ];
    for changes in rows {
        check_changed(rt, "A", A, changes)?;
    }
    Ok(())
}

pub fn rows(rt: &impl Print) -> io::Result<()> {
    check_each(rt, &stations::STATIONS)?;
    lengths(rt)?;
    heads(rt)?;
    limits(rt)?;
    changes(rt)?;
    order(rt)
}
