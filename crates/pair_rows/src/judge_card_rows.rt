// The judge of cards: the table checks, 13, 16, and 18 at the lowest word at fault. In the cards of A and C cell 0 is {0} and waits,
// cell 1 is {1} and doses.
use rows::print::{Fine, Told, Word};
use rows::stations::{
    self, A, A_CARD, C, C_CARD, Change, F_CARD, GUARD, STATES_12_CARD, With, changed,
};
use std::fmt::Display;
use std::io;

pub fn judge(
    rt: &impl Print,
    name: impl Display + Drop,
    table: &[u32],
    card: &[u32],
) -> io::Result<()> {
    let answer = Told(certificates::judge_card(table, card).map(Fine));
    println!(rt; "judge card {name}: {answer}")
}

// Some words of the card changed: A with its card, 9000FFFF at 1.
pub fn judge_changed<const N: usize>(
    rt: &impl Print,
    name: &str,
    table: &[u32],
    card: [u32; N],
    changes: &[Change],
) -> io::Result<()> {
    judge(
        rt,
        With(name, ", ", changes),
        table,
        &changed(card, changes),
    )
}

// Each of the words of the card changed alone.
fn judge_each_changed<const N: usize>(
    rt: &impl Print,
    name: &str,
    table: &[u32],
    card: [u32; N],
    changes: &[Change],
) -> io::Result<()> {
    for alone in changes.chunks(1) {
        judge_changed(rt, name, table, card, alone)?;
    }
    Ok(())
}

fn accepted(rt: &impl Print) -> io::Result<()> {
    let states = stations::STATES_12;
    judge(rt, "A with its card", &A, &A_CARD)?;
    judge(rt, "C with its card", &C, &C_CARD)?;
    judge(rt, "F with its card", &stations::F, &F_CARD)?;
    judge(rt, "n 12 with its card", &states, &STATES_12_CARD)
}

// The last action; the last observation, where it can occur and the card says that it can't.
fn limits(rt: &impl Print) -> io::Result<()> {
    let last: [u32; 4] = [0x80810001, 0x90000000, 0xA0700001, 0xB0000000];
    judge(rt, "a 8 with one cell", &stations::ACTIONS_8, &last)?;
    let card: [u32; 18] = [
        0x80180001, 0x90000000, 0x90010000, 0x90020000, 0x90030000, 0x90040000, 0x90050000,
        0x90060000, 0x90070000, 0xA0000001, 0xB0000000, 0xB0010000, 0xB0020000, 0xB0030000,
        0xB0040000, 0xB0050000, 0xB0060000, 0xB0070000,
    ];
    let table = stations::OBSERVATIONS_8;
    let unseen = Change(17, 0xB007FFFF);
    judge(rt, "o 8 with one cell", &table, &card)?;
    judge_changed(rt, "o 8 with one cell", &table, card, &[unseen])
}

// A card of 64 equal cells.
fn repeated(cell: u32, next: u32) -> [u32; 130] {
    let mut card = [GUARD; 130];
    for (i, word) in card.iter_mut().enumerate() {
        *word = match i {
            0 => 0x80110040,
            1 => 0x90000000,
            _ if i % 2 == 0 => cell,
            _ => next,
        };
    }
    card
}

// So many cells that the judge tabulates the moves first. At fault: the last word; the first cell, blocked in its last state.
fn many(rt: &impl Print) -> io::Result<()> {
    let name = "n 12 with 64 cells";
    let card = repeated(0xA0000FFF, 0xB0000000);
    let table = stations::STATES_12;
    judge(rt, name, &table, &card)?;
    judge_changed(rt, name, &table, card, &[Change(129, 0xB000FFFF)])?;
    let blocked = Change(15, 0x500B0000);
    let table = changed(table, &[blocked]);
    let name = format_args!("n 12, {blocked}, with 64 cells");
    judge(rt, name, &table, &card)
}

// Accepted, though the solver would not write it: cells in another order; where no state is bad the solver has one cell for all
// states, but A's smaller sets do.
fn drawn(rt: &impl Print) -> io::Result<()> {
    let swapped: [u32; 6] = [
        0x80210002, 0x90000001, 0xA0100002, 0xB0000001, 0xA0000001, 0xB0000000,
    ];
    judge(rt, "A with the cells of its card swapped", &A, &swapped)?;
    let harmless = changed(A, &[Change(2, 0x30000000)]);
    judge(rt, "A, 30000000 at 2, with its card", &harmless, &A_CARD)
}

// Up to state n - 1, and state n. Dosing is never blocked.
fn highest(rt: &impl Print) -> io::Result<()> {
    let name = "A, 30000000 at 2, with one cell";
    let harmless = changed(A, &[Change(2, 0x30000000)]);
    let card: [u32; 4] = [0x80210001, 0x90000000, 0xA0100007, 0xB0000000];
    judge(rt, name, &harmless, &card)?;
    judge_changed(rt, name, &harmless, card, &[Change(2, 0xA010000F)])
}

// A cell may be named where nothing is in question: no successor of {0} shows 0, none of {1} shows 1, and no start state shows 1.
fn wider(rt: &impl Print) -> io::Result<()> {
    judge_each_changed(
        rt,
        "C with its card",
        &C,
        C_CARD,
        &[Change(4, 0xB0000000), Change(8, 0xB0010001)],
    )?;
    let name = "C, 20000001 at 1, with its card";
    let table = changed(C, &[Change(1, 0x20000001)]);
    judge(rt, name, &table, &C_CARD)?;
    judge_changed(rt, name, &table, C_CARD, &[Change(2, 0x9001FFFF)])
}

// A third cell, which no play reaches.
fn judge_third(rt: &impl Print, cell: u32, next: u32) -> io::Result<()> {
    let card: [u32; 8] = [
        0x80210003, 0x90000000, 0xA0000001, 0xB0000001, 0xA0100002, 0xB0000000, cell, next,
    ];
    let cell = Word(cell);
    let next = Word(next);
    let name = format_args!("A with its card and a cell {cell} {next}");
    judge(rt, name, &A, &card)
}

// The empty set is fine with any action and any next cell, and so is cell 1 once more. Any set is judged, reached or not: {1} waits, which
// is blocked; {2} is bad; {1} doses, and what follows can occur.
fn unreached(rt: &impl Print) -> io::Result<()> {
    for (cell, next) in [
        (0xA0000000, 0xB000FFFF),
        (0xA0100000, 0xB0000001),
        (0xA0100002, 0xB0000000),
        (0xA0000002, 0xB000FFFF),
        (0xA0000004, 0xB0000002),
        (0xA0100002, 0xB000FFFF),
    ] {
        judge_third(rt, cell, next)?;
    }
    Ok(())
}

// The start states are not in the first cell; "cannot occur" where a start state shows it.
fn first_words(rt: &impl Print) -> io::Result<()> {
    judge(rt, "B with A's card", &stations::B, &A_CARD)?;
    judge_each_changed(
        rt,
        "A with its card",
        &A,
        A_CARD,
        &[Change(1, 0x90000001), Change(1, 0x9000FFFF)],
    )?;
    judge_each_changed(
        rt,
        "C with its card",
        &C,
        C_CARD,
        &[Change(2, 0x90010000), Change(2, 0x9001FFFF)],
    )
}

// A bad state in cell 0; states 3 and 11, which are from n up; waiting is blocked in state 1, of {0, 1} and of {1}.
fn cell_words(rt: &impl Print) -> io::Result<()> {
    judge_each_changed(
        rt,
        "A with its card",
        &A,
        A_CARD,
        &[
            Change(2, 0xA0000005),
            Change(2, 0xA0000009),
            Change(2, 0xA0000801),
            Change(2, 0xA0000003),
            Change(4, 0xA0000002),
        ],
    )
}

// The successors are not in the next cell: dosing in {0}; another cell; an empty set, which says too little though the card is safe.
// "Cannot occur" where a successor shows it.
fn next_words(rt: &impl Print) -> io::Result<()> {
    judge_each_changed(
        rt,
        "A with its card",
        &A,
        A_CARD,
        &[
            Change(2, 0xA0100001),
            Change(3, 0xB0000000),
            Change(5, 0xB0000001),
            Change(4, 0xA0100000),
            Change(3, 0xB000FFFF),
        ],
    )?;
    judge_each_changed(
        rt,
        "C with its card",
        &C,
        C_CARD,
        &[Change(5, 0xB001FFFF), Change(7, 0xB000FFFF)],
    )
}

// A blocked action has no successors, and loses all the same; in G it comes to that in the last cell. D's state is bad.
fn blocked(rt: &impl Print) -> io::Result<()> {
    let ended = Change(3, 0xB000FFFF);
    judge_changed(rt, "E with F's card", &stations::E, F_CARD, &[ended])?;
    judge(rt, "D with F's card", &stations::D, &F_CARD)?;
    let chain: [u32; 10] = [
        0x80110004, 0x90000000, 0xA0000001, 0xB0000001, 0xA0000002, 0xB0000002, 0xA0000004,
        0xB0000003, 0xA0000008, 0xB000FFFF,
    ];
    judge(rt, "G with a cell for each state", &stations::G, &chain)
}

// State 1 shows both observations. H starts in {0, 1}; from {0} alone its card is C's, but for 0 after waiting, which can occur. Last, both
// next words are at fault, and the lower one is told.
fn overlapping(rt: &impl Print) -> io::Result<()> {
    let name = "H, 20000001 at 1, with C's card";
    judge(rt, "H with C's card", &stations::H, &C_CARD)?;
    let table = changed(stations::H, &[Change(1, 0x20000001)]);
    judge(rt, name, &table, &C_CARD)?;
    judge_changed(rt, name, &table, C_CARD, &[Change(4, 0xB0000001)])?;
    judge_changed(rt, name, &table, C_CARD, &[Change(5, 0xB001FFFF)])
}

// With no card: 13 where the table is right.
fn judge_uncarded(rt: &impl Print, name: impl Display + Drop, table: &[u32]) -> io::Result<()> {
    judge(rt, format_args!("{name} with no card"), table, &[])
}

// The table checks before 13.
fn refused_tables(rt: &impl Print) -> io::Result<()> {
    judge_uncarded(rt, "no words", &[])?;
    judge_uncarded(rt, "10010200 alone", &[0x10010200])?;
    judge_uncarded(rt, "10010203 alone", &[0x10010203])?;
    for change in [
        Change(1, 0x30000001),
        Change(2, 0x30000008),
        Change(1, 0x20000000),
        Change(3, 0x40000003),
    ] {
        judge_uncarded(rt, format_args!("A, {change},"), &changed(A, &[change]))?;
    }
    judge_uncarded(rt, "A", &A)
}

// 13: the length; a mask from 4,096 up; and before 18, which would be at 1. Then 13 before 16, and 16 before 18, which would be at 3
// for F.
fn order(rt: &impl Print) -> io::Result<()> {
    let more = Change(0, 0x80210003);
    judge_each_changed(
        rt,
        "A with its card",
        &A,
        A_CARD,
        &[more, Change(2, 0xA0001000)],
    )?;
    judge_changed(
        rt,
        "A with its card",
        &A,
        A_CARD,
        &[Change(1, 0x9000FFFF), Change(4, 0xA0200002)],
    )?;
    judge_changed(rt, "C with A's card", &C, A_CARD, &[more])?;
    judge(rt, "C with A's card", &C, &A_CARD)?;
    judge(rt, "A with C's card", &A, &C_CARD)?;
    judge(rt, "F with A's card", &stations::F, &A_CARD)
}

// First words before cells, a cell's own word before its next words, these before the next cell, cells and observations in order.
fn lowest(rt: &impl Print) -> io::Result<()> {
    for changes in [
        [Change(1, 0x9000FFFF), Change(2, 0xA0000005)],
        [Change(2, 0xA0000005), Change(3, 0xB000FFFF)],
        [Change(3, 0xB000FFFF), Change(4, 0xA0100006)],
        [Change(2, 0xA0000005), Change(4, 0xA0100006)],
    ] {
        judge_changed(rt, "A with its card", &A, A_CARD, &changes)?;
    }
    judge_changed(
        rt,
        "C with its card",
        &C,
        C_CARD,
        &[Change(1, 0x9000FFFF), Change(2, 0x9001FFFF)],
    )
}

pub fn rows(rt: &impl Print) -> io::Result<()> {
    accepted(rt)?;
    limits(rt)?;
    many(rt)?;
    drawn(rt)?;
    highest(rt)?;
    wider(rt)?;
    unreached(rt)?;
    first_words(rt)?;
    cell_words(rt)?;
    next_words(rt)?;
    blocked(rt)?;
    overlapping(rt)?;
    refused_tables(rt)?;
    order(rt)?;
    lowest(rt)
}
