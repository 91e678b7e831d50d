// Refusals 13, 8 and 9 in their order, what is just inside, and what each leaves in the buffers.
use crate::kept_rows::TIGHTEST_CARD;
use crate::print_trim::{Row, trim_each, trim_within};
use rows::stations::{A_CARD, Change, changed};
use std::io;

// A's card with each of the words changed alone.
fn trim_each_changed(rt: &impl Print, changes: &[Change]) -> io::Result<()> {
    for change in changes {
        let card = changed(A_CARD, &[*change]);
        trim_within(rt, format_args!("A's card with {change}"), &card, 3, 7)?;
    }
    Ok(())
}

// m, o and a at their limits; a spare bit; another kind. With a right head the length is wrong, unless only a changed.
fn heads(rt: &impl Print) -> io::Result<()> {
    trim_each_changed(
        rt,
        &[
            Change(0, 0x80210000),
            Change(0, 0x80211000),
            Change(0, 0x80211001),
            Change(0, 0x80200002),
            Change(0, 0x80280002),
            Change(0, 0x80290002),
            Change(0, 0x80010002),
            Change(0, 0x80810002),
            Change(0, 0x80910002),
            Change(0, 0x81210002),
            Change(0, 0x90210002),
        ],
    )
}

fn lengths(rt: &impl Print) -> io::Result<()> {
    let long: [u32; 7] = [
        0x80210002, 0x90000000, 0xA0000001, 0xB0000001, 0xA0100002, 0xB0000000, 0xA0000000,
    ];
    trim_each(
        rt,
        &[
            Row("no words", &[], 3, 7),
            Row("A's card without its last word", &A_CARD[..5], 3, 7),
            Row("A's card and a word", &long, 3, 7),
        ],
    )?;
    trim_each_changed(rt, &[Change(0, 0x80210001), Change(0, 0x80210003)])
}

// Cell m - 1, cell m, the number below "cannot occur", and that; another observation; another kind.
fn first_words(rt: &impl Print) -> io::Result<()> {
    trim_each_changed(
        rt,
        &[
            Change(1, 0x90000001),
            Change(1, 0x90000002),
            Change(1, 0x9000FFFE),
            Change(1, 0x9000FFFF),
            Change(1, 0x90010000),
            Change(1, 0xB0000000),
        ],
    )
}

// The mask and the action at their limits, and a spare bit.
fn cell_words(rt: &impl Print) -> io::Result<()> {
    trim_each_changed(
        rt,
        &[
            Change(2, 0xA0000FFF),
            Change(2, 0xA0001000),
            Change(2, 0xA0100001),
            Change(2, 0xA0200001),
            Change(2, 0xA0010001),
        ],
    )
}

// As for the first words. In the first row nothing names cell 1 any more.
fn next_words(rt: &impl Print) -> io::Result<()> {
    trim_each_changed(
        rt,
        &[
            Change(3, 0xB000FFFF),
            Change(5, 0xB0000001),
            Change(5, 0xB0000002),
            Change(5, 0xB000FFFE),
            Change(5, 0xB000FFFF),
            Change(5, 0xB0010000),
        ],
    )
}

// The words of an idle cell are checked too, and the lowest wrong word is told.
fn idle_words(rt: &impl Print) -> io::Result<()> {
    let first = Change(3, 0xB0000002);
    let second = Change(5, 0xB0000002);
    let card = changed(TIGHTEST_CARD, &[first]);
    let name = format_args!("tightest's card with {first}");
    trim_within(rt, name, &card, 3, 7)?;
    let card = changed(card, &[second]);
    let name = format_args!("tightest's card with {first}, {second}");
    trim_within(rt, name, &card, 3, 7)
}

const ROOMS: [Row; 8] = [
    // Refusal 8: a word for each cell of the card, kept or not.
    Row("A's card", &A_CARD, 0, 6),
    Row("A's card", &A_CARD, 1, 6),
    Row("A's card", &A_CARD, 2, 6),
    Row("tightest's card", &TIGHTEST_CARD, 1, 4),
    // Refusal 9, which zeroes the work: the trimmed card may be shorter than the card.
    Row("A's card", &A_CARD, 3, 0),
    Row("A's card", &A_CARD, 3, 5),
    Row("tightest's card", &TIGHTEST_CARD, 3, 3),
    Row("tightest's card", &TIGHTEST_CARD, 3, 4),
];

// 13 before 8 and 9, 8 before 9.
fn order(rt: &impl Print) -> io::Result<()> {
    let head = Change(0, 0x80210003);
    let next = Change(5, 0xB0000002);
    trim_within(rt, "no words", &[], 0, 0)?;
    for (change, work, room) in [(head, 0, 0), (next, 1, 5)] {
        let card = changed(A_CARD, &[change]);
        let name = format_args!("A's card with {change}");
        trim_within(rt, name, &card, work, room)?;
    }
    trim_within(rt, "A's card", &A_CARD, 0, 0)?;
    trim_within(rt, "A's card", &A_CARD, 1, 5)
}

pub(crate) fn rows(rt: &impl Print) -> io::Result<()> {
    heads(rt)?;
    lengths(rt)?;
    first_words(rt)?;
    cell_words(rt)?;
    next_words(rt)?;
    idle_words(rt)?;
    trim_each(rt, &ROOMS)?;
    order(rt)
}
