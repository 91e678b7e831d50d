// Cards of 4,096 cells, the most that there are.
use crate::print_trim::Kept;
use rows::print::{Told, Words, in_front};
use rows::stations::{Change, GUARD};
use std::fmt::Display;
use std::io;
use std::ops::Range;

const CELLS: usize = 4096;

const WORDS: usize = 2 + 2 * CELLS;

// The first word names the last cell, and each cell the one below it, so the cells are found from the last to the first. Cell 0 names
// none.
fn chain() -> [u32; WORDS] {
    let mut card = [GUARD; WORDS];
    card[0] = 0x80111000;
    card[1] = 0x90000FFF;
    for cell in 0..4096u32 {
        let at = 2 + 2 * cell as usize;
        card[at] = 0xA0000000 + cell;
        card[at + 1] = 0xB0000000 + (cell + 65535) % 65536;
    }
    card
}

// How many words in front are the same in both.
fn alike(words: &[u32], others: &[u32]) -> usize {
    let both = words.iter().zip(others);
    both.take_while(|(w, v)| w == v).count()
}

// The zeros in front of the work, how far the trimmed card is the card itself, and some words of the room.
fn trim(
    rt: &impl Print,
    name: impl Display + Drop,
    card: &[u32],
    work: &mut [u32],
    out: &mut [u32],
    part: Range<usize>,
) -> io::Result<()> {
    let answer = Told(trimmer::trim(card, work, out).map(Kept));
    let zeros = in_front(work, 0);
    let alike = alike(out, card);
    let words = Words(out.get(part).unwrap_or(&[]));
    println!(rt; "trim {name}: {answer}, work {zeros} zero, out {alike} as in the card {words}")
}

// With a word of work and of room more than the chain needs.
fn trim_roomy(
    rt: &impl Print,
    name: impl Display + Drop,
    card: &[u32],
    part: Range<usize>,
) -> io::Result<()> {
    let mut work = [GUARD; CELLS + 1];
    let mut out = [GUARD; WORDS + 1];
    trim(rt, name, card, &mut work, &mut out, part)
}

// All cells are kept.
fn whole(rt: &impl Print) -> io::Result<()> {
    trim_roomy(rt, "a chain of 4096", &chain(), 8192..8195)
}

// A word of work too few, and a word of room too few.
fn short(rt: &impl Print) -> io::Result<()> {
    let name = "a chain of 4096";
    let card = chain();
    let mut work = [GUARD; CELLS - 1];
    let mut out = [GUARD; WORDS];
    trim(rt, name, &card, &mut work, &mut out, 8191..8194)?;
    let mut work = [GUARD; CELLS];
    let mut out = [GUARD; WORDS - 1];
    trim(rt, name, &card, &mut work, &mut out, 8191..8193)
}

fn trim_changed(rt: &impl Print, change: Change, part: Range<usize>) -> io::Result<()> {
    let mut card = chain();
    change.make(&mut card);
    let name = format_args!("a chain of 4096 with {change}");
    trim_roomy(rt, name, &card, part)
}

// A cell too many. Half the chain is kept; its end alone; the last cell alone, which then names none.
fn changes(rt: &impl Print) -> io::Result<()> {
    trim_changed(rt, Change(0, 0x80111001), 0..3)?;
    trim_changed(rt, Change(1, 0x90000800), 4098..4101)?;
    trim_changed(rt, Change(1, 0x90000000), 0..5)?;
    trim_changed(rt, Change(8193, 0xB000FFFF), 0..5)
}

pub(crate) fn rows(rt: &impl Print) -> io::Result<()> {
    whole(rt)?;
    short(rt)?;
    changes(rt)
}
