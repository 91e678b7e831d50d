// A card's words, its opening and its steps: refusals 13, 12 and 14.
use cards::{Entered, Stood};
use games::{Cell, Observation};
use rows::print::{Fine, Told};
use rows::stations::{A_CARD, C_CARD, Change, changed};
use std::fmt::{self, Display};
use std::io;

fn check(rt: &impl Print, name: impl Display + Drop, card: &[u32]) -> io::Result<()> {
    let answer = Told(cards::check(card).map(Fine));
    println!(rt; "check card {name}: {answer}")
}

// The cell that was entered, and its action.
#[derive(Clone, Copy)]
struct In(Entered);

impl Display for In {
    fn fmt<W: fmt::Write>(&self, f: &mut fmt::Formatter<W>) -> fmt::Result {
        let cell = self.0.cell.0;
        let action = self.0.action.0;
        write!(f, "cell {cell} action {action}")
    }
}

// The cell and the action, or the refusal; then the cell that the runner is in.
#[derive(Clone, Copy)]
pub struct Standing(pub Stood);

impl Display for Standing {
    fn fmt<W: fmt::Write>(&self, f: &mut fmt::Formatter<W>) -> fmt::Result {
        let answer = Told(self.0.answer.map(In));
        let cell = self.0.cell.0;
        write!(f, "{answer}, now in {cell}")
    }
}

fn open(rt: &impl Print, name: impl Display + Drop, card: &[u32], seen: u32) -> io::Result<()> {
    let standing = Standing(cards::opening(card, Observation(seen)));
    println!(rt; "open card {name} on {seen}: {standing}")
}

fn step(
    rt: &impl Print,
    name: impl Display + Drop,
    card: &[u32],
    cell: u32,
    seen: u32,
) -> io::Result<()> {
    let standing = Standing(cards::moving(card, Cell(cell), Observation(seen)));
    println!(rt; "step card {name} from {cell} on {seen}: {standing}")
}

fn whole(rt: &impl Print) -> io::Result<()> {
    check(rt, "A", &A_CARD)?;
    check(rt, "C", &C_CARD)?;
    check(rt, "no words", &[])?;
    let long: [u32; 7] = [
        0x80210002, 0x90000000, 0xA0000001, 0xB0000001, 0xA0100002, 0xB0000000, 0xB0000000,
    ];
    check(rt, "A without its last word", &long[..5])?;
    check(rt, "A and a word", &long)
}

// A's card with each of the words changed alone.
fn check_each_changed(rt: &impl Print, changes: &[Change]) -> io::Result<()> {
    for change in changes {
        let card = changed(A_CARD, &[*change]);
        check(rt, format_args!("A with {change}"), &card)?;
    }
    Ok(())
}

// The head's numbers just inside and just outside; where the head is right, the length or a word may be wrong.
fn heads(rt: &impl Print) -> io::Result<()> {
    check_each_changed(
        rt,
        &[
            Change(0, 0x80210003),
            Change(0, 0x80210001),
            Change(0, 0x80210000),
            Change(0, 0x80211000),
            Change(0, 0x80211001),
            Change(0, 0x8021FFFF),
            Change(0, 0x80200002),
            Change(0, 0x80280002),
            Change(0, 0x80290002),
            Change(0, 0x80010002),
            Change(0, 0x80110002),
            Change(0, 0x80810002),
            Change(0, 0x80910002),
            Change(0, 0x90210002),
            Change(0, 0x81210002),
            Change(0, 0x88210002),
        ],
    )
}

fn words(rt: &impl Print) -> io::Result<()> {
    check_each_changed(
        rt,
        &[
            Change(1, 0x9000FFFF),
            Change(1, 0x90000001),
            Change(1, 0x90000002),
            Change(1, 0x90010000),
            Change(1, 0x90100000),
            Change(1, 0xB0000000),
            Change(2, 0xA0000FFF),
            Change(2, 0xA0001000),
            Change(2, 0xA0100001),
            Change(2, 0xA0200001),
            Change(2, 0xA0010001),
            Change(2, 0xA1000001),
            Change(3, 0xB000FFFF),
            Change(3, 0xB000FFFE),
            Change(3, 0xB0000002),
            Change(3, 0xB0010001),
            Change(3, 0xB0100001),
            Change(5, 0xB1000000),
            Change(5, 0xA0000000),
        ],
    )
}

fn openings(rt: &impl Print) -> io::Result<()> {
    for seen in [0, 1, 4294967295] {
        open(rt, "A", &A_CARD, seen)?;
    }
    for seen in [0, 1, 2] {
        open(rt, "C", &C_CARD, seen)?;
    }
    Ok(())
}

fn refused_openings(rt: &impl Print) -> io::Result<()> {
    open(rt, "no words", &[], 0)?;
    for (change, seen) in [(Change(0, 0x80210003), 9), (Change(1, 0x9000FFFF), 0)] {
        let card = changed(A_CARD, &[change]);
        open(rt, format_args!("A with {change}"), &card, seen)?;
    }
    Ok(())
}

// From cells, on observations.
fn step_each(rt: &impl Print, name: &str, card: &[u32], moves: &[(u32, u32)]) -> io::Result<()> {
    for (cell, seen) in moves {
        step(rt, name, card, *cell, *seen)?;
    }
    Ok(())
}

fn steps(rt: &impl Print) -> io::Result<()> {
    step_each(
        rt,
        "A",
        &A_CARD,
        &[
            (0, 0),
            (1, 0),
            (2, 0),
            (1, 1),
            (2, 3),
            (65535, 0),
            (4294967295, 0),
        ],
    )?;
    step_each(
        rt,
        "C",
        &C_CARD,
        &[(0, 0), (0, 1), (1, 0), (1, 1), (0, 2), (65535, 0)],
    )
}

// A's card with one word changed.
fn step_changed(rt: &impl Print, change: Change, cell: u32, seen: u32) -> io::Result<()> {
    let card = changed(A_CARD, &[change]);
    step(rt, format_args!("A with {change}"), &card, cell, seen)
}

// 13 before 12, from no cell too.
fn order(rt: &impl Print) -> io::Result<()> {
    step(rt, "no words", &[], 65535, 0)?;
    step_changed(rt, Change(0, 0x80210003), 65535, 0)?;
    step_changed(rt, Change(5, 0xB1000000), 2, 1)?;
    step_changed(rt, Change(4, 0xA0200002), 0, 0)
}

pub fn rows(rt: &impl Print) -> io::Result<()> {
    whole(rt)?;
    heads(rt)?;
    words(rt)?;
    openings(rt)?;
    refused_openings(rt)?;
    steps(rt)?;
    order(rt)
}
