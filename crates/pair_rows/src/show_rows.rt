// Show: the move words of a cell's action, and refusals 13, 16 and 12 behind the table's.
use games::Cell;
use rows::print::{Told, Words};
use rows::stations::{self, A, A_CARD, C, C_CARD, Change, changed};
use show::Part;
use std::fmt::{self, Display};
use std::io;

// Where the part of the table begins, and how many words it has.
#[derive(Clone, Copy)]
struct Found(Part);

impl Display for Found {
    fn fmt<W: fmt::Write>(&self, f: &mut fmt::Formatter<W>) -> fmt::Result {
        let Part { offset, length } = self.0;
        write!(f, "part {offset} {length}")
    }
}

pub fn show(
    rt: &impl Print,
    name: impl Display + Drop,
    table: &[u32],
    card: &[u32],
    cell: u32,
) -> io::Result<()> {
    let answer = Told(show::find(table, card, Cell(cell)).map(Found));
    let words = Words(show::show(table, card, Cell(cell)));
    println!(rt; "show {name} cell {cell}: {answer} {words}")
}

fn parts(rt: &impl Print) -> io::Result<()> {
    for cell in [0, 1, 2, 65535] {
        show(rt, "A with its card", &A, &A_CARD, cell)?;
    }
    for cell in [0, 1, 2] {
        show(rt, "C with its card", &C, &C_CARD, cell)?;
    }
    Ok(())
}

// Another number of observations, or of actions.
fn other_cards(rt: &impl Print) -> io::Result<()> {
    show(rt, "C with A's card", &C, &A_CARD, 0)?;
    show(rt, "A with C's card", &A, &C_CARD, 0)?;
    show(rt, "F with A's card", &stations::F, &A_CARD, 0)
}

// The table before 13, 13 before 16, 16 before 12.
fn order(rt: &impl Print) -> io::Result<()> {
    let wide = changed(A, &[Change(2, 0x30000008)]);
    show(rt, "A, 30000008 at 2, with no card", &wide, &[], 7)?;
    show(rt, "A with no card", &A, &[], 0)?;
    let head = changed(A_CARD, &[Change(0, 0x80210003)]);
    show(rt, "C with A's card, 80210003 at 0,", &C, &head, 7)?;
    show(rt, "C with A's card", &C, &A_CARD, 7)
}

pub fn rows(rt: &impl Print) -> io::Result<()> {
    parts(rt)?;
    other_cards(rt)?;
    order(rt)
}
