// Solving: the stations, refusals 8 and 9, and what is left in the buffers.
#![tactic(auto)]

use rows::print::{Told, Words, in_front};
use rows::stations::{self, A, B, Change, GUARD, changed};
use solver::Verdict;
use std::fmt::{self, Display};
use std::io;

// Yes, with the settled round and the cells; or no, with the round that lost the start.
#[derive(Clone, Copy)]
struct Solved(Verdict);

impl Display for Solved {
    fn fmt<W: fmt::Write>(&self, f: &mut fmt::Formatter<W>) -> fmt::Result {
        match self.0 {
            Verdict::Yes(settled, cells) => write!(f, "yes {settled} {cells}"),
            Verdict::No(round) => write!(f, "no {round}"),
        }
    }
}

// The zeros in front of the work, and the words behind them that kept what they held.
#[derive(Clone, Copy)]
struct Work<'a>(&'a [u32]);

impl Display for Work<'_> {
    fn fmt<W: fmt::Write>(&self, f: &mut fmt::Formatter<W>) -> fmt::Result {
        let zeros = in_front(self.0, 0);
        let kept = in_front(self.0.get(zeros..).unwrap_or(&[]), GUARD);
        write!(f, "{zeros} zero {kept} kept")
    }
}

pub fn solve(
    rt: &impl Print,
    name: impl Display + Drop,
    table: &[u32],
    work: &mut [u32],
    card: &mut [u32],
) -> io::Result<()> {
    let room = work.len();
    let words = card.len();
    let answer = Told(solver::solve(table, work, card).map(Solved));
    let work = Work(work);
    let card = Words(card);
    println!(rt; "solve {name} work {room} card {words}: {answer}, work {work}, card {card}")
}

// Work for three states, and eight words behind it.
pub fn solve_40(rt: &impl Print, name: impl Display + Drop, table: &[u32]) -> io::Result<()> {
    solve(rt, name, table, &mut [GUARD; 40], &mut [GUARD; 10])
}

fn stations(rt: &impl Print) -> io::Result<()> {
    for (name, table) in stations::STATIONS {
        solve_40(rt, name, table)?;
    }
    Ok(())
}

fn four_states(rt: &impl Print) -> io::Result<()> {
    solve(rt, "G", &stations::G, &mut [GUARD; 72], &mut [GUARD; 10])
}

fn twelve_states(rt: &impl Print) -> io::Result<()> {
    let table = stations::STATES_12;
    solve(rt, "n 12", &table, &mut [GUARD; 16392], &mut [GUARD; 10])?;
    solve(rt, "n 12", &table, &mut [GUARD; 16383], &mut [GUARD; 10])
}

// Refusal 8, and just enough work.
fn work_rooms(rt: &impl Print) -> io::Result<()> {
    let mut card = [GUARD; 6];
    solve(rt, "A", &A, &mut [GUARD; 31], &mut card)?;
    solve(rt, "A", &A, &mut [GUARD; 32], &mut card)
}

// Refusal 9, which zeroes the work; a no needs no card.
fn card_rooms(rt: &impl Print) -> io::Result<()> {
    solve(rt, "A", &A, &mut [GUARD; 32], &mut [GUARD; 5])?;
    solve(rt, "A", &A, &mut [GUARD; 32], &mut [])?;
    solve(rt, "B", &B, &mut [GUARD; 32], &mut [])
}

// The table before 8, 8 before 9.
fn order(rt: &impl Print) -> io::Result<()> {
    solve_40(rt, "no words", &[])?;
    solve_40(rt, "n 13", &stations::STATES_13)?;
    let unseen = changed(A, &[Change(3, 0x40000003)]);
    solve(rt, "A with 40000003 at 3", &unseen, &mut [], &mut [])?;
    solve(rt, "A", &A, &mut [], &mut [])
}

// Every move leads to state 0. Action 0 is enabled at 0, 1 and 2, action 1 at 0 and 3: {0} is in both cells, the second has fewer states.
const TIGHTEST: [u32; 12] = [
    0x10010204, 0x20000001, 0x30000000, 0x4000000F, 0x50000001, 0x50010001, 0x50020001, 0x50030000,
    0x50100001, 0x50110000, 0x50120000, 0x50130001,
];

// The same with action 2, enabled at 0 and 4: the third cell has as few states as the second.
const TIED: [u32; 19] = [
    0x10010305, 0x20000001, 0x30000000, 0x4000001F, 0x50000001, 0x50010001, 0x50020001, 0x50030000,
    0x50040000, 0x50100001, 0x50110000, 0x50120000, 0x50130001, 0x50140000, 0x50200001, 0x50210000,
    0x50220000, 0x50230000, 0x50240001,
];

// Cells that overlap.
fn overlapping(rt: &impl Print) -> io::Result<()> {
    solve(rt, "tightest", &TIGHTEST, &mut [GUARD; 72], &mut [GUARD; 8])?;
    solve(rt, "tied", &TIED, &mut [GUARD; 136], &mut [GUARD; 10])
}

pub fn rows(rt: &impl Print) -> io::Result<()> {
    stations(rt)?;
    overlapping(rt)?;
    four_states(rt)?;
    twelve_states(rt)?;
    work_rooms(rt)?;
    card_rooms(rt)?;
    order(rt)
}
