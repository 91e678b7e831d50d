// A card run over a list of observations: the actions, or the first refusal and how many were taken before it. And a runner in a
// local, opened and moved: it goes on after a refusal, from the cell it stayed in.
use entry_rows::card_rows::Standing;
use games::Observation;
use rows::print::{Numbers, Refused, Words, Wrote};
use rows::stations::{A_CARD, C_CARD, Change, GUARD, changed};
use runner::{Ran, Stopped};
use std::fmt::{self, Display};
use std::io;

// What a run answers.
#[derive(Clone, Copy)]
struct Answered(Ran);

impl Display for Answered {
    fn fmt<W: fmt::Write>(&self, f: &mut fmt::Formatter<W>) -> fmt::Result {
        match self.0 {
            Ok(count) => write!(f, "{}", Wrote(count)),
            Err(Stopped { refusal, taken }) => { write!(f, "{} after {taken}", Refused(refusal)) }
        }
    }
}

// The answer to a run, and all words of the buffer.
fn print_run(
    rt: &impl Print,
    about: impl Display + Drop,
    card: &[u32],
    seen: &[u32],
    out: &mut [u32],
) -> io::Result<()> {
    let answer = Answered(runner::run(card, seen, out));
    let words = Words(out);
    println!(rt; "run {about}: {answer} {words}")
}

// Into five words.
fn run(rt: &impl Print, name: impl Display + Drop, card: &[u32], seen: &[u32]) -> io::Result<()> {
    let list = Numbers(seen);
    let about = format_args!("{name} {list}");
    print_run(rt, about, card, seen, &mut [GUARD; 5])
}

fn run_into(
    rt: &impl Print,
    name: &str,
    card: &[u32],
    seen: &[u32],
    out: &mut [u32],
) -> io::Result<()> {
    let room = out.len();
    let list = Numbers(seen);
    let about = format_args!("{name} {list} into {room}");
    print_run(rt, about, card, seen, out)
}

fn runs(rt: &impl Print) -> io::Result<()> {
    run(rt, "A", &A_CARD, &[0, 0, 0, 0])?;
    run(rt, "A", &A_CARD, &[0, 0, 1])?;
    run(rt, "A", &A_CARD, &[1])?;
    run(rt, "C", &C_CARD, &[0, 1, 0, 1])?;
    run(rt, "C", &C_CARD, &[1, 0, 1])?;
    run(rt, "C", &C_CARD, &[0, 0, 1])?;
    run(rt, "C", &C_CARD, &[0, 1, 1])?;
    run(rt, "C", &C_CARD, &[2])?;
    run(rt, "no card", &[], &[0])
}

// A's card with one word changed.
fn run_changed(rt: &impl Print, change: Change, seen: &[u32]) -> io::Result<()> {
    let card = changed(A_CARD, &[change]);
    run(rt, format_args!("A with {change}"), &card, seen)
}

// No observation: a card is taken, and a wrong one refused. 13 before 12.
fn unobserved(rt: &impl Print) -> io::Result<()> {
    run(rt, "A", &A_CARD, &[])?;
    run(rt, "no card", &[], &[])?;
    run_changed(rt, Change(0, 0x80210003), &[])?;
    run_changed(rt, Change(4, 0xA0200002), &[0, 9])
}

// Refusal 15, and a buffer that is just long enough.
fn rooms(rt: &impl Print) -> io::Result<()> {
    run_into(rt, "A", &A_CARD, &[0, 0, 0], &mut [GUARD; 3])?;
    run_into(rt, "A", &A_CARD, &[0, 0, 0], &mut [GUARD; 2])?;
    run_into(rt, "A", &A_CARD, &[0, 0, 0], &mut [])?;
    run_into(rt, "A", &A_CARD, &[], &mut [])
}

// 14 and 12 on the way, and 13, before 15.
fn order(rt: &impl Print) -> io::Result<()> {
    let mut short = [GUARD; 2];
    run_into(rt, "C", &C_CARD, &[0, 0, 1], &mut short)?;
    run_into(rt, "A", &A_CARD, &[0, 0, 1], &mut short)?;
    run_into(rt, "C", &C_CARD, &[0, 1, 0], &mut short)?;
    run_into(rt, "no card", &[], &[0], &mut [])
}

// The answers to three observations in turn, each with the cell that the runner is in after it.
fn drive(rt: &impl Print, name: &str, card: &[u32], seen: [u32; 3]) -> io::Result<()> {
    let [first, second, third] = seen;
    let driven = runner::drive(
        card,
        Observation(first),
        Observation(second),
        Observation(third),
    );
    for (count, stood) in [(1, driven.begun), (2, driven.moved), (3, driven.last)] {
        let taken = Numbers(&seen[..count]);
        let standing = Standing(stood);
        println!(rt; "drive {name} {taken}: {standing}")?;
    }
    Ok(())
}

fn driven(rt: &impl Print) -> io::Result<()> {
    drive(rt, "C", &C_CARD, [0, 0, 1])?;
    drive(rt, "C", &C_CARD, [1, 2, 0])?;
    drive(rt, "C", &C_CARD, [2, 0, 1])?;
    drive(rt, "no card", &[], [0, 0, 0])
}

pub(crate) fn rows(rt: &impl Print) -> io::Result<()> {
    runs(rt)?;
    unobserved(rt)?;
    rooms(rt)?;
    order(rt)?;
    driven(rt)
}
