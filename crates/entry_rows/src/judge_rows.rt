// The plain judge: L, refusals 17 and 5 behind the table's.
use rows::print::Told;
use rows::stations::{self, A, Change, changed};
use std::fmt::{self, Display};
use std::io;

// Whether the set is good.
#[derive(Clone, Copy)]
struct IsGood(bool);

impl Display for IsGood {
    fn fmt<W: fmt::Write>(&self, f: &mut fmt::Formatter<W>) -> fmt::Result {
        f.write_str(if self.0 { "good" } else { "not good" })
    }
}

pub fn judge(
    rt: &impl Print,
    name: impl Display + Drop,
    table: &[u32],
    mask: u32,
    k: u32,
) -> io::Result<()> {
    let answer = Told(judge::judge(table, mask, k).map(IsGood));
    println!(rt; "judge {name} mask {mask} k {k}: {answer}")
}

// Masks, and numbers of moves.
pub fn judge_each(
    rt: &impl Print,
    name: &str,
    table: &[u32],
    asked: &[(u32, u32)],
) -> io::Result<()> {
    for (mask, k) in asked {
        judge(rt, name, table, *mask, *k)?;
    }
    Ok(())
}

// A's lists: (7), (3), (1 2).
fn station_a(rt: &impl Print) -> io::Result<()> {
    judge_each(
        rt,
        "A",
        &A,
        &[
            (3, 1),
            (3, 2),
            (7, 0),
            (7, 1),
            (4, 1),
            (1, 2),
            (2, 2),
            (1, 4),
            (2, 4),
            (0, 4),
        ],
    )
}

fn stations(rt: &impl Print) -> io::Result<()> {
    judge_each(rt, "C", &stations::C, &[(3, 1), (3, 2), (1, 4), (2, 4)])?;
    judge_each(rt, "D", &stations::D, &[(1, 0), (1, 1)])?;
    judge(rt, "E", &stations::E, 1, 1)?;
    judge(rt, "F", &stations::F, 1, 4)?;
    judge_each(rt, "G", &stations::G, &[(1, 3), (1, 4)])?;
    judge_each(rt, "H", &stations::H, &[(1, 2), (3, 2)])?;
    judge_each(rt, "n 12", &stations::STATES_12, &[(4095, 4), (4096, 4)])
}

// Refusals 17 and 5.
fn refusals(rt: &impl Print) -> io::Result<()> {
    judge_each(
        rt,
        "A",
        &A,
        &[
            (1, 5),
            (1, 4294967295),
            (8, 4),
            (8, 0),
            (4294967295, 4),
            (8, 5),
        ],
    )
}

fn refused_tables(rt: &impl Print) -> io::Result<()> {
    judge(rt, "no words", &[], 1, 1)?;
    judge(rt, "n 13", &stations::STATES_13, 1, 1)?;
    let wide = Change(2, 0x30000008);
    judge(
        rt,
        format_args!("A with {wide}"),
        &changed(A, &[wide]),
        8,
        9,
    )
}

pub fn rows(rt: &impl Print) -> io::Result<()> {
    station_a(rt)?;
    stations(rt)?;
    refusals(rt)?;
    refused_tables(rt)
}
