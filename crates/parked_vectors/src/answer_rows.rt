// What goes by a table with parked states: the plain judge, solve, show and the judge of cards.
use entry_rows::judge_rows::{judge, judge_each};
use pair_rows::judge_card_rows;
use pair_rows::show_rows::show;
use rows::stations::{self, A_CARD, Change, GUARD, MARKED_A, MIXED, MIXED_CARD, PARKED_E, changed};
use solve_rows::{solve, solve_40};
use std::io;

// Parked states alone are good for every k, unless one is bad.
fn judged(rt: &impl Print) -> io::Result<()> {
    judge(rt, "E parked", &PARKED_E, 1, 4)?;
    judge_each(rt, "E parked and bad", &stations::BAD_E, &[(1, 0), (1, 1)])?;
    judge(rt, "G parked", &stations::PARKED_G, 15, 4)?;
    judge_each(rt, "mixed", &MIXED, &[(2, 4), (3, 4), (6, 0), (6, 1)])?;
    judge(rt, "marked A", &MARKED_A, 8, 4)?;
    let table = changed(MARKED_A, &[Change(3, 0x60000002)]);
    judge(rt, "marked A with 60000002 at 3", &table, 8, 5)
}

// A table with one word changed.
fn solve_changed<const N: usize>(
    rt: &impl Print,
    name: &str,
    table: [u32; N],
    change: Change,
) -> io::Result<()> {
    let table = changed(table, &[change]);
    solve_40(rt, format_args!("{name} with {change}"), &table)
}

// A yes where the twin without parked states is no; bad and parked; a round number that parking raises.
fn solved(rt: &impl Print) -> io::Result<()> {
    solve_40(rt, "E parked", &PARKED_E)?;
    solve_40(rt, "E parked and bad", &stations::BAD_E)?;
    solve_40(rt, "mixed", &MIXED)?;
    solve_changed(rt, "mixed", MIXED, Change(3, 0x60000000))?;
    solve_changed(rt, "mixed", MIXED, Change(2, 0x30000006))?;
    solve_40(rt, "marked A", &MARKED_A)?;
    let departing = changed(MARKED_A, &[Change(3, 0x60000002)]);
    let name = "marked A with 60000002 at 3";
    solve(rt, name, &departing, &mut [], &mut [])
}

fn four_states(rt: &impl Print) -> io::Result<()> {
    let stations: [(&str, &[u32]); 2] = [
        ("G parked", &stations::PARKED_G),
        ("Q parked", &stations::PARKED_Q),
    ];
    for (name, table) in stations {
        solve(rt, name, table, &mut [GUARD; 64], &mut [GUARD; 4])?;
    }
    Ok(())
}

fn shown(rt: &impl Print) -> io::Result<()> {
    show(rt, "marked A with A's card", &MARKED_A, &A_CARD, 0)?;
    show(rt, "marked A with A's card", &MARKED_A, &A_CARD, 1)?;
    show(rt, "mixed with its card", &MIXED, &MIXED_CARD, 0)?;
    let table = changed(MARKED_A, &[Change(3, 0x60000002)]);
    show(rt, "marked A, 60000002 at 3, with no card", &table, &[], 7)
}

// A parked member asks nothing of the action, unless it is bad; blocked it does. A next word may name any cell behind a parked set.
fn cards(rt: &impl Print) -> io::Result<()> {
    judge_card_rows::judge(rt, "marked A with A's card", &MARKED_A, &A_CARD)?;
    judge_card_rows::judge(rt, "mixed with its card", &MIXED, &MIXED_CARD)?;
    for change in [Change(3, 0x60000000), Change(2, 0x30000006)] {
        let table = changed(MIXED, &[change]);
        let name = format_args!("mixed, {change}, with its card");
        judge_card_rows::judge(rt, name, &table, &MIXED_CARD)?;
    }
    for change in [Change(2, 0xA0000003), Change(2, 0xA0000002)] {
        judge_card_rows::judge_changed(rt, "mixed with its card", &MIXED, MIXED_CARD, &[change])?;
    }
    Ok(())
}

pub(crate) fn rows(rt: &impl Print) -> io::Result<()> {
    judged(rt)?;
    solved(rt)?;
    four_states(rt)?;
    shown(rt)?;
    cards(rt)
}
