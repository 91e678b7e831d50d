// Runs the rows of document 01 and of document 02's changes 1 and 3, and prints what each entry answers and leaves in its buffers.
#![tactic(auto)]

use entry_rows::{card_rows, judge_rows, list_rows};
use pair_rows::{judge_card_rows, show_rows};
use rows::{check_rows, field_rows};
use std::io;

mod run_rows;

fn main(rt: HostRuntime) -> io::Result<()> {
    check_rows::rows(&rt)?;
    field_rows::rows(&rt)?;
    list_rows::rows(&rt)?;
    judge_rows::rows(&rt)?;
    card_rows::rows(&rt)?;
    solve_rows::rows(&rt)?;
    show_rows::rows(&rt)?;
    judge_card_rows::rows(&rt)?;
    run_rows::rows(&rt)
}
