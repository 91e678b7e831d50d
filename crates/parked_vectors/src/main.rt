// Runs the rows for parked states and prints what each entry answers and leaves in its buffers.
#![tactic(auto)]

mod answer_rows;
mod word_rows;

use std::io;

fn main(rt: HostRuntime) -> io::Result<()> {
    word_rows::rows(&rt)?;
    answer_rows::rows(&rt)
}
