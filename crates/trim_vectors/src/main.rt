// Runs the rows for the trimmer of cards and prints what it answers and leaves in its buffers.
#![tactic(auto)]

mod kept_rows;
mod many_rows;
mod print_trim;
mod refusal_rows;

use std::io;

fn main(rt: HostRuntime) -> io::Result<()> {
    kept_rows::rows(&rt)?;
    refusal_rows::rows(&rt)?;
    many_rows::rows(&rt)
}
