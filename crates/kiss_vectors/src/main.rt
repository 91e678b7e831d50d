// Runs the rows for cards as KISS2 text that stand on standard input, and prints what the writer and the reader answer and leave in
// the room that they are lent. The input says what its lines are.
#![tactic(auto)]

mod card_rows;
mod rooms;
mod source;
mod text_rows;

use source::{Source, Subject, from_column};
use std::io;

// The most bytes that are read.
const INPUT_BYTES: usize = 65536;

// Each row with the name and the card or text that stand last before it, or what the first line gives for them. Lines are bytes, since
// a name need not be text.
fn run(rt: &impl Print, input: &[u8]) -> io::Result<()> {
    let is_end = |byte: &u8| *byte == b'\n';
    let first = input.split(is_end).next().unwrap_or(&[]);
    let mut subject = Subject {
        name: from_column(first, 2),
        source: Source::of(first),
    };
    for line in input.split(is_end) {
        match line.first() {
            Some(b'n') => subject.name = from_column(line, 2),
            Some(b'c' | b'k' | b't') => subject.source = Source::of(line),
            Some(b'w') => subject.write(rt, line)?,
            Some(b'b') => subject.read_back(rt, line)?,
            Some(b'r') => subject.read(rt, line)?,
            Some(b'e') => subject.read_edited(rt, line)?,
            _ => {}
        }
    }
    Ok(())
}

fn main(rt: HostRuntime) -> io::Result<()> {
    let mut bytes = [0u8; INPUT_BYTES];
    let input = words::read_full(&mut rt.stdin(), &mut bytes)?;
    run(&rt, input)
}
