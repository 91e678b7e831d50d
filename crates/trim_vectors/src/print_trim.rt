// The row of one trimming.
use cards::Extent;
use rows::print::{Numbers, Told, Words};
use rows::stations::GUARD;
use std::fmt::{self, Display};
use std::io;

// The words and the cells of the trimmed card.
#[derive(Clone, Copy)]
pub struct Kept(pub Extent);

impl Display for Kept {
    fn fmt<W: fmt::Write>(&self, f: &mut fmt::Formatter<W>) -> fmt::Result {
        let Extent { words, cells } = self.0;
        write!(f, "trimmed {words} {cells}")
    }
}

// The answer and all words of both buffers.
pub(crate) fn trim(
    rt: &impl Print,
    name: impl Display + Drop,
    card: &[u32],
    work: &mut [u32],
    out: &mut [u32],
) -> io::Result<()> {
    let answer = Told(trimmer::trim(card, work, out).map(Kept));
    let work = Numbers(work);
    let out = Words(out);
    println!(rt; "trim {name}: {answer}, work {work}, out {out}")
}

// With so many words of work and of room, at most 5 and 19: a word behind each is 3 and 7 for two cells and one observation, 3 and 10 for
// two cells and two observations, 5 and 11 for four cells and one observation.
pub(crate) fn trim_within(
    rt: &impl Print,
    name: impl Display + Drop,
    card: &[u32],
    work: usize,
    room: usize,
) -> io::Result<()> {
    let mut works = [GUARD; 5];
    let mut outs = [GUARD; 19];
    let out = &mut outs[..room.min(19)];
    trim(rt, name, card, &mut works[..work.min(5)], out)
}

// A card with its name, and the words of work and of room.
#[derive(Clone, Copy)]
pub struct Row<'a>(pub &'a str, pub &'a [u32], pub usize, pub usize);

pub(crate) fn trim_each(rt: &impl Print, rows: &[Row]) -> io::Result<()> {
    for Row(name, card, work, room) in rows {
        trim_within(rt, *name, card, *work, *room)?;
    }
    Ok(())
}
