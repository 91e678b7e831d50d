// One writing and one reading: the answer, and what stands in the room.
use cards::Extent;
use rows::print::{Told, Words, Wrote};
use rows::stations::GUARD;
use std::fmt::{self, Display};
use std::io;

// What each byte of a lent room holds before a call: `~`.
pub const FREE: u8 = b'~';

// Room for a card of 4,096 cells and one observation, and for its text.
pub const MOST_WORDS: usize = 8195;

pub const MOST_BYTES: usize = 73790;

// Bytes of a text. A newline is shown as `|`, as in the input.
#[derive(Clone, Copy)]
struct Bytes<'a>(&'a [u8]);

impl Display for Bytes<'_> {
    fn fmt<W: fmt::Write>(&self, f: &mut fmt::Formatter<W>) -> fmt::Result {
        for byte in self.0 {
            f.write_char(if *byte == b'\n' { '|' } else { *byte as char })?;
        }
        Ok(())
    }
}

// All bytes of a room; of a long one the first and the last.
#[derive(Clone, Copy)]
struct TextRoom<'a>(&'a [u8]);

impl Display for TextRoom<'_> {
    fn fmt<W: fmt::Write>(&self, f: &mut fmt::Formatter<W>) -> fmt::Result {
        let room = self.0;
        if room.len() < 500 {
            write!(f, "[{}]", Bytes(room))
        } else {
            let (first, _) = room.split_at(92);
            let (_, last) = room.split_at(room.len() - 40);
            let first = Bytes(first);
            let last = Bytes(last);
            write!(f, "[{first}] [{last}]")
        }
    }
}

// All words of a room; of a long one the last.
fn shown_words(room: &[u32]) -> Words<'_> {
    if room.len() < 100 {
        Words(room)
    } else {
        Words(&room[room.len() - 3..])
    }
}

// The words and the cells of a card that was read. (`trim_vectors` has such a one, with another word: `rows`, which both use, knows no cards.)
#[derive(Clone, Copy)]
struct Got(Extent);

impl Display for Got {
    fn fmt<W: fmt::Write>(&self, f: &mut fmt::Formatter<W>) -> fmt::Result {
        let Extent { words, cells } = self.0;
        write!(f, "read {words} {cells}")
    }
}

// Behind the name, with room for so many bytes; nothing where there is no such room.
pub(crate) fn write(rt: &impl Print, card: &[u32], room: usize) -> io::Result<()> {
    let mut bytes = [FREE; MOST_BYTES];
    let Some(out) = bytes.get_mut(..room) else {
        return Ok(());
    };
    let answer = Told(kiss_writer::write(card, out).map(Wrote));
    let text = TextRoom(out);
    println!(rt; " into {room}: {answer} {text}")
}

// Behind the name, with room for so many words; nothing where there is no such room.
pub(crate) fn read(rt: &impl Print, text: &[u8], room: usize) -> io::Result<()> {
    let mut words = [GUARD; MOST_WORDS];
    let Some(out) = words.get_mut(..room) else {
        return Ok(());
    };
    let answer = Told(kiss_reader::read(text, out).map(Got));
    let words = shown_words(out);
    println!(rt; " into {room}: {answer} {words}")
}
