// Rows that read a text, its front, or the text with some bytes changed.
use crate::rooms::{self, FREE};
use crate::source::{Subject, TEXT_BYTES, fill, from_column, meant, number};
use std::io;

impl Subject<'_> {
    // The whole text, or as many bytes as the row says. Nothing is read where the room for a text is shorter.
    pub(crate) fn read(self, rt: &impl Print, line: &[u8]) -> io::Result<()> {
        let Subject { name, source } = self;
        let room = number(from_column(line, 2));
        let text = source.text();
        let mut bytes = [FREE; TEXT_BYTES];
        fill(&mut bytes, text.iter().copied().map(meant));
        print!(rt; "read ")?;
        rt.write_all(name)?;
        let mut count = text.len();
        if 8 < line.len() {
            count = number(from_column(line, 8));
            print!(rt; " cut at {count}")?;
        }
        match bytes.get(..count) {
            Some(front) => rooms::read(rt, front, room),
            None => Ok(()),
        }
    }

    // The text with a piece instead of the bytes between two places. No byte is read where the text has no such places.
    pub(crate) fn read_edited(self, rt: &impl Print, line: &[u8]) -> io::Result<()> {
        let Subject { name, source } = self;
        let room = number(from_column(line, 2));
        let from = number(from_column(line, 8));
        let to = number(from_column(line, 14));
        let piece = from_column(line, 20);
        let text = source.text();
        print!(rt; "read ")?;
        rt.write_all(name)?;
        print!(rt; " with \"")?;
        rt.write_all(piece)?;
        print!(rt; "\" for ")?;
        let Some(part) = text.get(from..to) else {
            print!(rt; " at {from}")?;
            return rooms::read(rt, &[], room);
        };
        print!(rt; "\"")?;
        rt.write_all(part)?;
        print!(rt; "\" at {from}")?;
        let front = text[..from].iter().copied();
        let back = text[to..].iter().copied();
        let edited = front.chain(piece.iter().copied()).chain(back);
        let mut bytes = [FREE; TEXT_BYTES];
        rooms::read(rt, fill(&mut bytes, edited.map(meant)), room)
    }
}
