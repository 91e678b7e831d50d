// Rows that write a card, and that read what was written.
use crate::rooms::{self, FREE, MOST_BYTES, MOST_WORDS};
use crate::source::{Source, Subject, from_column, number, word};
use rows::stations::{Change, GUARD};
use std::io;

// A row on the card of a subject: so much room, and the change of a word if it has one.
#[derive(Clone, Copy)]
struct Row<'a> {
    subject: Subject<'a>,
    room: usize,
    change: Option<Change>,
}

impl<'a> Row<'a> {
    fn of(subject: Subject<'a>, line: &[u8]) -> Row<'a> {
        let room = number(from_column(line, 2));
        let change = if 8 < line.len() {
            let place = number(from_column(line, 8));
            Some(Change(place, word(from_column(line, 14))))
        } else {
            None
        };
        Row {
            subject,
            room,
            change,
        }
    }

    // The card with its change, in front of the words.
    fn card<'c>(self, words: &'c mut [u32]) -> &'c mut [u32] {
        let card = self.subject.source.card(words);
        if let Some(change) = self.change {
            change.make(card);
        }
        card
    }

    // Whether the card is that of a text, its name, and the change of a word. No Display, since a name need not be text.
    fn print(self, rt: &impl Print) -> io::Result<()> {
        if let Source::Text(_) = self.subject.source {
            print!(rt; "the card of ")?;
        }
        rt.write_all(self.subject.name)?;
        if let Some(change) = self.change {
            print!(rt; " with {change}")?;
        }
        Ok(())
    }
}

impl Subject<'_> {
    pub(crate) fn write(self, rt: &impl Print, line: &[u8]) -> io::Result<()> {
        let row = Row::of(self, line);
        let mut words = [GUARD; MOST_WORDS];
        print!(rt; "write ")?;
        row.print(rt)?;
        rooms::write(rt, row.card(&mut words), row.room)
    }

    pub(crate) fn read_back(self, rt: &impl Print, line: &[u8]) -> io::Result<()> {
        let row = Row::of(self, line);
        let mut words = [GUARD; MOST_WORDS];
        let mut bytes = [FREE; MOST_BYTES];
        let written = kiss_writer::write(row.card(&mut words), &mut bytes).unwrap_or(0);
        let text = bytes.get(..written).unwrap_or(&[]);
        print!(rt; "read the text of ")?;
        row.print(rt)?;
        rooms::read(rt, text, row.room)
    }
}
