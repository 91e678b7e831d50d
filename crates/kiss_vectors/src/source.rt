// What rows are about: the card or the text of a line, and what its columns hold.
ghost use Rattle.std.specs.Prelude.{◌≡◌, ◌≤◌, drop};
ghost use Rattle.std.specs.Iterator.{IsFinite};
ghost use Rattle.kiss_vectors.specs.Input.{meant, digit, value, text_of, letter_of, known, letter};

use crate::rooms::FREE;

// A text has up to so many bytes.
pub const TEXT_BYTES: usize = 500;

// A card that a line gives has up to so many words, each in eight columns with one between them.
const LINE_WORDS: usize = 100;

const WORD_COLUMNS: usize = 9;

// What a line gives, with the bytes behind its letter.
#[derive(Clone, Copy)]
pub enum Source<'a> {
    // a card's words
    Words(&'a [u8]),
    // the card of 4,096 cells
    Chain(&'a [u8]),
    Text(&'a [u8]),
}

// A card or a text with its name: what the rows behind it are about.
#[derive(Clone, Copy)]
pub struct Subject<'a> {
    pub name: &'a [u8],
    pub source: Source<'a>,
}

// Puts the items in front of the room, as far as there is room for them, and answers that front.
pub(crate) fn fill<T: Copy, I: Iterator<Item = T> + Drop>(room: &mut [T], items: I) -> &mut [T]
    requires { I.Iterator.can_next items × IsFinite (I.Iterator.remaining items) }
{
    let mut count: usize = 0;
    for (place, item) in room.iter_mut().zip(items) {
        *place = item;
        // counted, as an iterator of any type has no length; saturating, as the check doesn't see that the room bounds the count
        count = count.saturating_add(1);
    }
    front(room, count)
}

// So many items in front, none where there are fewer.
fn front<T>(room: &mut [T], count: usize) -> &mut [T] {
    match room.get_mut(..count) {
        Some(front) => front,
        None => &mut [],
    }
}

// The byte that the input shows: `|` is a newline, `<` a carriage return, `>` a tab, `_` a space.
pub(crate) fn meant(shown: u8) -> u8
    ensures { result ≡ meant shown }
{
    match shown {
        b'|' => b'\n',
        b'<' => b'\r',
        b'>' => b'\t',
        b'_' => b' ',
        _ => shown,
    }
}

// What stands in a line from a column on; nothing behind its end.
pub(crate) fn from_column(line: &[u8], column: usize) -> &[u8]
    ensures { result.now ≡ drop column line.now }
{
    line.get(column..).unwrap_or(&[])
}

// The digit that a byte is, decimal or hexadecimal. No byte is refused: a space is 0.
fn digit(byte: u8) -> u32
    ensures { result ≡ digit byte }
{
    if byte < b'A' {
        u32::from(byte % 16)
    } else {
        u32::from((byte - b'A' + 10) % 16)
    }
}

// What so many columns in front hold; 0 stands for each that isn't there.
#[tactic(auto, using(crate::proofs::Columns::more_fits, crate::proofs::Columns::word_fits), unfolding(crate::specs::Input::value))]
fn value(columns: &[u8], count: usize, radix: u32) -> u32
    requires { (radix ≤ 16) × (count ≤ 8) }
    ensures { result ≡ value radix count columns.now }
{
    let mut value = 0;
    for i in 0..count {
        let byte = columns.get(i).copied().unwrap_or(0);
        value = value * radix + digit(byte);
    }
    value
}

// The number of five decimal digits.
pub(crate) fn number(columns: &[u8]) -> usize
    ensures { result ≡ value 10 5 columns.now }
{
    value(columns, 5, 10) as usize
}

// The word of eight hexadecimal digits.
pub(crate) fn word(columns: &[u8]) -> u32
    ensures { result ≡ value 16 8 columns.now }
{
    value(columns, 8, 16)
}

// The words of the card of 4,096 cells: each cell names the one above it, and the last cell none.
fn chain_word(place: u32) -> u32 {
    match place {
        0 => 0x80111000,
        1 => 0x90000000,
        8193 => 0xB000FFFF,
        _ if place % 2 == 0 => 0xA0000000,
        _ => 0xB0000000 | place / 2,
    }
}

// The card of the text, empty where it is refused.
fn read_card<'c>(text: &[u8], room: &'c mut [u32]) -> &'c mut [u32] {
    let mut bytes = [FREE; TEXT_BYTES];
    let text = fill(&mut bytes, text.iter().copied().map(meant));
    let words = match kiss_reader::read(text, room) {
        Ok(read) => read.words,
        Err(_) => 0,
    };
    front(room, words)
}

// The words of a card's line. The last digit of the last word may be missing.
fn card_words<'c>(words: &[u8], room: &'c mut [u32]) -> &'c mut [u32] {
    let words = words
        .chunks(WORD_COLUMNS)
        .take_while(|columns| WORD_COLUMNS - 2 <= columns.len());
    fill(room, words.take(LINE_WORDS).map(word))
}

impl<'a> Source<'a> {
    // What a line gives, by its first letter: the words of a card where that is neither `k` nor `t`.
    pub(crate) fn of(line: &'a [u8]) -> Source<'a>
        ensures letter { letter_of result ≡ known (letter line.now) }
        ensures text { text_of result ≡ drop 2 line.now }
    {
        let text = from_column(line, 2);
        match line.first() {
            Some(b'k') => Source::Chain(text),
            Some(b't') => Source::Text(text),
            _ => Source::Words(text),
        }
    }
}

impl Source<'_> {
    // The card, or that of the text, in front of the room.
    pub(crate) fn card<'c>(self, room: &'c mut [u32]) -> &'c mut [u32] {
        match self {
            Source::Words(words) => card_words(words, room),
            Source::Chain(_) => fill(room, (0..8194).map(chain_word)),
            Source::Text(text) => read_card(text, room),
        }
    }

    // The text: what stands behind the letter, also where that is a card.
    pub(crate) fn text(&self) -> &[u8]
        ensures { result.now ≡ text_of self.now }
    {
        match self {
            Source::Words(text) | Source::Chain(text) | Source::Text(text) => text,
        }
    }
}
