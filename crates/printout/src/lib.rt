// What the solving program prints (document 01): its lines, and a card part by part, written into a lent buffer.
#![tactic(auto)]

ghost use Rattle.std.specs.Prelude.{◌++◌, ◌+◌, ◌*◌, ◌≤◌, ◌<◌, length};
ghost use Rattle.games.specs.Answers.{number_of};
ghost use Rattle.games.specs.Words.{part_length};
ghost use Rattle.cards.specs.Card.{card_cells, card_observations};
ghost use Rattle.text.specs.Text.{room};
ghost use Rattle.text.specs.Puts.{Puts};
ghost use Rattle.printout.specs.Lines.{newline, yes_line, no_line, refused_line};
ghost use Rattle.printout.specs.Lines.{front_text, first_text, own_text, next_text, part_text, card_text, unread_line, unwritten_line, field_bytes, line_bytes};
ghost use Rattle.printout.specs.Fields.{field_of, with_fields};

use cards::Card;
use games::{Cell, Observation, Refusal};
use text::Writer;

// The most bytes of a field: a space and the digits of a 64-bit number.
const FIELD_BYTES: usize = 1 + 20;

// The most bytes of a line: the longest word, three fields, the end.
pub const LINE_BYTES: usize = 7 + 3 * FIELD_BYTES + 1;

// What a field of a line shows: a number; or the cell that is entered, if one is.
#[derive(Clone, Copy)]
enum Field {
    Number(u64),
    Entered(Option<Cell>),
}

// A space, and what the field shows.
fn put_field(out: &mut Writer, field: Field)
    requires { out.old.at + field_bytes < room }
    ensures { Puts (field_of field) out.old out.new × (out.new.at ≤ out.old.at + field_bytes) }
{
    out.put(b' ');
    match field {
        Field::Number(n) => out.put_decimal(n),
        Field::Entered(Some(cell)) => out.put_decimal(cell.0 as u64),
        Field::Entered(None) => out.put(b'-'),
    }
}

// A line of a word and its fields.
fn put_line(out: &mut Writer, word: &[u8], fields: &[Field])
    requires { (length word.now ≤ 7) × (length fields.now ≤ 3) × (out.old.at + line_bytes < room) }
    ensures { Puts (with_fields word.now fields.now ++ newline) out.old out.new
        × (out.new.at ≤ out.old.at + line_bytes) }
{
    out.put_bytes(word);
    for field in fields {
        put_field(out, *field);
    }
    out.put(b'\n');
}

// The line of a yes: the settling count and the cells.
#[tactic(auto, unfolding(crate::specs::Lines::yes_line))]
pub fn put_yes(out: &mut Writer, settled: u32, cells: u32)
    requires { out.old.at + line_bytes < room }
    ensures { Puts (yes_line settled cells) out.old out.new × (out.new.at ≤ out.old.at + line_bytes) }
{
    put_line(
        out,
        b"yes",
        &[Field::Number(settled as u64), Field::Number(cells as u64)],
    )
}

// The line of a no: the round number.
#[tactic(auto, unfolding(crate::specs::Lines::no_line))]
pub fn put_no(out: &mut Writer, round: u32)
    requires { out.old.at + line_bytes < room }
    ensures { Puts (no_line round) out.old out.new × (out.new.at ≤ out.old.at + line_bytes) }
{
    put_line(out, b"no", &[Field::Number(round as u64)])
}

// The line of a refusal.
pub fn put_refusal(out: &mut Writer, refusal: Refusal)
    requires { out.old.at + line_bytes < room }
    ensures { Puts (refused_line (number_of refusal.reason) refusal.place) out.old out.new
        × (out.new.at ≤ out.old.at + line_bytes) }
{
    put_refused(out, refusal.reason.number(), refusal.place)
}

// The same, of a refusal by its number and its place: a number that no reason has too.
#[tactic(auto, unfolding(crate::specs::Lines::refused_line))]
pub fn put_refused(out: &mut Writer, number: u32, place: usize)
    requires { out.old.at + line_bytes < room }
    ensures { Puts (refused_line number place) out.old out.new × (out.new.at ≤ out.old.at + line_bytes) }
{
    put_line(
        out,
        b"refused",
        &[Field::Number(number as u64), Field::Number(place as u64)],
    )
}

// The line of an observation's first cell. (Writer and card stay two parameters, here and below: the writer is lent `&mut`, and each part goes
// on from the one before.)
#[tactic(auto, using(crate::proofs::Texts::entered_field), unfolding(crate::specs::Lines::first_line))]
fn put_first(out: &mut Writer, card: Card, first: Observation)
    requires { (first.0 < card_observations card.words.now) × (out.old.at + line_bytes < room) }
    ensures { Puts (first_text card.entry.words.now first.0) out.old out.new
        × (out.new.at ≤ out.old.at + line_bytes) }
{
    let to = card.first_cell(first);
    put_line(
        out,
        b"first",
        &[Field::Number(first.0 as u64), Field::Entered(to)],
    )
}

// A cell's own line: its set and action.
#[tactic(auto, unfolding(crate::specs::Lines::cell_line))]
fn put_own(out: &mut Writer, card: Card, cell: Cell)
    requires { (cell.0 < card_cells card.words.now) × (out.old.at + line_bytes < room) }
    ensures { Puts (own_text card.entry.words.now cell.0) out.old out.new
        × (out.new.at ≤ out.old.at + line_bytes) }
{
    let set = card.cell_set(cell);
    let picked = card.cell_action(cell);
    let fields = [
        Field::Number(cell.0 as u64),
        Field::Number(set as u64),
        Field::Number(picked.0 as u64),
    ];
    put_line(out, b"cell", &fields)
}

// The line of the cell that an observation leads to.
#[tactic(auto, using(crate::proofs::Texts::entered_field), unfolding(crate::specs::Lines::next_line))]
fn put_next(out: &mut Writer, card: Card, from: Cell, seen: Observation)
    requires { (from.0 < card_cells card.words.now) × (seen.0 < card_observations card.words.now) × (out.old.at + line_bytes < room) }
    ensures { Puts (next_text card.entry.words.now from.0 seen.0) out.old out.new
        × (out.new.at ≤ out.old.at + line_bytes) }
{
    let fields = [
        Field::Number(from.0 as u64),
        Field::Number(seen.0 as u64),
        Field::Entered(card.next_cell(from, seen)),
    ];
    put_line(out, b"next", &fields)
}

// The first lines of a card.
fn put_front(out: &mut Writer, card: Card)
    requires { out.old.at + card_observations card.words.now * line_bytes < room }
    ensures { Puts (front_text card.entry.words.now) out.old out.new
        × (out.new.at ≤ out.old.at + card_observations card.entry.words.now * line_bytes) }
{
    for j in 0..card.observations() {
        put_first(out, card, Observation(j));
    }
}

// A cell's part: its own line and its next lines.
fn put_part(out: &mut Writer, card: Card, cell: Cell)
    requires { (cell.0 < card_cells card.words.now)
        × (out.old.at + part_length (card_observations card.words.now) * line_bytes < room) }
    ensures { Puts (part_text card.entry.words.now cell.0) out.old out.new
        × (out.new.at ≤ out.old.at + part_length (card_observations card.entry.words.now) * line_bytes) }
{
    put_own(out, card, cell);
    for j in 0..card.observations() {
        put_next(out, card, cell, Observation(j));
    }
}

// The lines of a card: its first lines, then its cells' parts. No word of it takes more than a line, and the head none.
pub fn put_card(out: &mut Writer, card: Card)
    requires { out.old.at + length card.words.now * line_bytes < room }
    ensures { Puts (card_text card.entry.words.now) out.old out.new
        × (out.new.at + line_bytes ≤ out.old.at + length card.entry.words.now * line_bytes) }
{
    put_front(out, card);
    for c in 0..card.cells() {
        put_part(out, card, Cell(c));
    }
}

// The line of an input that can't be read, and below of an answer that can't be written: one call each of what serves both.
pub fn put_unread(out: &mut Writer)
    requires { out.old.at + line_bytes < room }
    ensures { Puts unread_line out.old out.new × (out.new.at ≤ out.old.at + line_bytes) }
{
    out.put_bytes(b"the input can't be read\n")
}

// The line of an answer that can't be written out.
pub fn put_unwritten(out: &mut Writer)
    requires { out.old.at + line_bytes < room }
    ensures { Puts unwritten_line out.old out.new × (out.new.at ≤ out.old.at + line_bytes) }
{
    out.put_bytes(b"the answer can't be written\n")
}
