// Writing a card as KISS2 text (document 02, change 6): the room is counted, then the text is written from its first byte on.
#![tactic(auto)]

ghost use Rattle.std.specs.Prelude.{◌≡◌, suc, ◌+◌, ◌-◌, ◌*◌, ◌^◌, ◌≤◌, ◌<◌, length};
ghost use Rattle.sets.specs.Bounded.{gather};
ghost use Rattle.games.specs.Answers.{leaves};
ghost use Rattle.games.specs.Format.{max_actions, max_observations, max_cells};
ghost use Rattle.cards.specs.Card.{automaton, card_actions, card_cells, card_observations};
ghost use Rattle.cards.specs.Run.{led};
ghost use Rattle.text.specs.Text.{room};
ghost use Rattle.text.specs.Puts.{Puts};
ghost use Rattle.form.specs.Form.{digits};
ghost use Rattle.kiss.specs.Text.{cell_name, state_name, target, kiss_text};
ghost use Rattle.kiss_writer.specs.Lines.{line_front, line_of, head_front, card_head_text, Narrow, Wide, LineLong, slot_of, lines_of};
ghost use Rattle.kiss_writer.specs.Lines.{cell_bytes, most_bytes, front_bytes, head_bytes, lines_bytes};
ghost use Rattle.kiss_writer.specs.Write.{by_room, written_to, Writes};

use cards::{Card, Entered};
use games::{Cell, Observation, Reason, Refusal};
use kiss::Slot;
use text::Writer;

// The bits of input and output.
#[derive(Clone, Copy)]
struct Bits {
    input: u32,
    output: u32,
}

// The bytes of a line besides its bits (two names of cells, three spaces, the end); of the head; of the end.
const LINE_BYTES: usize = 6 + 6 + 3 + 1;

const HEAD_BYTES: usize = 57;

const END_BYTES: usize = 3;

// A number in so many digits; the first may be as high as 9, whatever the base.
// By hand: the clause says each byte, and the width is fixed; `Display` says nothing of these.
fn digits<const BASE: u32, const WIDTH: usize>(x: u32) -> [u8; WIDTH]
    requires base { (2 ≤ BASE) × (BASE ≤ 10) }
    requires width { (1 ≤ WIDTH) × (WIDTH ≤ 10) × (BASE ^ (WIDTH - 1) < 2 ^ 32) }
    requires first { x < 10 * BASE ^ (WIDTH - 1) }
    ensures { result ≡ digits BASE WIDTH x }
{
    let mut bytes = sets::filled::<u8, WIDTH>(b'0');
    let mut unit = BASE.pow(WIDTH as u32 - 1);
    let mut rest = x;
    for byte in bytes.iter_mut() {
        *byte = b'0' + (rest / unit) as u8;
        rest %= unit;
        unit /= BASE;
    }
    bytes
}

fn put_digits<const BASE: u32, const WIDTH: usize>(out: &mut Writer, x: u32)
    requires base { (2 ≤ BASE) × (BASE ≤ 10) }
    requires width { (1 ≤ WIDTH) × (WIDTH ≤ 10) × (BASE ^ (WIDTH - 1) < 2 ^ 32) }
    requires first { x < 10 * BASE ^ (WIDTH - 1) }
    requires place { out.old.at + WIDTH < room }
    ensures { Puts (digits BASE WIDTH x) out.old out.new × (out.new.at ≤ out.old.at + WIDTH) }
{
    out.put_bytes(&digits::<BASE, WIDTH>(x))
}

// A number in at most three bits.
fn put_bits(out: &mut Writer, width: u32, x: u32)
    requires { (1 ≤ width) × (width ≤ 3) × (x < 8) × (out.old.at + 3 < room) }
    ensures { Puts (digits 2 width x) out.old out.new × (out.new.at ≤ out.old.at + 3) }
{
    match width {
        1 => put_digits::<2, 1>(out, x),
        2 => put_digits::<2, 2>(out, x),
        _ => put_digits::<2, 3>(out, x),
    }
}

// The name of a cell; of a state, by its number.
#[tactic(auto, using(text::proofs::Writing::puts_then), unfolding(kiss::specs::Text::cell_name))]
fn put_cell(out: &mut Writer, cell: Cell)
    requires { (cell.0 < max_cells) × (out.old.at + cell_bytes < room) }
    ensures { Puts (cell_name cell.0) out.old out.new × (out.new.at ≤ out.old.at + cell_bytes) }
{
    out.put(b'c');
    put_digits::<10, 5>(out, cell.0)
}

#[tactic(auto, using(crate::proofs::Lines::name_reset, crate::proofs::Lines::name_cell))]
fn put_state(out: &mut Writer, state: u32)
    requires { (state ≤ max_cells) × (out.old.at + cell_bytes < room) }
    ensures { Puts (state_name state) out.old out.new × (out.new.at ≤ out.old.at + cell_bytes) }
{
    if state == 0 {
        return out.put_bytes(b"reset");
    }
    put_cell(out, Cell(state - 1))
}

// A line up to the cell that is entered, and the whole line.
fn put_line_front(out: &mut Writer, width: u32, slot: Slot)
    requires { (1 ≤ width) × (width ≤ 3) × (slot.state ≤ max_cells) × (slot.observation < max_observations) × (out.old.at + 3 + cell_bytes + 2 < room) }
    ensures { Puts (line_front width slot.state slot.observation) out.old out.new
        × (out.new.at ≤ out.old.at + 3 + cell_bytes + 2) }
{
    put_bits(out, width, slot.observation);
    out.put(b' ');
    put_state(out, slot.state);
    out.put(b' ')
}

fn put_line(out: &mut Writer, widths: Bits, slot: Slot, to: Entered)
    requires { Narrow widths × (slot.state ≤ max_cells) × (slot.observation < max_observations) × (to.cell.0 < max_cells)
        × (to.action.0 < max_actions) × (out.old.at + most_bytes < room) }
    ensures { Puts (line_of widths.input widths.output slot.state slot.observation to.cell.0 to.action.0) out.old out.new
        × (out.new.at ≤ out.old.at + most_bytes) }
{
    put_line_front(out, widths.input, slot);
    put_cell(out, to.cell);
    out.put(b' ');
    put_bits(out, widths.output, to.action.0);
    out.put(b'\n')
}

// A card, with its bits.
#[derive(Clone, Copy)]
struct Sheet<'c> {
    card: Card<'c>,
    widths: Bits,
    ghost wide: { Wide card.words.now widths },
}

impl<'c> Sheet<'c> {
    #[tactic(auto, using(crate::proofs::Lines::actions_few, crate::proofs::Lines::observations_few))]
    fn of(card: Card<'c>) -> Sheet<'c>
        ensures { result.card ≡ card.entry }
    {
        let widths = Bits {
            input: kiss::bits(card.observations()),
            output: kiss::bits(card.actions()),
        };
        Sheet { card, widths }
    }

    // The cell that a slot leads to, where that can occur.
    #[tactic(auto, using(crate::proofs::Lines::target_first, crate::proofs::Lines::target_next))]
    fn entered(self, slot: Slot) -> Option<Cell>
        requires { (slot.state ≤ card_cells self.card.words.now) × (slot.observation < card_observations self.card.words.now) }
        ensures { result ≡ led (target (automaton self.entry.card.words.now) slot.state slot.observation) }
    {
        let seen = Observation(slot.observation);
        if slot.state == 0 {
            return self.card.first_cell(seen);
        }
        self.card.next_cell(Cell(slot.state - 1), seen)
    }

    // The line of a slot; none where it cannot occur.
    #[tactic(auto, using(crate::proofs::Lines::entered_cell, crate::proofs::Lines::cell_entered))]
    fn put_slot(self, out: &mut Writer, slot: Slot)
        requires { (slot.state ≤ card_cells self.card.words.now) × (slot.observation < card_observations self.card.words.now)
            × (out.old.at + most_bytes < room) }
        ensures { Puts (slot_of self.entry.card.words.now slot.state slot.observation) out.old out.new
            × (out.new.at ≤ out.old.at + most_bytes) }
    {
        if let Some(cell) = self.entered(slot) {
            let action = self.card.cell_action(cell);
            put_line(out, self.widths, slot, Entered { cell, action })
        }
    }

    // The lines of a state.
    #[tactic(auto, using(crate::proofs::Rows::below_fits))]
    fn put_state_lines(self, out: &mut Writer, state: u32)
        requires { (state ≤ card_cells self.card.words.now) × (out.old.at + card_observations self.card.words.now * most_bytes < room) }
        ensures { Puts (lines_of self.entry.card.words.now state) out.old out.new
            × (out.new.at ≤ out.old.at + card_observations self.entry.card.words.now * most_bytes) }
    {
        for observation in 0..self.card.observations() {
            self.put_slot(out, Slot { state, observation });
        }
    }

    // The lines of the reset state and of all cells.
    #[tactic(auto, using(crate::proofs::Lines::cells_few, crate::proofs::Lines::observations_few, crate::proofs::Rows::below_fits))]
    fn put_lines(self, out: &mut Writer)
        requires { out.old.at + lines_bytes < room }
        ensures { Puts (gather (suc (card_cells self.entry.card.words.now)) (lines_of self.entry.card.words.now)) out.old out.new
            × (out.new.at ≤ out.old.at + lines_bytes) }
    {
        for state in 0..self.card.cells() + 1 {
            self.put_state_lines(out, state);
        }
    }

    // The head of the card's text up to the bits of input, and the whole head.
    #[tactic(auto, using(crate::proofs::Lines::actions_few, crate::proofs::Lines::observations_few))]
    fn put_head_front(self, out: &mut Writer)
        requires { out.old.at + head_bytes < room }
        ensures { Puts (head_front (card_actions self.entry.card.words.now) (card_observations self.entry.card.words.now) self.entry.widths.input) out.old out.new
            × (out.new.at ≤ out.old.at + front_bytes) }
    {
        out.put_bytes(b"# actions ");
        put_digits::<10, 2>(out, self.card.actions());
        out.put_bytes(b" observations ");
        put_digits::<10, 2>(out, self.card.observations());
        out.put_bytes(b"\n.i ");
        put_digits::<10, 1>(out, self.widths.input)
    }

    #[tactic(auto, using(crate::proofs::Lines::cells_few))]
    fn put_head(self, out: &mut Writer)
        requires { out.old.at + head_bytes < room }
        ensures { Puts (card_head_text self.entry.card.words.now) out.old out.new
            × (out.new.at ≤ out.old.at + head_bytes) }
    {
        self.put_head_front(out);
        out.put_bytes(b"\n.o ");
        put_digits::<10, 1>(out, self.widths.output);
        out.put_bytes(b"\n.s ");
        put_digits::<10, 5>(out, self.card.cells() + 1);
        out.put_bytes(b"\n.r reset\n")
    }

    // The card's text: the head, the lines, the end.
    fn put_text(self, out: &mut Writer)
        requires { out.old.at ≡ 0 }
        ensures { Puts (kiss_text self.entry.card.words.now) out.old out.new }
    {
        self.put_head(out);
        self.put_lines(out);
        out.put_bytes(b".e\n")
    }

    // How many bytes the lines of a state have, where a line of it has so many: each word that names a cell is a line.
    // Counted by hand: with `filter(..).count() * line` it was not proved that this is the length of the lines (tried).
    #[tactic(auto, using(crate::proofs::Lines::observations_few, crate::proofs::Lines::line_short, crate::proofs::Rows::counted_fits))]
    fn state_length(self, state: u32, line: usize) -> usize
        requires { (state ≤ card_cells self.card.words.now) × LineLong self.card.words.now state line }
        ensures { (result ≡ length (lines_of self.entry.card.words.now state)) × (result ≤ max_observations * most_bytes) }
    {
        let mut bytes: usize = 0;
        for observation in 0..self.card.observations() {
            if self.entered(Slot { state, observation }).is_some() {
                bytes += line;
            }
        }
        bytes
    }

    // How many bytes the lines have. A line of the reset state is one byte shorter than the others, as its name is.
    #[tactic(auto, using(crate::proofs::Lines::narrow, crate::proofs::Lines::cells_few, crate::proofs::Lines::reset_line))]
    fn lines_length(self) -> usize
        ensures { (result ≡ length (gather (suc (card_cells self.entry.card.words.now)) (lines_of self.entry.card.words.now))) × (result ≤ lines_bytes) }
    {
        let line = (self.widths.input + self.widths.output) as usize + LINE_BYTES;
        let mut bytes = self.state_length(0, line - 1);
        for state in 1..self.card.cells() + 1 {
            bytes += self.state_length(state, line);
        }
        bytes
    }

    // How many bytes the card's text has.
    #[tactic(auto, using(crate::proofs::Lines::text_long))]
    fn text_length(self) -> usize
        ensures { result ≡ length (kiss_text self.entry.card.words.now) }
    {
        HEAD_BYTES + self.lines_length() + END_BYTES
    }
}

// For a card without idle cells: 9 or the text.
fn write_text(card: Card, out: &mut [u8]) -> Result<usize, Refusal>
    ensures { leaves result out.new ≡ by_room card.entry.words.now out.old }
{
    let sheet = Sheet::of(card);
    let need = sheet.text_length();
    if out.len() < need {
        return Err(Reason::ShortRoom.at(need));
    }
    let mut text = Writer::at(out, 0);
    sheet.put_text(&mut text);
    Ok(need)
}

// Writing a card as KISS2 text.
pub fn write(card: &[u32], out: &mut [u8]) -> Result<usize, Refusal>
    ensures determined { leaves result out.new ≡ written_to card.now out.old }
    ensures promised { Writes card.now result out.new }
{
    let card = Card::of(card)?;
    if let Some(cell) = kiss::lowest_idle(card) {
        return Err(Reason::IdleCell.at(cell.0 as usize));
    }
    write_text(card, out)
}
