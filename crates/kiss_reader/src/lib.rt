// The reader of KISS2 text (document 02, change 6; docs/KISS2.md): one pass over the text, in which each line is stored in the words of a
// card that begins blank.
#![tactic(auto)]

ghost use Rattle.std.specs.Prelude.{◌≡◌, ◌+◌, ◌*◌, ◌<◌, ◌≤◌, Ok, length, get_or};
ghost use Rattle.games.specs.Answers.{leaves};
ghost use Rattle.games.specs.declared.Reason.TheVariants.{Departs};
ghost use Rattle.games.specs.Format.{max_cells, number_values};
ghost use Rattle.games.specs.Words.{card_length, card_words};
ghost use Rattle.cards.specs.Card.{cell_place};
ghost use Rattle.form.specs.Form.{read, byte_at};
ghost use Rattle.form.specs.Cursors.{behind};
ghost use Rattle.kiss.specs.Profile.{blank, state_from, least_input, least_state, reading};
ghost use Rattle.kiss_reader.specs.Reading.{after, widths, states, Passed, Told, CountsRead, HeadRead, Held, outputs_by, LineRead, Bounded, comes, EndRead, LinesRead};
ghost use Rattle.games.specs.Kinds.{kind_number};
ghost use Rattle.kiss_reader.specs.Storing.{most_words, blank_row, slot_kind, stored};
ghost use Rattle.kiss_reader.specs.Read.{of_card, read_into, Reads};

mod sizes;

use cards::{Card, Entered, Extent};
use form::{Numeral, Range, Reader};
use games::{Action, Cell, Kind, Observation, Reason, Refusal};
use kiss::Slot;
pub use sizes::Sizes;
use text::Wrong;

#[derive(Clone, Copy)]
pub struct Counts {
    pub actions: u32,
    pub observations: u32,
}

// The numbers of the head.
#[derive(Clone, Copy)]
pub struct Head {
    pub counts: Counts,
    pub states: u32,
}

#[derive(Clone, Copy)]
pub struct Line {
    pub slot: Slot,
    pub entered: Entered,
}

// What the lines so far say: a machine's sizes and the words of its card.
#[derive(Clone, Copy)]
pub struct Machine<'w> {
    pub sizes: Sizes,
    pub words: &'w [u32],
    ghost held: { ∥ Held sizes words.now ∥₁ },
}

// The most words of a card: the head and 8 first words, and 9 words for each of 4,096 cells.
const MOST_WORDS: usize = 36873;

// How the text writes its numbers: a width, a count of actions or observations, a cell or a count of states.
const WIDTH: Numeral = Numeral {
    base: 10,
    width: 1,
    power: 10,
};

const COUNT: Numeral = Numeral {
    base: 10,
    width: 2,
    power: 100,
};

const CELL: Numeral = Numeral {
    base: 10,
    width: 5,
    power: 100000,
};

// ---- the head

// A fixed run of bytes, then a number in a range.
fn read_after(r: &mut Reader, word: &[u8], n: Numeral, range: Range) -> Result<u32, Wrong>
    requires { range.most < n.power }
    ensures { Told r.old r.new (after word.now n range.least range.most) range.most result }
{
    r.expect(word)?;
    r.number(n, range)
}

#[tactic(auto, unfolding(crate::specs::Reading::counts))]
fn read_counts(r: &mut Reader) -> Result<Counts, Wrong>
    ensures { CountsRead r.old r.new result }
{
    let actions = read_after(r, b"# actions ", COUNT, Range::of(1, games::MAX_ACTIONS))?;
    let observations = read_after(
        r,
        b" observations ",
        COUNT,
        Range::of(1, games::MAX_OBSERVATIONS),
    )?;
    Ok(Counts {
        actions,
        observations,
    })
}

// The bits of an input and of an output, which are known.
#[tactic(auto, unfolding(crate::specs::Reading::widths))]
fn read_widths(r: &mut Reader, input: u32, output: u32) -> Result<(), Wrong>
    requires { (input < 10) × (output < 10) }
    ensures { Passed r.old r.new (widths input output) result }
{
    read_after(r, b"\n.i ", WIDTH, Range::only(input))?;
    read_after(r, b"\n.o ", WIDTH, Range::only(output))?;
    Ok(())
}

// The number of states and the reset state.
#[tactic(auto, unfolding(crate::specs::Reading::states))]
fn read_states(r: &mut Reader) -> Result<u32, Wrong>
    ensures { Told r.old r.new states (max_cells + 1) result }
{
    let states = read_after(r, b"\n.s ", CELL, Range::of(2, games::MAX_CELLS + 1))?;
    r.expect(b"\n.r reset\n")?;
    Ok(states)
}

#[tactic(auto, using(kiss::proofs::Widths::bits_few, crate::proofs::Parts::head_parts))]
fn read_head(r: &mut Reader) -> Result<Head, Wrong>
    ensures { HeadRead r.old r.new result }
{
    let counts = read_counts(r)?;
    read_widths(
        r,
        kiss::bits(counts.observations),
        kiss::bits(counts.actions),
    )?;
    let states = read_states(r)?;
    Ok(Head { counts, states })
}

// ---- a line

// The name of a state from number `least` up: the reset state is number 0, cell c is number 1 + c.
#[tactic(auto, using(crate::proofs::Parts::state_first, crate::proofs::Parts::state_other))]
fn read_state(r: &mut Reader, m: u32, least: u32) -> Result<u32, Wrong>
    requires { (1 ≤ m) × (m ≤ max_cells) }
    ensures { Told r.old r.new (state_from m least) m result }
{
    if (least == 0) & (form::byte_at(r.text, r.at) == Some(b'r')) {
        r.expect(b"reset")?;
        return Ok(0);
    }
    r.expect(b"c")?;
    let cell = r.number(CELL, Range::of(least.saturating_sub(1), m - 1))?;
    Ok(cell + 1)
}

// What the next line can have, from the lowest free slot on: the least observation, of m cells (in the last state it is none below the slot's),
// and the least state for observation j.
fn least_input(free: Slot, m: u32) -> u32
    ensures { result ≡ least_input m free.state free.observation }
{
    if free.state < m { 0 } else { free.observation }
}

fn least_state(free: Slot, j: u32) -> u32
    requires { free.state ≤ max_cells }
    ensures { result ≡ least_state free.state free.observation j }
{
    if j < free.observation {
        free.state + 1
    } else {
        free.state
    }
}

impl<'w> Machine<'w> {
    // A cell's own word.
    #[tactic(auto, using(crate::proofs::Lines::held_long, cards::proofs::Checked::cell_within))]
    fn own_word(self, cell: u32) -> u32
        requires { cell < self.sizes.cells }
        ensures { result ≡ get_or self.entry.words.now (cell_place self.entry.sizes.observations cell) 0 }
    {
        self.words[cards::cell_place(self.sizes.observations, Cell(cell))]
    }

    // The outputs that a line entering a cell can have: where a line before entered it, so that its set is empty, only its action.
    fn outputs(self, cell: u32) -> Range
        requires { cell < self.sizes.cells }
        ensures { result ≡ outputs_by self.entry.sizes.actions (get_or self.entry.words.now (cell_place self.entry.sizes.observations cell) 0) }
    {
        let own = self.own_word(cell);
        if games::low_field(own) == 0 {
            return Range::only(games::action_field(own));
        }
        Range::of(0, self.sizes.actions - 1)
    }
}

// A line, from the lowest free slot on. It is read at once: with its slot and its entry as results of their own, reading is a tenth slower.
#[tactic(auto, using(crate::proofs::Lines::line_parts), unfolding(crate::specs::Reading::slot, crate::specs::Reading::entry))]
fn read_line(r: &mut Reader, machine: Machine, free: Slot) -> Result<Line, Wrong>
    requires { free.state ≤ machine.sizes.cells }
    ensures { LineRead r.old r.new machine.entry.sizes free machine.entry.words.now result }
{
    let z = machine.sizes;
    let inputs = Range::of(least_input(free, z.cells), z.observations - 1);
    let observation = r.number(z.input, inputs)?;
    r.expect(b" ")?;
    let state = read_state(r, z.cells, least_state(free, observation))?;
    r.expect(b" c")?;
    let cell = r.number(CELL, Range::of(0, z.cells - 1))?;
    r.expect(b" ")?;
    let output = r.number(z.output, machine.outputs(cell))?;
    r.expect(b"\n")?;
    Ok(Line {
        slot: Slot { state, observation },
        entered: Entered {
            cell: Cell(cell),
            action: Action(output),
        },
    })
}

// ---- the words

// A row of a blank card: its own word, and words that name no cell.
#[tactic(auto, using(cards::proofs::Parts::filled_end))]
fn blank_row(kind: Kind, own: u32, o: u32, row: &mut [u32])
    requires { (o ≤ number_values) × (length row.old ≡ 1 + o) }
    ensures { row.new ≡ blank_row (kind_number kind) own o }
{
    for j in 0..o {
        row[1 + j as usize] = cards::kind_naming(kind, Cell(games::NO_CELL), Observation(j));
    }
    row[0] = own;
}

// The card of a machine of which nothing is said: no slot leads to a cell, and no cell is entered, so that its set is not empty. Sizes and
// words stay two here and below: in a struct that lends the words each clause would have to say that the reference stays.
fn write_blank(z: Sizes, words: &mut [u32])
    requires { length words.old ≡ card_length z.cells z.observations }
    ensures { words.new ≡ card_words (blank z.cells) z.actions z.observations }
{
    let o = z.observations;
    let front = games::front_length(o);
    let part = games::part_length(o);
    let head = cards::heading(z.cells, o, z.actions);
    let own = cards::picking(1, Action(0));
    blank_row(Kind::First, head, o, &mut words[..front]);
    for c in 0..z.cells {
        let at = cards::cell_place(o, Cell(c));
        blank_row(Kind::Next, own, o, &mut words[at..at + part]);
    }
}

// The kind of a state's words: those of the reset state are first words.
fn slot_kind(state: u32) -> Kind
    ensures { kind_number result ≡ slot_kind state }
{
    if state == 0 {
        return Kind::First;
    }
    Kind::Next
}

// A line in the words: its slot leads to the cell, and the cell is entered.
#[tactic(auto, using(crate::proofs::Storing::stored_is))]
fn store(words: &mut [u32], z: Sizes, line: Line)
    requires { Bounded z line × (length words.old ≡ card_length z.cells z.observations) }
    ensures { words.new ≡ stored z.observations line.slot.state line.slot.observation line.entered.cell.0 line.entered.action.0 words.old }
{
    let slot = line.slot;
    let row = slot.state as usize * games::part_length(z.observations);
    let kind = slot_kind(slot.state);
    let Entered { cell, action } = line.entered;
    let place = cards::cell_place(z.observations, cell);
    words[row + 1 + slot.observation as usize] = cards::kind_naming(
        kind,
        cell,
        Observation(slot.observation),
    );
    words[place] = cards::picking(0, action);
}

// ---- the lines and the end

// Whether a line comes where one more can be, and not the end: a slot is left, and the next byte is not '.'.
fn line_comes(r: &Reader, z: Sizes, free: Slot) -> bool
    ensures { result ≡ comes (byte_at r.now.text.now r.now.at) z.cells z.observations free.state free.observation 1 }
{
    ((free.state < z.cells) | (free.observation < z.observations))
        & (form::byte_at(r.text, r.at) != Some(b'.'))
}

#[tactic(auto, using(crate::proofs::Parts::end_parts))]
fn read_end(r: &mut Reader) -> Result<(), Wrong>
    ensures { EndRead r.old result }
{
    r.expect(b".e\n")?;
    r.finish()
}

// The lines and the end, stored in a blank card.
fn read_lines(r: &mut Reader, z: Sizes, words: &mut [u32]) -> Result<(), Wrong>
    requires { words.old ≡ card_words (blank z.cells) z.actions z.observations }
    ensures { LinesRead z r.old words.new result }
{
    let mut free = Slot {
        state: 0,
        observation: 0,
    };
    for _line in 0..(z.cells + 1) * z.observations {
        if !line_comes(r, z, free) {
            break;
        }
        let machine = Machine { sizes: z, words };
        let line = read_line(r, machine, free)?;
        store(words, z, line);
        free = Slot {
            state: line.slot.state,
            observation: line.slot.observation + 1,
        };
    }
    read_end(r)
}

// The card that a text says, in words that are lent for the longest one.
fn read_card<'w>(text: &[u8], words: &'w mut [u32]) -> Result<Card<'w>, Wrong>
    requires { length words.old ≡ most_words }
    ensures { reading text.now ≡ behind result (λ card. read card.words.now) }
{
    let mut r = Reader { text, at: 0 };
    let head = read_head(&mut r)?;
    let counts = head.counts;
    let z = Sizes::new(counts.actions, counts.observations, head.states - 1);
    let need = games::card_length(z.cells, z.observations);
    write_blank(z, &mut words[..need]);
    read_lines(&mut r, z, &mut words[..need])?;
    Ok(Card {
        words: &words[..need],
    })
}

// ---- the answer

// 20 for a cell that nothing leads to, then 9, then the card.
fn tell(card: Card, out: &mut [u32]) -> Result<Extent, Refusal>
    ensures { leaves result out.new ≡ of_card card.entry.words.now out.old }
{
    if let Some(cell) = kiss::lowest_idle(card) {
        return Err(Reason::IdleCell.at(cell.0 as usize));
    }
    let need = card.words.len();
    if out.len() < need {
        return Err(Reason::ShortRoom.at(need));
    }
    sets::copy(card.words, out);
    Ok(Extent {
        words: need,
        cells: card.cells(),
    })
}

// The refusal of a text that departs at a place.
fn departing(wrong: Wrong) -> Refusal
    ensures { result ≡ record { reason = Departs; place = wrong.place } }
{
    Reason::Departs.at(wrong.place)
}

// Reading KISS2 text: the card that it says.
pub fn read(text: &[u8], out: &mut [u32]) -> Result<Extent, Refusal>
    ensures determined { leaves result out.new ≡ read_into text.now out.old }
    ensures promised { Reads text.now result out.new }
{
    let mut words = [0u32; MOST_WORDS];
    tell(read_card(text, &mut words).map_err(departing)?, out)
}
