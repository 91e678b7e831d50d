// The trimmer (document 02, change 5): a card without its idle cells, those that are not reached. Each reached cell is taken up once: a
// word of the work has a cell's mark in its lower half, and in its upper half a cell that waits. Later these are the cell's new number
// and an entry of the list of kept cells.
#![tactic(auto)]

ghost use Rattle.std.specs.Prelude.{◌≡◌, ◌++◌, ◌+◌, ◌-◌, ◌<◌, ◌≤◌, length, drop};
ghost use Rattle.games.specs.Answers.{leaves};
ghost use Rattle.games.specs.Automaton.{no_cell};
ghost use Rattle.games.specs.Kinds.{kind_number};
ghost use Rattle.games.specs.Format.{number_values};
ghost use Rattle.cards.specs.Card.{card_cells, card_observations, automaton};
ghost use Rattle.trimming.specs.Trim.{trimmed};
ghost use Rattle.trimmer.specs.Halves.{half_values, lower_half, upper_half, put_lower, put_upper, marked};
ghost use Rattle.trimmer.specs.Marking.{ListingOf, Adds, TakenOff, TakingOf, named_from, named_or, NamesInside, Naming, Own, FirstNamed, Marked};
ghost use Rattle.trimmer.specs.Numbering.{Numbered, Renumbering, numbered_as, new_name, row_words};
ghost use Rattle.trimmer.specs.Trimmer.{kept_cells, by_room, buffers, trimmed_into, Trims};

use cards::{Card, Extent};
use games::{Cell, Kind, Observation, Reason, Refusal};

// The numbers that a half of a word can hold. Two share a word: the work that is lent has one for each cell, and there is no heap.
const HALF_VALUES: u32 = 1 << 16;

pub fn lower(work: &[u32], i: usize) -> u32
    requires { i < length work.now }
    ensures { result ≡ lower_half work.now i }
{
    work[i] % HALF_VALUES
}

fn upper(work: &[u32], i: usize) -> u32
    requires { i < length work.now }
    ensures half { result ≡ upper_half work.now i }
    ensures fits { result < half_values }
{
    work[i] / HALF_VALUES
}

#[tactic(auto, unfolding(crate::specs::Halves::put_lower))]
fn put_lower(work: &mut [u32], i: usize, x: u32)
    requires { (i < length work.old) × (x < half_values) }
    ensures { work.new ≡ put_lower work.old i x }
{
    let old = work[i];
    work[i] = old / HALF_VALUES * HALF_VALUES + x;
}

#[tactic(auto, unfolding(crate::specs::Halves::put_upper))]
fn put_upper(work: &mut [u32], i: usize, x: u32)
    requires { (i < length work.old) × (x < half_values) }
    ensures { work.new ≡ put_upper work.old i x }
{
    let old = work[i];
    work[i] = x * HALF_VALUES + old % HALF_VALUES;
}

// The cell that a word names; the other one where it names none.
// No `Option`: its branch for each word was tried, 250 µs for a card of 4,096 cells that names none every second time, and 81 so.
fn named_or(cell: Cell, other: Cell) -> Cell
    ensures { result.0 ≡ named_or cell.0 other.0 }
{
    if cell.0 == games::NO_CELL {
        return other;
    }
    cell
}

// The first cell that a first word names; cell 0 where none does.
fn first_named(card: Card) -> Cell
    ensures { FirstNamed (automaton card.entry.words.now) (card_observations card.entry.words.now) result.0 }
{
    let o = card.observations();
    for j in 0..o {
        if let Some(cell) = card.first_cell(Observation(j)) {
            return cell;
        }
    }
    Cell(0)
}

// The marks of a card's cells, in the lower halves of the work, and the cells that wait to be taken up: how many, and the one that is next.
// Those behind it stand in the upper halves; it is held apart, so that a chain of cells is followed without waiting for the memory.
#[derive(Drop)]
struct Marks<'w> {
    work: &'w mut [u32],
    waiting: usize,
    next: Cell,
}

impl<'w> Marks<'w> {
    // Marks the cells where a run begins: those that first words name, or cell 0 where no first word names one.
    fn firsts(card: Card, work: &'w mut [u32]) -> Marks<'w>
        requires { length work.old ≡ card_cells card.words.now }
        ensures same_work { result.work.ghost_name ≡ work.entry.ghost_name }
        ensures taking { TakingOf (automaton card.entry.words.now) (card_observations card.entry.words.now) 0 result }
    {
        work.fill(0);
        let first = first_named(card);
        put_lower(work, first.0 as usize, 1);
        let mut marks = Marks {
            work,
            waiting: 1,
            next: first,
        };
        let o = card.observations() as usize;
        marks.mark_named(&card.words[1..1 + o], first);
        marks
    }

    #[tactic(auto, unfolding(crate::specs::Halves::marked))]
    fn is_marked(&self, cell: Cell) -> bool
        requires { cell.0 < length self.now.work.now }
        ensures { result ≡ marked self.now.work.now cell.0 }
    {
        0 < lower(self.work, cell.0 as usize)
    }

    // Marks the cell that a word names and puts it in front of those that wait, unless it is marked already. A word that names none counts
    // as a cell that is marked, so that one test does for both.
    fn mark(&mut self, own: Cell, cell: Cell)
        requires { ListingOf self.old × Own self.old.work.now own.0
            × NamesInside cell.0 (length self.old.work.now) × (length self.old.work.now ≤ no_cell) }
        ensures { Adds (λ _. cell.0) 1 self.old self.new }
    {
        if self.is_marked(named_or(cell, own)) {
            return;
        }
        put_lower(self.work, cell.0 as usize, 1);
        put_upper(self.work, self.waiting, self.next.0);
        self.waiting += 1;
        self.next = cell;
    }

    // Marks the cells that first or next words name.
    fn mark_named(&mut self, names: &[u32], own: Cell)
        requires { Naming names.now 0 (length names.now) (length self.old.work.now) × ListingOf self.old × Own self.old.work.now own.0 }
        ensures { Adds (named_from names.now 0) (length names.now) self.old self.new }
    {
        for name in names {
            self.mark(own, Cell(games::low_field(*name)));
        }
    }

    // The cell behind the next one.
    fn behind(&self) -> Cell
        requires { (0 < self.now.waiting) × (self.now.waiting ≤ length self.now.work.now) }
        ensures { (result.0 ≡ upper_half self.now.work.now (self.now.waiting - 1)) × (result.0 < half_values) }
    {
        Cell(upper(self.work, self.waiting - 1))
    }

    // Takes the next cell off those that wait.
    fn take_next(&mut self) -> Cell
        requires { (0 < self.old.waiting) × (self.old.waiting ≤ length self.old.work.now) }
        ensures off { TakenOff self.old self.new }
        ensures next { result.0 ≡ self.old.next.0 }
    {
        let cell = self.next;
        self.next = self.behind();
        self.waiting -= 1;
        cell
    }
}

// Marks the reached cells: each waiting cell is taken up once, and the cells that its next words name wait then. How many cells are
// reached. (Card and work stay two parameters: the card is read, the work is lent `&mut` and written on by what follows.)
pub fn mark_reached(card: Card, work: &mut [u32]) -> usize
    requires { length work.old ≡ card_cells card.words.now }
    ensures { Marked (automaton card.entry.words.now) (card_observations card.entry.words.now) work.new result }
{
    let o = card.observations();
    let mut marks = Marks::firsts(card, work);
    let mut taken: usize = 0;
    // no index is counted: a cell that is taken up may let others wait
    while 0 < marks.waiting {
        let cell = marks.take_next();
        // (by the number at hand: the card's own method reads the head again for each cell, since the work is written between)
        let at = cards::cell_place(o, cell) + 1;
        marks.mark_named(&card.words[at..at + o as usize], cell);
        taken += 1;
    }
    taken
}

// Numbers the marked cells in their order: the new number takes the mark's place, and the list of kept cells that of the waiting ones.
fn number(work: &mut [u32])
    requires { length work.old ≤ half_values }
    ensures { Numbered (length work.old) (marked work.old) work.new }
{
    // it counts what is marked: the next kept cell's number
    let mut kept: usize = 0;
    for c in 0..work.len() {
        if 0 < lower(work, c) {
            put_lower(work, c, kept as u32);
            put_upper(work, kept, c as u32);
            kept += 1;
        }
    }
}

// A cell's new number; no cell stays none. No `Option`, as in `named_or`: no branch.
fn numbered(cell: Cell, number: u32) -> Cell
    ensures { result.0 ≡ numbered_as cell.0 number }
{
    if cell.0 == games::NO_CELL {
        return cell;
    }
    Cell(number)
}

// The new number of the cell that a word names. Where it names none, that of cell 0 is looked up in vain, so that no branch is taken.
#[tactic(auto, using(crate::proofs::Writing::asked_name))]
fn new_name(work: &[u32], cell: Cell) -> Cell
    requires { NamesInside cell.0 (length work.now) × (0 < length work.now) }
    ensures { result.0 ≡ new_name work.now cell.0 }
{
    let asked = named_or(cell, Cell(0));
    numbered(cell, lower(work, asked.0 as usize))
}

// The front or a part of the trimmed card: its own word, and behind it the card's first or next words (the kind says which) with new
// numbers.
fn write_row(names: &[u32], kind: Kind, own: u32, work: &[u32], out: &mut [u32])
    requires { Naming names.now 0 (length names.now) (length work.now) × (length names.now ≤ number_values)
        × (length out.old ≡ 1 + length names.now) × (0 < length work.now) }
    ensures { out.new ≡ row_words names.now 0 (length names.now) (kind_number kind) own work.now }
{
    for (j, name) in names.iter().enumerate() {
        let new = new_name(work, Cell(games::low_field(*name)));
        out[1 + j] = cards::kind_naming(kind, new, Observation(j as u32));
    }
    out[0] = own;
}

// The trimmed card at the front of its room, from the new numbers: the front, and the parts of the kept cells.
fn write_trimmed(card: Card, work: &[u32], kept: u32, out: &mut [u32])
    requires { Renumbering (automaton card.words.now) (card_observations card.words.now) work.now
        × (kept ≡ kept_cells card.words.now) × (length (trimmed card.words.now) ≤ length out.old) }
    ensures { out.new ≡ trimmed card.entry.words.now ++ drop (length (trimmed card.entry.words.now)) out.old }
{
    let o = card.observations();
    let front = games::front_length(o);
    let part = games::part_length(o);
    let head = cards::heading(kept, o, card.actions());
    let words = card.words;
    write_row(&words[1..front], Kind::First, head, work, &mut out[..front]);
    for i in 0..kept {
        let from = cards::cell_place(o, Cell(upper(work, i as usize)));
        let own = words[from];
        let at = cards::cell_place(o, Cell(i));
        let names = &words[from + 1..from + part];
        write_row(names, Kind::Next, own, work, &mut out[at..at + part]);
    }
}

// The trimmed card at the front of its room, from the marks. A card without idle cells stays as it is.
fn write_marked(card: Card, work: &mut [u32], kept: u32, out: &mut [u32])
    requires { Marked (automaton card.words.now) (card_observations card.words.now) work.old kept
        × (length (trimmed card.words.now) ≤ length out.old) }
    ensures { out.new ≡ trimmed card.entry.words.now ++ drop (length (trimmed card.entry.words.now)) out.old }
{
    if kept == card.cells() {
        sets::copy(card.words, out);
        return;
    }
    number(work);
    write_trimmed(card, work, kept, out);
}

// For a card with work for its cells: the reached cells, then 9 or the trimmed card.
fn trim_into(card: Card, work: &mut [u32], out: &mut [u32]) -> Result<Extent, Refusal>
    requires { length work.old ≡ card_cells card.words.now }
    ensures { leaves result out.new ≡ by_room card.entry.words.now out.old }
{
    let kept = mark_reached(card, work) as u32;
    let need = games::card_length(kept, card.observations());
    if out.len() < need {
        return Err(Reason::ShortRoom.at(need));
    }
    write_marked(card, work, kept, out);
    Ok(Extent {
        words: need,
        cells: kept,
    })
}

// Trimming a card: its idle cells are dropped.
pub fn trim(card: &[u32], work: &mut [u32], out: &mut [u32]) -> Result<Extent, Refusal>
    ensures determined { leaves result (buffers work.new out.new)
        ≡ trimmed_into card.now work.old out.old }
    ensures promised { Trims card.now result out.new }
{
    let card = Card::of(card)?;
    let need = card.cells() as usize;
    if work.len() < need {
        return Err(Reason::ShortWork.at(need));
    }
    let answer = trim_into(card, &mut work[..need], out);
    work[..need].fill(0);
    answer
}
