// The words of a card (document 01, "Words"): its checks, and the run over words and a cell number.
#![tactic(auto)]

ghost use Rattle.std.specs.Prelude.{◌≡◌, ◌<◌};
ghost use Rattle.games.specs.Format.{low_values, number_values, action_values, kind_values, kind_cell};
ghost use Rattle.games.specs.Kinds.{kind_number};
ghost use Rattle.games.specs.Fields.{word};
ghost use Rattle.games.specs.Words.{card_head};
ghost use Rattle.cards.specs.Card.{head_fits, cell_named, cell_fits, checked};
ghost use Rattle.cards.specs.Card.{cell_place};
ghost use Rattle.cards.specs.Run.{opened, stepped, stands_after, starts, advances};

mod shape;
mod words;

use games::{Action, Cell, Kind, Observation, Reason, Refusal};
use shape::{Draft, Head};
pub use words::Card;

// A cell that was entered, and its action.
#[derive(Clone, Copy, PartialEq, Eq, Debug)]
pub struct Entered {
    pub cell: Cell,
    pub action: Action,
}

// What an observation leads to.
pub type Move = Result<Entered, Refusal>;

// The cell that a runner is in, and its last answer.
// Both stand there: a refused opening still leaves a runner, in no cell.
#[derive(Clone, Copy)]
pub struct Stood {
    pub cell: Cell,
    pub answer: Move,
}

// The words and the cells of a card that stands in front of a room.
#[derive(Clone, Copy, PartialEq, Eq, Debug)]
pub struct Extent {
    pub words: usize,
    pub cells: u32,
}

// The word of a kind that names the cell to go to on an observation.
pub fn kind_naming(kind: Kind, cell: Cell, seen: Observation) -> u32
    requires { (cell.0 < low_values) × (seen.0 < number_values) }
    ensures { result ≡ word (kind_number kind) cell.0 seen.0 0 }
{
    naming(kind.number(), cell, seen)
}

// The same, of a kind by its number.
pub fn naming(kind: u32, cell: Cell, seen: Observation) -> u32
    requires { (kind < kind_values) × (cell.0 < low_values) × (seen.0 < number_values) }
    ensures { result ≡ word kind cell.0 seen.0 0 }
{
    games::word(kind, cell.0, seen.0, 0)
}

// The word of a cell: its set and the action picked there.
pub fn picking(set: u32, picked: Action) -> u32
    requires { (set < low_values) × (picked.0 < action_values) }
    ensures { result ≡ word kind_cell set 0 picked.0 }
{
    games::kind_word(Kind::Cell, set, 0, picked.0)
}

// A card's head.
pub fn heading(cells: u32, o: u32, a: u32) -> u32
    requires { (cells < low_values) × (o < number_values) × (a < action_values) }
    ensures { result ≡ card_head cells o a }
{
    games::kind_word(Kind::Card, cells, o, a)
}

fn head_fits(x: u32) -> bool
    ensures { result ≡ head_fits x }
{
    let head = Head::of(x);
    (x == heading(head.cells, head.observations, head.actions))
        & games::within(head.cells, games::MAX_CELLS)
        & games::within(head.observations, games::MAX_OBSERVATIONS)
        & games::within(head.actions, games::MAX_ACTIONS)
}

// A first or next word, by its kind, for observation j: it names a cell below m, or none. The cell is what the word has above the frame
// of kind and number, so two comparisons do: a word with another frame is further above it.
fn cell_named(kind: Kind, m: u32, j: u32, x: u32) -> bool
    requires { (m < low_values) × (j < number_values) }
    ensures { result ≡ cell_named (kind_number kind) m j x }
{
    let cell = std::num::wrapping_sub_u32(x, games::kind_word(kind, 0, j, 0));
    (cell < m) | (cell == games::NO_CELL)
}

// A cell's own word: its set is below the limit, its action below a. Both are above the frame of the kind.
fn cell_fits(a: u32, x: u32) -> bool
    requires { a < action_values }
    ensures { result ≡ cell_fits a x }
{
    let picked = std::num::wrapping_sub_u32(x, games::kind_word(Kind::Cell, 0, 0, 0));
    (picked % games::ACTION_AT < games::MAX_SETS) & (picked < a * games::ACTION_AT)
}

// Refusal 13: the head, the length, the words in order.
pub fn check(card: &[u32]) -> Result<(), Refusal>
    ensures { result ≡ checked card.now }
{
    if card.len() == 0 {
        return Err(Reason::NoCard.at(0));
    }
    if !head_fits(card[0]) {
        return Err(Reason::NoCard.at(0));
    }
    let head = Head::of(card[0]);
    if card.len() != games::card_length(head.cells, head.observations) {
        return Err(Reason::NoCard.at(card.len()));
    }
    Draft { words: card, head }.check()
}

// Where a cell's part begins: behind the front and the parts of the cells before it.
pub fn cell_place(o: u32, cell: Cell) -> usize
    requires { (o < number_values) × (cell.0 < low_values) }
    ensures { result ≡ cell_place o cell.0 }
{
    games::card_length(cell.0, o)
}

// Document 01's opening of a card with the first observation.
#[tactic(auto, unfolding(crate::specs::Run::opened))]
pub fn begin(card: &[u32], seen: Observation) -> Move
    ensures { result ≡ opened card.now seen.0 }
{
    Card::of(card)?.start(seen)
}

// A later observation in a cell.
#[tactic(auto, unfolding(crate::specs::Run::stepped))]
pub fn step(card: &[u32], cell: Cell, seen: Observation) -> Move
    ensures { result ≡ stepped card.now cell.0 seen.0 }
{
    Card::of(card)?.follow(cell, seen)
}

// Where a runner stands after an answer: in the cell entered; in the one given where the answer is a refusal.
fn after(answer: Move, cell: Cell) -> Stood
    ensures { result ≡ stands_after answer cell }
{
    match answer {
        Ok(entered) => Stood {
            cell: entered.cell,
            answer,
        },
        Err(_) => Stood { cell, answer },
    }
}

// The opening with the cell that it leads to; none where it is refused. The card is checked once.
pub fn opening(card: &[u32], seen: Observation) -> Stood
    ensures { result ≡ starts card.now seen }
{
    after(begin(card, seen), Cell(games::NO_CELL))
}

// A step with the cell that it leads to; the same cell where it is refused. The card is checked once.
pub fn moving(card: &[u32], cell: Cell, seen: Observation) -> Stood
    ensures { result ≡ advances card.now cell seen }
{
    after(step(card, cell, seen), cell)
}
