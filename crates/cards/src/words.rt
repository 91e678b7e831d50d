// The words of a checked card and what they say. They are checked once, and whoever holds a `Card` knows it.

ghost use Rattle.std.specs.Prelude.{◌≡◌, ◌<◌, Ok, slice_index, IfOk, IfErr};
ghost use Rattle.std.specs.Option.{ForSome};
ghost use Rattle.games.specs.Fields.{low_field};
ghost use Rattle.cards.specs.Card.{head_place, checked, automaton, card_cells, card_observations, card_actions, cell_place};
ghost use Rattle.cards.specs.Checking.{HeadOf};
ghost use Rattle.cards.specs.Run.{led, enters_if, begun, followed};

use crate::shape::Head;
use crate::{Entered, Move};
use games::{Action, Cell, Observation, Reason, Refusal};

#[derive(Clone, Copy)]
pub struct Card<'c> {
    pub words: &'c [u32],
    pub ghost checked: { checked words.now ≡ Ok tt },
}

// The cell that a first or next word names; none where it says "cannot occur".
fn named(word: u32) -> Option<Cell>
    ensures { result ≡ led (low_field word) }
{
    let cell = games::low_field(word);
    (cell != games::NO_CELL).then_some(Cell(cell))
}

// The cell with its action where there is one, else 14.
fn entered(card: Card, cell: Option<Cell>, seen: Observation) -> Move
    requires { ForSome cell (λ c. c.0 < card_cells card.words.now) }
    ensures { result ≡ enters_if (automaton card.entry.words.now) cell seen.0 }
{
    let cell = cell.ok_or(Reason::CannotOccur.at(seen.0 as usize))?;
    Ok(Entered {
        cell,
        action: card.cell_action(cell),
    })
}

impl<'c> Card<'c> {
    // The words, where they are a card.
    pub fn of(words: &'c [u32]) -> Result<Card<'c>, Refusal>
        ensures card { IfOk result (λ c. c.words ≡ words.entry) }
        ensures refused { IfErr result (λ e. checked words.now ≡ Err e) }
    {
        crate::check(words)?;
        Ok(Card { words })
    }

    // Its head, and the numbers there.
    #[tactic(auto, using(crate::proofs::Checked::some_word))]
    fn head(self) -> Head
        ensures { HeadOf (slice_index self.entry.words.now head_place) result }
    {
        Head::of(self.words[0])
    }

    pub fn cells(self) -> u32
        ensures { result ≡ card_cells self.entry.words.now }
    {
        self.head().cells
    }

    pub fn observations(self) -> u32
        ensures { result ≡ card_observations self.entry.words.now }
    {
        self.head().observations
    }

    pub fn actions(self) -> u32
        ensures { result ≡ card_actions self.entry.words.now }
    {
        self.head().actions
    }

    // Where a cell's part begins.
    pub fn cell_place(self, cell: Cell) -> usize
        requires { cell.0 < card_cells self.words.now }
        ensures { result ≡ cell_place (card_observations self.entry.words.now) cell.0 }
    {
        crate::cell_place(self.observations(), cell)
    }

    // A cell's own word, its set and its action.
    #[tactic(auto, using(crate::proofs::Checked::cell_in))]
    fn own_word(self, cell: Cell) -> u32
        requires { cell.0 < card_cells self.words.now }
        ensures { result ≡ slice_index self.entry.words.now (cell_place (card_observations self.entry.words.now) cell.0) }
    {
        self.words[self.cell_place(cell)]
    }

    #[tactic(auto, unfolding(crate::specs::Card::automaton))]
    pub fn cell_set(self, cell: Cell) -> u32
        requires { cell.0 < card_cells self.words.now }
        ensures { result ≡ (automaton self.entry.words.now).set cell.0 }
    {
        games::low_field(self.own_word(cell))
    }

    #[tactic(auto, unfolding(crate::specs::Card::automaton))]
    pub fn cell_action(self, cell: Cell) -> Action
        requires { cell.0 < card_cells self.words.now }
        ensures { result.0 ≡ (automaton self.entry.words.now).action cell.0 }
    {
        Action(games::action_field(self.own_word(cell)))
    }

    // The cell that a first observation leads to, if it can occur,
    #[tactic(auto, unfolding(crate::specs::Card::automaton))]
    pub fn first_cell(self, seen: Observation) -> Option<Cell>
        requires { seen.0 < card_observations self.words.now }
        ensures { result ≡ led ((automaton self.entry.words.now).begins seen.0) }
    {
        named(self.words[1 + seen.0 as usize])
    }

    // and a later one.
    #[tactic(auto, using(crate::proofs::Checked::next_in), unfolding(crate::specs::Card::automaton))]
    pub fn next_cell(self, cell: Cell, seen: Observation) -> Option<Cell>
        requires { (cell.0 < card_cells self.words.now) × (seen.0 < card_observations self.words.now) }
        ensures { result ≡ led ((automaton self.entry.words.now).next cell.0 seen.0) }
    {
        let place = self.cell_place(cell) + 1 + seen.0 as usize;
        named(self.words[place])
    }

    // The opening with the first observation.
    #[tactic(auto, unfolding(crate::specs::Run::begun))]
    pub fn start(self, seen: Observation) -> Move
        ensures { result ≡ begun (automaton self.entry.words.now) (card_observations self.entry.words.now) seen.0 }
    {
        if self.observations() <= seen.0 {
            return Err(Reason::NumberBeyond.at(seen.0 as usize));
        }
        entered(self, self.first_cell(seen), seen)
    }

    // A step by a later one.
    #[tactic(auto, unfolding(crate::specs::Run::followed))]
    pub fn follow(self, cell: Cell, seen: Observation) -> Move
        ensures { result ≡ followed (automaton self.entry.words.now) (card_observations self.entry.words.now) cell.0 seen.0 }
    {
        if self.cells() <= cell.0 {
            return Err(Reason::NumberBeyond.at(cell.0 as usize));
        }
        if self.observations() <= seen.0 {
            return Err(Reason::NumberBeyond.at(seen.0 as usize));
        }
        entered(self, self.next_cell(cell, seen), seen)
    }
}
