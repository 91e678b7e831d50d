// What writing and reading a card as KISS2 (document 02, change 6) share: the slot of a line, the bits of a number, and the lowest cell that
// no sequence of observations leads to.
#![tactic(auto)]

ghost use Rattle.std.specs.Prelude.{◌≡◌, false, not, ◌≤◌, length};
ghost use Rattle.sets.specs.Bounded.{first};
ghost use Rattle.games.specs.Format.{max_actions, max_cells};
ghost use Rattle.cards.specs.Card.{automaton, card_cells, card_observations};
ghost use Rattle.trimming.specs.Trim.{no_first};
ghost use Rattle.trimmer.specs.Halves.{marked};
ghost use Rattle.kiss.specs.Text.{bits as fewest_bits};
ghost use Rattle.kiss.specs.Idle.{idle, cell_found};

use cards::Card;
use games::{Cell, Observation};

// A state and an observation. A state is a number, 0 for the reset state and 1 + c for cell c, and no `Option<Cell>`: the least state of the
// next line is computed by + 1. The observation is a number too, for the lowest free slot may be one past the last.
#[derive(Clone, Copy)]
pub struct Slot {
    pub state: u32,
    pub observation: u32,
}

// The fewest bits that hold n - 1, at least one.
#[tactic(auto, using(crate::proofs::Widths::bits_one, crate::proofs::Widths::bits_two, crate::proofs::Widths::bits_three))]
pub fn bits(n: u32) -> u32
    requires { n ≤ max_actions }
    ensures { result ≡ fewest_bits n }
{
    match n {
        0..=2 => 1,
        3..=4 => 2,
        _ => 3,
    }
}

// Whether no first word names a cell.
fn no_first(card: Card) -> bool
    ensures { result ≡ no_first (automaton card.entry.words.now) (card_observations card.entry.words.now) }
{
    (0..card.observations()).all(|j| card.first_cell(Observation(j)).is_none())
}

// The lowest cell that is not marked.
fn lowest_unmarked(marks: &[u32]) -> Option<Cell>
    requires { length marks.now ≤ max_cells }
    ensures { result ≡ cell_found (first (length marks.now) (λ c. not (marked marks.now c))) }
{
    (0..marks.len() as u32)
        .find(|c| trimmer::lower(marks, *c as usize) == 0)
        .map(Cell)
}

// The lowest cell that is not reached, where a first word names a cell; a mark for each cell is lent.
#[tactic(auto, using(crate::proofs::Idling::few_cells, crate::proofs::Idling::idle_unmarked, cards::proofs::Running::size_of))]
fn lowest_unreached(card: Card, marks: &mut [u32]) -> Option<Cell>
    requires { (length marks.old ≡ card_cells card.words.now)
        × (no_first (automaton card.words.now) (card_observations card.words.now) ≡ false) }
    ensures { result ≡ cell_found (idle card.entry.words.now) }
{
    trimmer::mark_reached(card, marks);
    lowest_unmarked(marks)
}

// The lowest cell that no sequence of observations leads to, with marks lent for as many cells as a card can have.
#[tactic(auto, using(crate::proofs::Idling::few_cells, crate::proofs::Idling::front_long, crate::proofs::Idling::idle_none_first))]
fn idle_by(card: Card, marks: &mut [u32]) -> Option<Cell>
    requires { max_cells ≤ length marks.old }
    ensures { result ≡ cell_found (idle card.entry.words.now) }
{
    if no_first(card) {
        return Some(Cell(0));
    }
    let cells = card.cells() as usize;
    lowest_unreached(card, &mut marks[..cells])
}

// The lowest cell that no sequence of observations leads to, if there is one. The marks are on the stack.
pub fn lowest_idle(card: Card) -> Option<Cell>
    ensures { result ≡ cell_found (idle card.entry.words.now) }
{
    let mut marks = [0u32; games::MAX_CELLS as usize];
    idle_by(card, &mut marks)
}
