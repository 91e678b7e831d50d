// Whether a card, whoever drew it, is safe for a table (document 02, change 1: the judge of cards).
#![tactic(auto)]

ghost use Rattle.std.specs.Prelude.{◌≡◌, ◌^◌, ◌<◌, Bool, ℕ};
ghost use Rattle.std.specs.Option.{ForSome};
ghost use Rattle.sets.specs.Calls.{Answers};
ghost use Rattle.games.specs.Words.{game, front_length, part_length};
ghost use Rattle.cards.specs.Card.{automaton, card_cells, card_observations};
ghost use Rattle.cards.specs.Checking.{FirstWrong};
ghost use Rattle.moves.specs.Halves.{posted};
ghost use Rattle.certificates.specs.Certificate.{first_holds, set_fits, next_holds, words_certified, certified, Safe};
ghost use Rattle.certificates.specs.Judging.{lies_in, Halves, Successors, HoldsBelow, part_holds};

use cards::Card;
use games::{Action, Cell, Observation, Reason, Refusal};
use moves::{Moves, SIDE_WORDS};
use pairs::Pair;
use tables::Table;

// From so many cells on the half tables of the moves are filled first: two reads for a cell's set, and no walk over its members.
const MANY_CELLS: u32 = 48;

// The states of s lie in the set of the cell named; there are none where the card says "cannot occur".
fn lie(card: Card, s: u32, cell: Option<Cell>) -> bool
    requires { ForSome cell (λ c. c.0 < card_cells card.words.now) }
    ensures { result ≡ lies_in (automaton card.entry.words.now) s cell }
{
    match cell {
        None => s == 0,
        Some(cell) => sets::subset(s, card.cell_set(cell)),
    }
}

// How many of the first n numbers pass, in their order, before one that doesn't; all, where none fails. A count and no `Option`, here and
// in the next three: one definition (`FirstWrong`) says both ends, and a part's count is 1 + its next words', be one of them wrong or none.
fn passes<F: Fn(u32) -> bool>(n: u32, test: F) -> u32
    requires { (i : ℕ) → i < n → F.pre test i }
    ensures { (said : ℕ → Bool) → Answers (F.post test) n said → FirstWrong said n result }
{
    for i in 0..n {
        if !test(i) {
            return i;
        }
    }
    n
}

// The first word for an observation holds.
fn first_holds(pair: Pair, j: Observation) -> bool
    requires { j.0 < card_observations pair.card.words.now }
    ensures { result ≡ first_holds (game pair.entry.table.table.words.now) (automaton pair.entry.card.words.now) j.0 }
{
    lie(
        pair.card,
        pair.table.table.start_set(j),
        pair.card.first_cell(j),
    )
}

// How many first words hold.
fn firsts_hold(pair: Pair) -> u32
    ensures { FirstWrong (first_holds (game pair.entry.table.table.words.now) (automaton pair.entry.card.words.now))
        (card_observations pair.entry.card.words.now) result }
{
    passes(
        pair.card.observations(),
        |j| first_holds(pair, Observation(j)),
    )
}

// The set has no state from n up and no bad one.
fn set_fits(table: Table, s: u32) -> bool
    ensures { result ≡ set_fits (game table.entry.words.now) s }
{
    (s < sets::single(table.states())) & (sets::common(s, table.bad()) == 0)
}

// A pair that is judged, with the half tables of its moves where there are any.
#[derive(Clone, Copy)]
struct Judge<'a> {
    pair: Pair<'a, 'a>,
    moves: Option<Moves<'a>>,
    ghost halves: { Halves pair.table.table.words.now moves },
}

impl Judge<'_> {
    // What a set comes to under an action: by the half tables where there are any, else by one walk over its members.
    fn post(self, s: u32, a: Action) -> Option<u32>
        requires { (s < 2 ^ (game self.pair.table.table.words.now).states)
            × (a.0 < (game self.pair.table.table.words.now).actions) }
        ensures { result ≡ posted (game self.entry.pair.table.table.words.now) s a.0 }
    {
        match self.moves {
            Some(halves) => halves.post(s, a),
            None => walk::walk(self.pair.table.table, s, a).post.ok(),
        }
    }

    // A next word of a cell holds, by the successors of the cell's set.
    fn next_holds(self, cell: Cell, u: u32, j: Observation) -> bool
        requires { (cell.0 < card_cells self.pair.card.words.now) × (j.0 < card_observations self.pair.card.words.now)
            × Successors (game self.pair.table.table.words.now) (automaton self.pair.card.words.now) cell.0 u }
        ensures { result ≡ next_holds (game self.entry.pair.table.table.words.now) (automaton self.entry.pair.card.words.now) cell.0 j.0 }
    {
        let after = sets::common(u, self.pair.table.table.shown(j));
        lie(self.pair.card, after, self.pair.card.next_cell(cell, j))
    }

    // How many of them hold.
    fn nexts_hold(self, cell: Cell, u: u32) -> u32
        requires { (cell.0 < card_cells self.pair.card.words.now)
            × Successors (game self.pair.table.table.words.now) (automaton self.pair.card.words.now) cell.0 u }
        ensures { FirstWrong (next_holds (game self.entry.pair.table.table.words.now) (automaton self.entry.pair.card.words.now) cell.0)
            (card_observations self.entry.pair.card.words.now) result }
    {
        passes(
            self.pair.card.observations(),
            |j| self.next_holds(cell, u, Observation(j)),
        )
    }

    // How many words of a cell's part hold, its own and then its next words.
    fn part_holds(self, cell: Cell) -> u32
        requires { cell.0 < card_cells self.pair.card.words.now }
        ensures { FirstWrong (part_holds (game self.entry.pair.table.table.words.now) self.entry.pair.card.words.now cell.0)
            (part_length (card_observations self.entry.pair.card.words.now)) result }
    {
        let s = self.pair.card.cell_set(cell);
        if !set_fits(self.pair.table.table, s) {
            return 0;
        }
        match self.post(s, self.pair.card.cell_action(cell)) {
            None => 0,
            Some(u) => 1 + self.nexts_hold(cell, u),
        }
    }

    // The parts of the cells in their order: the lowest word at fault stops the judge.
    fn judge_parts(self) -> Result<(), Refusal>
        requires { HoldsBelow (game self.pair.table.table.words.now) self.pair.card.words.now
            (front_length (card_observations self.pair.card.words.now)) }
        ensures { result ≡ words_certified (game self.entry.pair.table.table.words.now) self.entry.pair.card.words.now }
    {
        let card = self.pair.card;
        let length = games::part_length(card.observations());
        for c in 0..card.cells() {
            let held = self.part_holds(Cell(c)) as usize;
            if held < length {
                return Err(Reason::NotSafe.at(card.cell_place(Cell(c)) + held));
            }
        }
        Ok(())
    }
}

// The same with the half tables of the moves at hand. The two rooms stand here, as in the solver's `decide`: a maker cannot lend arrays of
// its own, and a struct of both would be copied out, 4 KiB.
fn judge_many<'a>(pair: Pair<'a, 'a>) -> Result<(), Refusal>
    requires { HoldsBelow (game pair.table.table.words.now) pair.card.words.now (front_length (card_observations pair.card.words.now)) }
    ensures { result ≡ words_certified (game pair.entry.table.table.words.now) pair.entry.card.words.now }
{
    let mut low: [u32; SIDE_WORDS] = sets::filled(0);
    let mut high: [u32; SIDE_WORDS] = sets::filled(0);
    let accepted = pair.table;
    moves::fill(accepted.table, &mut low, &mut high);
    let moves = Moves {
        accepted,
        low: &low,
        high: &high,
    };
    Judge {
        pair,
        moves: Some(moves),
    }
    .judge_parts()
}

// Refusal 18: the first words, then the cells' parts.
fn judge_words<'a>(pair: Pair<'a, 'a>) -> Result<(), Refusal>
    ensures { result ≡ words_certified (game pair.entry.table.table.words.now) pair.entry.card.words.now }
{
    let held = firsts_hold(pair);
    if held < pair.card.observations() {
        return Err(Reason::NotSafe.at(1 + held as usize));
    }
    if pair.card.cells() < MANY_CELLS {
        return Judge { pair, moves: None }.judge_parts();
    }
    judge_many(pair)
}

// The judge of cards: the table checks, 13, 16, 18. An accepted card is safe, whoever drew it.
pub fn judge_card(table: &[u32], card: &[u32]) -> Result<(), Refusal>
    ensures determined { result ≡ certified table.now card.now }
    ensures safe { result ≡ Ok tt → Safe (game table.now) card.now }
{
    judge_words(Pair::of(table, card)?)
}
