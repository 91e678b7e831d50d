// The card of a yes, from the settled cells and their index: the card's words.
#![tactic(auto)]

ghost use Rattle.std.specs.Prelude.{◌≡◌, ◌≤◌, ◌++◌, length, drop};
ghost use Rattle.games.specs.Words.{game, front_length, part_length, card_length, card_of};
ghost use Rattle.families.specs.Bits.{sets as sets_of};
ghost use Rattle.index.specs.Index.{Noted};
ghost use Rattle.writing.specs.Writing.{Listed, SettledSet, front_words, set_words};

use games::{Action, Cell, Kind, NO_CELL, Observation};
use index::Cells;
use moves::Moves;

// An accepted table's moves, and its settled cells with what helps to search them.
#[derive(Clone, Copy)]
pub struct Settled<'a> {
    pub moves: Moves<'a>,
    pub cells: Cells<'a>,
    pub ghost listed: { Listed moves.accepted.table.words.now cells.tops.now cells.base },
}

impl Settled<'_> {
    // The card's head and first cells. (How many cells there are stays a parameter: it is the length of the front of the work, which is lent
    // apart.)
    fn write_front(self, work: &mut [u32], count: u32, out: &mut [u32])
        requires { Noted self.cells.tops.now self.cells.base work.old
            × (count ≡ length (sets_of self.cells.tops.now))
            × (length out.old ≡ front_length (game self.moves.accepted.table.words.now).observations) }
        ensures { (out.new ≡ front_words (game self.entry.moves.accepted.table.words.now))
            × Noted self.entry.cells.tops.now self.entry.cells.base work.new }
    {
        let table = self.moves.accepted.table;
        for j in 0..table.start_sets() {
            let j = Observation(j);
            let held = self.cells.holding(work, table.start_set(j));
            let first = held.unwrap_or(Cell(NO_CELL));
            out[1 + j.0 as usize] = cards::kind_naming(Kind::First, first, j);
        }
        out[0] = cards::heading(count, table.observations(), table.actions());
    }

    // The words of the cell with the set s. Its action is the lowest that leads, for every observation, into a cell.
    fn write_cell(self, work: &mut [u32], s: u32, out: &mut [u32])
        requires { Noted self.cells.tops.now self.cells.base work.old
            × SettledSet (game self.moves.accepted.table.words.now) s
            × (length out.old ≡ part_length (game self.moves.accepted.table.words.now).observations) }
        ensures { (out.new ≡ set_words (game self.entry.moves.accepted.table.words.now) s)
            × Noted self.entry.cells.tops.now self.entry.cells.base work.new }
    {
        let table = self.moves.accepted.table;
        let o = table.observations();
        // (Two loops in one: an observation without a cell goes on to the next action. The label says so in a word, an inner function by a further answer.
        // The innermost loop runs once: `break` yields the holding cell.)
        'actions: for a in 0..table.actions() {
            let Some(u) = self.moves.post(s, Action(a)) else {
                continue 'actions;
            };
            for j in 0..o {
                let t = u & table.shown(Observation(j));
                let cell = loop {
                    let Some(holder) = self.cells.holding(work, t) else {
                        continue 'actions;
                    };
                    break holder;
                };
                out[1 + j as usize] = cards::kind_naming(Kind::Next, cell, Observation(j));
            }
            out[0] = cards::picking(s, Action(a));
            return;
        }
    }

    // The card's words at the front of its room.
    pub fn write_card(self, work: &mut [u32], count: u32, card: &mut [u32])
        requires { Noted self.cells.tops.now self.cells.base work.old
            × (count ≡ length (sets_of self.cells.tops.now))
            × (card_length count (game self.moves.accepted.table.words.now).observations ≤ length card.old) }
        ensures { card.new ≡ card_of (game self.entry.moves.accepted.table.words.now)
            ++ drop (card_length count (game self.entry.moves.accepted.table.words.now).observations) card.old }
    {
        let o = self.moves.accepted.table.observations();
        let front = games::front_length(o);
        let part = games::part_length(o);
        self.write_front(work, count, &mut card[..front]);
        for c in 0..count {
            let at = cards::cell_place(o, Cell(c));
            let s = work[c as usize];
            self.write_cell(work, s, &mut card[at..at + part]);
        }
    }
}
