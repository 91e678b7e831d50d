// The successors of every set of states in two reads, for the search and the judge of cards: a table for the lower half of the states
// and one for the upper half.
#![tactic(auto)]

ghost use Rattle.std.specs.Prelude.{◌≡◌, ◌+◌, ◌*◌, ◌^◌, ◌<◌, ◌≤◌, min, length};
ghost use Rattle.games.specs.Words.{game};
ghost use Rattle.moves.specs.Halves.{posted, half_states, half_sets, side_words, mark as marked, InHalf, Doubled, Halved, Sided, Tabled};

use games::{Action, State};
use tables::{Accepted, Table};

// The states of a half, their sets, and the words for these.
const HALF_STATES: u32 = (games::MAX_STATES + 1) / 2;

const HALF_SETS: u32 = 1 << HALF_STATES;

const HALF_WORDS: usize = HALF_SETS as usize;

// The words of one of the two tables: a half for each action.
pub const SIDE_WORDS: usize = games::MAX_ACTIONS as usize * HALF_WORDS;

// Above every mask: it stands for the successors where the action is not enabled. A number, so that two table words are united at once.
const BLOCKED: u32 = games::LOW_VALUES;

// The first entries again behind them, united with the successors of one state more.
// (By an index: it reads the words that it writes, and two halves of `split_at_mut` would have to be said to be one slice again.)
fn double(half: &mut [u32], size: usize, w: u32)
    requires { size + size ≤ length half.old }
    ensures { Doubled size w half.old half.new }
{
    for x in 0..size {
        half[size + x] = half[x] | w;
    }
}

// The state's successors under the action, or the mark where it is not enabled.
fn mark(table: Table, a: Action, i: State) -> u32
    requires { (a.0 < (game table.words.now).actions) × (i.0 < (game table.words.now).states) }
    ensures { result ≡ marked (game table.entry.words.now) a.0 i.0 }
{
    walk::move_from(table, a, i).unwrap_or(BLOCKED)
}

// What every set of `count` states, from `first` on, leads to under the action.
fn fill_half(table: Table, a: Action, first: u32, count: u32, half: &mut [u32])
    requires { InHalf (game table.words.now) a.0 first count × (length half.old ≡ half_sets) }
    ensures { Halved (game table.entry.words.now) a.0 first count half.new }
{
    half[0] = 0;
    let mut size: usize = 1;
    for i in 0..count {
        double(half, size, mark(table, a, State(first + i)));
        // (No index: the filled front doubles with each state.)
        size += size;
    }
}

// The same for each action; `HALF_WORDS` for each.
fn fill_side(table: Table, first: u32, count: u32, side: &mut [u32])
    requires { (length side.old ≡ side_words) × (first + count ≤ (game table.words.now).states)
        × (count ≤ half_states) }
    ensures { Sided (game table.entry.words.now) first count (game table.entry.words.now).actions
        side.new }
{
    for a in 0..table.actions() {
        let at = a as usize * HALF_WORDS;
        let end = at + HALF_WORDS;
        fill_half(table, Action(a), first, count, &mut side[at..end]);
    }
}

fn low_states(n: u32) -> u32
    ensures { result ≡ min n half_states }
{
    n.min(HALF_STATES)
}

// Fills both tables.
pub fn fill(table: Table, low: &mut [u32], high: &mut [u32])
    requires { (length low.old ≡ side_words) × (length high.old ≡ side_words) }
    ensures { Tabled (game table.entry.words.now) low.new high.new }
{
    let n = table.states();
    let split = low_states(n);
    fill_side(table, 0, split, low);
    fill_side(table, split, n - split, high);
}

// An accepted table and the two tables of its moves.
#[derive(Clone, Copy)]
pub struct Moves<'a> {
    pub accepted: Accepted<'a>,
    pub low: &'a [u32],
    pub high: &'a [u32],
    pub ghost tabled: { Tabled (game accepted.table.words.now) low.now high.now },
}

impl Moves<'_> {
    // The set's successors under the action, in two reads; none where the action is not enabled at a member.
    pub fn post(self, s: u32, a: Action) -> Option<u32>
        requires { (s < 2 ^ (game self.accepted.table.words.now).states)
            × (a.0 < (game self.accepted.table.words.now).actions) }
        ensures { result ≡ posted (game self.entry.accepted.table.words.now) s a.0 }
    {
        let at = (a.0 * HALF_SETS) as usize;
        let u = self.low[at + (s % HALF_SETS) as usize] | self.high[at + (s / HALF_SETS) as usize];
        (u < BLOCKED).then_some(u)
    }
}
