// What a set of states comes to under an action: one walk over its members, from the lowest (document 02, change 4).
// Whether a state is blocked, and its successors, are decided here and nowhere else.
#![tactic(auto)]

ghost use Rattle.std.specs.Prelude.{◌≡◌, ◌<◌};
ghost use Rattle.games.specs.Game.{enabled as is_enabled};
ghost use Rattle.games.specs.Words.{game};
ghost use Rattle.walk.specs.Walk.{moved, walked};

use games::{Action, State};
use tables::Table;

// The state's successors, none where the action is blocked there. A parked state leads to no state.
#[tactic(auto, using(tables::proofs::Bounds::few_states, games::proofs::Enabled::enabled_moves, games::proofs::Enabled::enabled_still), unfolding(crate::specs::Walk::moved))]
pub fn move_from(table: Table, a: Action, i: State) -> Option<u32>
    requires { (a.0 < (game table.words.now).actions) × (i.0 < (game table.words.now).states) }
    ensures { result ≡ moved (game table.entry.words.now) a.0 i.0 }
{
    let u = table.successors(a, i);
    let passes = u != 0 || sets::member(table.parked(), i.0);
    passes.then_some(u)
}

// The action is enabled in the state: it is not blocked there.
#[tactic(auto, using(crate::proofs::Moves::moved_some))]
pub fn enabled(table: Table, a: Action, i: State) -> bool
    requires { (a.0 < (game table.words.now).actions) × (i.0 < (game table.words.now).states) }
    ensures { result ≡ is_enabled (game table.entry.words.now) i.0 a.0 }
{
    move_from(table, a, i).is_some()
}

// What a set comes to under an action.
#[derive(Clone, Copy)]
pub struct Walked {
    // the successors of the whole set, or the lowest member where the action is blocked
    pub post: Result<u32, State>,
    // how many members were looked at: all, or those up to and with the blocked one
    pub looked: u32,
}

// The lowest member is looked at and taken off, until one is blocked or none is left.
#[tactic(auto, using(tables::proofs::Bounds::few_states))]
pub fn walk(table: Table, s: u32, a: Action) -> Walked
    requires { a.0 < (game table.words.now).actions }
    ensures { result ≡ walked (game table.entry.words.now) s a.0 }
{
    let mut rest = s % sets::single(table.states());
    let mut u: u32 = 0;
    let mut looked: u32 = 0;
    // (No range: each turn takes the lowest bit off, and no index is counted; `looked` counts members.)
    while rest != 0 {
        let i = State(u32::trailing_zeros(rest));
        let Some(v) = move_from(table, a, i) else {
            return Walked {
                post: Err(i),
                looked: looked + 1,
            };
        };
        u |= v;
        looked += 1;
        rest &= rest - 1;
    }
    Walked {
        post: Ok(u),
        looked,
    }
}
