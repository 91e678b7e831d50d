// The plain judge: is a set good for k rounds? A turn for the action and a turn for the observation ask each other; no list.
#![tactic(auto)]

ghost use Rattle.std.specs.Prelude.{◌≡◌, ◌<◌};
ghost use Rattle.sets.specs.Mask.{common};
ghost use Rattle.games.specs.Step.{good, meets};
ghost use Rattle.games.specs.Words.{game};
ghost use Rattle.judge.specs.Judge.{answered, judged};

use games::{Action, Observation, Reason, Refusal};
use tables::Accepted;

// Document 01: k up to 4.
const MOST_ROUNDS: u32 = 4;

// The set is good for k rounds: one action meets the step.
#[cycle(action_turn_observation_turn)]
fn action_turn(accepted: Accepted, s: u32, k: u32) -> bool
    ensures { result ≡ good (game accepted.entry.table.words.now) k s }
{
    if k == 0 {
        return true; // no round to go
    }
    if s == 0 {
        return true; // the empty set is always good
    }
    if sets::common(s, accepted.table.bad()) != 0 {
        return false; // a bad member
    }
    let rest = k - 1;
    sets::any(
        accepted.table.actions(),
        |a|
            requires { a < (game accepted.table.words.now).actions }
            ensures { let g = game accepted.entry.table.words.now in result ≡ meets g (good g rest) s a }
        { observation_turn(accepted, s, Action(a), rest) },
    )
}

// The action is enabled at all members and, for every observation, the successors that show it are good for k rounds.
#[cycle(action_turn_observation_turn)]
fn observation_turn(accepted: Accepted, s: u32, a: Action, k: u32) -> bool
    requires { a.0 < (game accepted.table.words.now).actions }
    ensures { let g = game accepted.entry.table.words.now in result ≡ meets g (good g k) s a.0 }
{
    let Ok(u) = walk::walk(accepted.table, s, a).post else {
        return false; // blocked at a member
    };
    if k == 0 {
        return true; // every set is good for 0 rounds, so no observation is asked
    }
    sets::all(
        accepted.table.observations(),
        |o|
            requires { o < (game accepted.table.words.now).observations }
            ensures { let g = game accepted.entry.table.words.now in result ≡ good g k (common u (g.shown o)) }
        {
            let seen = sets::common(u, accepted.table.shown(Observation(o)));
            action_turn(accepted, seen, k)
        },
    )
}

// Refusals 17 and 5, else the answer.
#[tactic(auto, using(tables::proofs::Bounds::few_states), unfolding(crate::specs::Judge::answered))]
fn answer(accepted: Accepted, mask: u32, k: u32) -> Result<bool, Refusal>
    ensures { result ≡ answered accepted.entry.table.words.now mask k }
{
    if MOST_ROUNDS < k {
        return Err(Reason::RoundsBeyond.at(k as usize));
    }
    if sets::single(accepted.table.states()) <= mask {
        return Err(Reason::StateBeyond.at(accepted.table.words.len()));
    }
    Ok(action_turn(accepted, mask, k))
}

// Is the set good for k rounds? The table checks come first.
#[tactic(auto, unfolding(crate::specs::Judge::judged))]
pub fn judge(table: &[u32], mask: u32, k: u32) -> Result<bool, Refusal>
    ensures { result ≡ judged table.now mask k }
{
    let accepted = Accepted::of(table)?;
    answer(accepted, mask, k)
}
