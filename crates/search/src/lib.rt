// The search on sets: the step, applied to families of sets as bits until a start set is lost or nothing changes.
#![tactic(auto)]

ghost use Rattle.std.specs.Prelude.{◌≡◌, ◌+◌, ◌*◌, ◌^◌, ◌<◌, length};
ghost use Rattle.sets.specs.Mask.{member, common};
ghost use Rattle.families.specs.Bits.{lanes, has as is_in, Bits};
ghost use Rattle.games.specs.Words.{game};
ghost use Rattle.games.specs.Step.{meets, step, good};
ghost use Rattle.games.specs.Verdict.{start_sets, start_set, starts_in};
ghost use Rattle.moves.specs.Halves.{shown_in};
ghost use Rattle.search.specs.Stages.{Stage, Sound, Passed, safely_enabled, EnabledStates};
ghost use Rattle.search.specs.Found.{Reached, Searched};

use families::{LANE_SETS, Lane};
use games::{Action, MAX_ACTIONS, Observation, State};
use moves::Moves;
use tables::{Accepted, Table};

// The place of the last set of a lane.
const LAST: u32 = LANE_SETS - 1;

// An accepted table's moves, and a family that the step is applied to.
#[derive(Clone, Copy)]
struct Round<'a> {
    moves: Moves<'a>,
    family: &'a [u64],
    ghost stage: { Stage (game moves.accepted.table.words.now) family.now },
}

impl Round<'_> {
    // The states of u that show the observation form a set of the family.
    fn has_shown(self, u: u32, j: Observation) -> bool
        requires { (u < 2 ^ (game self.moves.accepted.table.words.now).states)
            × (j.0 < (game self.moves.accepted.table.words.now).observations) }
        ensures { result ≡ is_in self.entry.family.now (common u ((game self.entry.moves.accepted.table.words.now).shown j.0)) }
    {
        families::has(self.family, u & self.moves.accepted.table.shown(j))
    }

    // So it is for every observation. Where u itself is a set of the family, it is: they are its subsets.
    fn shown_in(self, u: u32) -> bool
        requires { u < 2 ^ (game self.moves.accepted.table.words.now).states }
        ensures { result ≡ shown_in (game self.entry.moves.accepted.table.words.now) (is_in self.entry.family.now) u }
    {
        let o = self.moves.accepted.table.observations();
        families::has(self.family, u) || sets::all(o, |j| self.has_shown(u, Observation(j)))
    }

    // The action is enabled at all members of s, and leads to sets of the family.
    fn action_meets(self, s: u32, a: Action) -> bool
        requires { (s < 2 ^ (game self.moves.accepted.table.words.now).states)
            × (a.0 < (game self.moves.accepted.table.words.now).actions) }
        ensures { result ≡ meets (game self.entry.moves.accepted.table.words.now) (is_in self.entry.family.now) s a.0 }
    {
        let Some(u) = self.moves.post(s, a) else {
            return false;
        };
        self.shown_in(u)
    }

    // The step: a set with no bad state for which one action meets it.
    fn meets_step(self, s: u32) -> bool
        requires { s < 2 ^ (game self.moves.accepted.table.words.now).states }
        ensures { result ≡ step (game self.entry.moves.accepted.table.words.now) (is_in self.entry.family.now) s }
    {
        let table = self.moves.accepted.table;
        s & table.bad() == 0 && sets::any(table.actions(), |a| self.action_meets(s, Action(a)))
    }

    // The step on the sets of one lane, from the largest down: a set that meets it settles its subsets. `covered` are subsets of sets found in other lanes.
    fn pass_lane(self, lane: u32, covered: u64) -> u64
        requires { (lane < length self.family.now)
            × Sound (game self.moves.accepted.table.words.now) (is_in self.family.now) lane covered }
        ensures { Passed (game self.entry.moves.accepted.table.words.now) (is_in self.entry.family.now) lane result }
    {
        let mut found = covered;
        let mut left = self.family[lane as usize] & !covered;
        // (No range: the highest set that is left is taken off, with its subsets where it meets the step; no index is counted.)
        while left != 0 {
            let h = LAST - u64::leading_zeros(left);
            if self.meets_step(lane * LANE_SETS + h) {
                let below = families::subsets(h);
                found = found | below;
                left = left & !below;
            } else {
                left = left - (1u64 << h);
            }
        }
        found
    }

    // One application of the step: the sets that meet it, into `next`.
    fn pass(self, next: &mut [u64])
        requires { length next.old ≡ length self.family.now }
        ensures { Bits (game self.entry.moves.accepted.table.words.now).states
            (step (game self.entry.moves.accepted.table.words.now) (is_in self.entry.family.now)) next.new }
    {
        for lane in (0..self.family.len()).rev() {
            let covered = Lane {
                bits: next,
                index: lane,
            }
            .larger();
            next[lane] = self.pass_lane(lane as u32, covered);
        }
    }
}

// The start set is in the family.
fn has_start(accepted: Accepted, family: &[u64], j: Observation) -> bool
    requires { (length family.now ≡ lanes (game accepted.table.words.now).states)
        × (j.0 < start_sets (game accepted.table.words.now)) }
    ensures { result ≡ is_in family.now (start_set (game accepted.entry.table.words.now) j.0) }
{
    families::has(family, accepted.table.start_set(j))
}

// Every start set is in the family.
fn starts_in(accepted: Accepted, family: &[u64]) -> bool
    requires { length family.now ≡ lanes (game accepted.table.words.now).states }
    ensures { result ≡ starts_in (game accepted.entry.table.words.now) (is_in family.now) }
{
    sets::all(
        accepted.table.start_sets(),
        |j| has_start(accepted, family, Observation(j)),
    )
}

// The state is not bad, and the action is enabled in it.
fn safely_enabled(table: Table, a: Action, i: State) -> bool
    requires { (a.0 < (game table.words.now).actions) × (i.0 < (game table.words.now).states) }
    ensures { result ≡ safely_enabled (game table.entry.words.now) a.0 i.0 }
{
    let bad = sets::member(table.bad(), i.0);
    walk::enabled(table, a, i) & !bad
}

// The states that are not bad and in which the action is enabled.
fn enabled_states(table: Table, a: Action) -> u32
    requires { a.0 < (game table.words.now).actions }
    ensures { EnabledStates (game table.entry.words.now) a.0 (game table.entry.words.now).states
        result }
{
    let mut mask: u32 = 0;
    for i in 0..table.states() {
        if safely_enabled(table, a, State(i)) {
            mask = mask | sets::single(i);
        }
    }
    mask
}

// The sets that are good for one round: the subsets of the states, not bad, in which an action is enabled.
fn first_family(table: Table, family: &mut [u64])
    requires { length family.old ≡ lanes (game table.words.now).states }
    ensures { Bits (game table.entry.words.now).states (good (game table.entry.words.now) 1)
        family.new }
{
    let actions = table.actions();
    let mut masks = [0u32; MAX_ACTIONS as usize];
    for a in 0..actions {
        masks[a as usize] = enabled_states(table, Action(a));
    }
    families::below(&masks[..actions as usize], table.states(), family);
}

// How the search ends: the families settled at k with the start sets in them, or a start set is not good for k.
// (No Result, whose `?` would say that a lost start is a failure, and no Option: both have numbers.)
#[derive(Clone, Copy, PartialEq, Eq, Debug)]
pub enum Ended {
    Settled(u32),
    Lost(u32),
}

// Applies the step, from good for one round on, until a start set is lost or nothing changes. (The two rooms stay two parameters, as they are
// lent: `solver` finds the cells in the second one, with the first at hand.)
fn settle(moves: Moves, family: &mut [u64], next: &mut [u64]) -> Ended
    requires { Reached (game moves.accepted.table.words.now) 1 family.old × (length next.old ≡ length family.old) }
    ensures { Searched (game moves.entry.accepted.table.words.now) result family.new }
{
    // (No range: how many rounds there are is what is sought, and of `1..` it had to be said that it doesn't end first.)
    let mut k: u32 = 1;
    loop {
        Round { moves, family }.pass(next);
        let round = k + 1;
        if !starts_in(moves.accepted, next) {
            return Ended::Lost(round);
        }
        if *family == *next {
            return Ended::Settled(k);
        }
        family.copy_from_slice(next);
        k = round;
    }
}

// The search: good for one round at once, then the step. `next` is scratch.
pub fn search(moves: Moves, family: &mut [u64], next: &mut [u64]) -> Ended
    requires { (length family.old ≡ lanes (game moves.accepted.table.words.now).states)
        × (length next.old ≡ length family.old) }
    ensures { Searched (game moves.entry.accepted.table.words.now) result family.new }
{
    let table = moves.accepted.table;
    let all = sets::single(table.states()) - 1;
    first_family(table, family);
    if !starts_in(moves.accepted, family) {
        return Ended::Lost(1);
    }
    if families::has(family, all) {
        return Ended::Settled(0);
    }
    settle(moves, family, next)
}
