// The solver: the search on sets, and the card.
#![tactic(auto)]

ghost use Rattle.std.specs.Prelude.{◌≡◌, ◌≤◌, ◌^◌, length};
ghost use Rattle.games.specs.Format.{max_states};
ghost use Rattle.games.specs.Answers.{leaves};
ghost use Rattle.games.specs.Words.{game};
ghost use Rattle.families.specs.Bits.{lanes as lanes_of, sets, Bits};
ghost use Rattle.games.specs.Verdict.{settled as settled_family, cells as cells_of, verdict, Yes};
ghost use Rattle.solver.specs.Solve.{work_words, by_verdict, buffers, solved, Promise};
ghost use Rattle.index.specs.Index.{Noted};

use families::MAX_LANES;
use games::{Reason, Refusal};
use index::Cells;
use moves::{Moves, SIDE_WORDS};
use search::Ended;
use tables::Accepted;
use writing::Settled;

// The number of sets of n states.
fn set_count(n: u32) -> usize
    requires { n ≤ max_states }
    ensures { result ≡ 2 ^ n }
{
    sets::single(n) as usize
}

// The verdict on a table: yes with the settling count and the number of cells, no with the round number.
// (No Result: a caller of `solve` would have one in another, and no Option: both have numbers.)
#[derive(Clone, Copy, PartialEq, Eq, Debug)]
pub enum Verdict {
    Yes(u32, u32),
    No(u32),
}

// A yes, settled after so many rounds: the card is written if there is room for it. (Work and card stay two parameters, here and below: both
// are lent `&mut`, and in a struct each step had to say that the other one stays.)
fn grant(
    settled: Settled,
    work: &mut [u32],
    count: u32,
    card: &mut [u32],
    rounds: u32,
) -> Result<Verdict, Refusal>
    requires { Noted settled.cells.tops.now settled.cells.base work.old
        × (count ≡ length (sets settled.cells.tops.now)) }
    ensures { leaves result card.new
        ≡ by_verdict (game settled.entry.moves.accepted.table.words.now) card.old (Yes rounds count) }
{
    let need = games::card_length(count, settled.moves.accepted.table.observations());
    if card.len() < need {
        return Err(Reason::ShortRoom.at(need));
    }
    settled.write_card(work, count, card);
    Ok(Verdict::Yes(rounds, count))
}

// The cells of a yes, as bits in `tops` and in front of the work, with what helps to search them, and the card from them.
fn accept<'a>(
    moves: Moves<'a>,
    family: &'a [u64],
    tops: &'a mut [u64],
    work: &mut [u32],
    card: &mut [u32],
    rounds: u32,
) -> Result<Verdict, Refusal>
    requires { Bits (game moves.accepted.table.words.now).states (settled_family (game moves.accepted.table.words.now)) family.now
        × (length tops.old ≡ length family.now)
        × (length work.old ≡ work_words (game moves.accepted.table.words.now).states) }
    ensures { leaves result card.new
        ≡ by_verdict (game moves.entry.accepted.table.words.now) card.old (Yes rounds (length (cells_of (game moves.entry.accepted.table.words.now)))) }
{
    let n = moves.accepted.table.states();
    families::maximal_bits(family, n, tops);
    let base = set_count(n);
    let count = index::note_cells(tops, base, work);
    let mut layers = [0u64; index::LAYERS];
    index::mark_layers(&work[..count], &mut layers);
    let mut masks = [0u64; index::MASKS];
    index::mark_masks(&mut masks);
    let cells = Cells {
        family,
        tops,
        layers: &layers,
        masks: &masks,
        base,
    };
    grant(Settled { moves, cells }, work, count as u32, card, rounds)
}

// The search on the families' words, and the card where it ends in a yes.
fn answer_with(
    moves: Moves,
    family: &mut [u64],
    next: &mut [u64],
    work: &mut [u32],
    card: &mut [u32],
) -> Result<Verdict, Refusal>
    requires { (length family.old ≡ lanes_of (game moves.accepted.table.words.now).states) × (length next.old ≡ length family.old)
        × (length work.old ≡ work_words (game moves.accepted.table.words.now).states) }
    ensures { leaves result card.new
        ≡ by_verdict (game moves.entry.accepted.table.words.now) card.old (verdict (game moves.entry.accepted.table.words.now)) }
{
    match search::search(moves, family, next) {
        Ended::Lost(k) => Ok(Verdict::No(k)),
        Ended::Settled(k) => accept(moves, family, next, work, card, k),
    }
}

// The successors of every set at hand, then the search. The two rooms of the moves stand here, as in the judge's `judge_many`: a maker
// cannot lend arrays of its own, and a struct of both would be copied out, 4 KiB.
fn decide(accepted: Accepted, work: &mut [u32], card: &mut [u32]) -> Result<Verdict, Refusal>
    requires { length work.old ≡ work_words (game accepted.table.words.now).states }
    ensures { leaves result card.new
        ≡ by_verdict (game accepted.entry.table.words.now) card.old (verdict (game accepted.entry.table.words.now)) }
{
    let table = accepted.table;
    let lanes = families::lane_count(table.states());
    let mut low: [u32; SIDE_WORDS] = sets::filled(0);
    let mut high: [u32; SIDE_WORDS] = sets::filled(0);
    moves::fill(table, &mut low, &mut high);
    let mut family: [u64; MAX_LANES] = sets::filled(0);
    let mut next: [u64; MAX_LANES] = sets::filled(0);
    let moves = Moves {
        accepted,
        low: &low,
        high: &high,
    };
    answer_with(moves, &mut family[..lanes], &mut next[..lanes], work, card)
}

// Solve: the verdict on a table and the card of a yes.
pub fn solve(table: &[u32], work: &mut [u32], card: &mut [u32]) -> Result<Verdict, Refusal>
    ensures determined { leaves result (buffers work.new card.new)
        ≡ solved table.now work.old card.old }
    ensures promised { Promise table.now work.old card.old result card.new }
{
    let accepted = Accepted::of(table)?;
    let need = 4 * set_count(accepted.table.states());
    if work.len() < need {
        return Err(Reason::ShortWork.at(need));
    }
    let answer = decide(accepted, &mut work[..need], card);
    sets::fill(work, need, 0);
    answer
}
