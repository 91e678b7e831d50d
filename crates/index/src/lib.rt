// The settled cells as they are searched: the tightest cell that holds a set of states.
#![tactic(auto)]

ghost use Rattle.std.specs.Prelude.{◌≡◌, true, ℕ, ◌+◌, ◌/◌, ◌<◌, ◌^◌, length, get_or, replicate};
ghost use Rattle.sets.specs.Mask.{member};
ghost use Rattle.sets.specs.Family.{holds};
ghost use Rattle.families.specs.Bits.{lane_sets, sets};
ghost use Rattle.games.specs.Format.{max_states};
ghost use Rattle.index.specs.Index.{held_by, mask_count, mask_has, Masks, Room, Noted, Layers, Fits, lowest_in, told, TightestSet, Index};

use families::{LANE_SETS, LANE_STATES};
use games::{Cell, MAX_STATES, NO_CELL};

// A layer for each number of states.
pub const LAYERS: usize = MAX_STATES as usize + 1;

// A mask for each set of the states below 6, and one for each number of them.
pub const MASKS: usize = LANE_SETS as usize + LANE_STATES as usize + 1;

// The cells in front of the work, and from `base` on a note for each set: at a cell's set one more than its number, else 0.
// (No `Option<Cell>`: the lent work is fixed memory, of words; 0 is none.)
#[tactic(auto, using(crate::proofs::Noting::read_below))]
pub fn note_cells(tops: &[u64], base: usize, work: &mut [u32]) -> usize
    requires { Room tops.now base work.old }
    ensures { (result ≡ length (sets tops.now)) × Noted tops.now base work.new }
{
    let end = base + base;
    sets::fill(&mut work[base..end], base, 0);
    let count = families::write(tops, work);
    // (By index: the words that it goes along are those that it writes.)
    for c in 0..count {
        let s = work[c];
        work[base + s as usize] = c as u32 + 1;
    }
    count
}

// For each number of states, the lanes of the cells that have so many.
#[tactic(auto, using(crate::proofs::Marking::layering))]
pub fn mark_layers(cells: &[u32], layers: &mut [u64])
    requires { ((c : ℕ) → c < length cells.now → get_or cells.now c 0 < 2 ^ max_states)
        × (layers.old ≡ replicate (1 + max_states) 0) }
    ensures { Layers cells.now layers.new }
{
    for &s in cells {
        let k = s.count_ones() as usize;
        layers[k] |= 1 << (s / LANE_SETS);
    }
}

// The mask at place i: the sets that hold i, or behind these the sets of so many states.
#[tactic(auto, using(crate::proofs::Marking::mask_set, crate::proofs::Marking::mask_size))]
fn mask_at(i: u32) -> u64
    requires { i < mask_count }
    ensures { (t : ℕ) → t < lane_sets → member result t ≡ mask_has i t }
{
    if i < LANE_SETS {
        return families::supersets(i);
    }
    families::sized(i - LANE_SETS)
}

// All masks. (As constants they would be built anew at each call.)
#[tactic(auto, using(crate::proofs::Marking::masking_none, crate::proofs::Marking::masking_more, crate::proofs::Marking::masking_end))]
pub fn mark_masks(masks: &mut [u64])
    requires { length masks.old ≡ mask_count }
    ensures { Masks masks.new }
{
    for (i, mask) in masks.iter_mut().enumerate() {
        *mask = mask_at(i as u32);
    }
}

// The settled cells with what helps to search them. The work words with the notes stay apart: with a `&mut` to them inside this would be
// no Copy type, and each caller's loop would have to say that all else in it stays.
#[derive(Clone, Copy)]
pub struct Cells<'a> {
    // the sets that a cell's set holds
    pub family: &'a [u64],
    // the cells' sets
    pub tops: &'a [u64],
    // for each number of states, the lanes of the cells that have so many
    pub layers: &'a [u64],
    pub masks: &'a [u64],
    // where the notes begin: there is one for each set of the game's states
    // (No slice of their own: cells and notes share the lent work, whose length is the caller's.)
    pub base: usize,
    pub ghost indexed: { Index family.now tops.now layers.now masks.now },
}

impl Cells<'_> {
    // The lowest cell of k states, of those in the lanes, that `above` has.
    #[tactic(auto, using(crate::proofs::Layering::layer_steps))]
    fn in_layer(self, lanes: u64, above: u64, k: u32) -> Option<u32>
        requires { Fits self.tops.now lanes k }
        ensures { result ≡ told (lowest_in self.entry.tops.now lanes above k) }
    {
        let mut rest = lanes;
        // (No range: each turn takes the lowest bit off, and no index is counted.)
        while rest != 0 {
            let x = rest.trailing_zeros();
            let lane = x as usize;
            let size = (LANE_SETS + k - x.count_ones()) as usize;
            let hit = self.tops[lane] & above & self.masks[size];
            if hit != 0 {
                return Some(x * LANE_SETS + hit.trailing_zeros());
            }
            rest -= 1 << x;
        }
        None
    }

    // The tightest cell's set that holds t. A set of as many states as t that holds it is t; then the layers are gone through.
    #[tactic(auto, using(crate::proofs::Climbing::climbing))]
    fn tightest(self, t: u32) -> u32
        requires { (t / lane_sets < length self.tops.now) × (holds (sets self.tops.now) t ≡ true) }
        ensures { TightestSet self.entry.tops.now t result }
    {
        if families::has(self.tops, t) {
            return t;
        }
        let held = self.masks[(t / LANE_SETS) as usize];
        let above = self.masks[(t % LANE_SETS) as usize];
        // (No `find_map`: each call of its closure and the run of the range would have to be proved, which is longer; tried.)
        for k in t.count_ones() + 1..=MAX_STATES {
            let lanes = self.layers[k as usize] & held;
            if let Some(s) = self.in_layer(lanes, above, k) {
                return s;
            }
        }
        unreachable!()
    }

    // The cell that holds t, `NO_CELL` where t has no state; none where no cell's set holds it. What is found is noted, since few sets
    // are asked for often; a set that is not in the family is in no cell.
    // (Two kinds of none: `None` is a set that no cell holds; `NO_CELL` is the empty set, which asks for no cell, as the card's word says so.)
    pub fn holding(self, work: &mut [u32], t: u32) -> Option<Cell>
        requires { Noted self.tops.now self.base work.old × (t / lane_sets < length self.tops.now)
            × (t < self.base) }
        ensures { (result ≡ held_by (sets self.entry.tops.now) t)
            × Noted self.entry.tops.now self.entry.base work.new }
    {
        if t == 0 {
            return Some(Cell(NO_CELL));
        }
        let at = self.base + t as usize;
        let note = work[at];
        if note != 0 {
            return Some(Cell(note - 1));
        }
        if !families::has(self.family, t) {
            return None;
        }
        let s = self.tightest(t);
        let number = work[self.base + s as usize];
        work[at] = number;
        Some(Cell(number - 1))
    }
}
