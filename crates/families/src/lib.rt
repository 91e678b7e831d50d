// Families of sets of states as bits, 64 sets to a machine word (lane).
#![tactic(auto)]

ghost use Rattle.std.specs.Prelude.{◌≡◌, Bool, not, ◌++◌, ℕ, ◌+◌, ◌*◌, ◌/◌, ◌^◌, ◌≤◌, ◌<◌, eqb, length, get_or, drop, replicate};
ghost use Rattle.sets.specs.Mask.{member, union, subset};
ghost use Rattle.sets.specs.Bounded.{any, count as count_of, select};
ghost use Rattle.sets.specs.Family.{listed, holds, maximal};
ghost use Rattle.games.specs.Format.{max_states};
ghost use Rattle.families.specs.Bits.{lane_states, lane_sets, high_states, max_lanes, lanes, has as is_in, sets, Bits, Closed, Holding};
ghost use Rattle.families.specs.Bits.{Tells, has_with, larger_has, own_or_larger, word_with, covered_by, Topped, low_has, up_has, above_has, ByLane, raised};

// The states below 6 tell the sets of a lane apart.
pub const LANE_STATES: u32 = 6;

// The sets of a lane.
pub const LANE_SETS: u32 = 1 << LANE_STATES;

// The states from 6 up: they tell the lanes apart.
const HIGH_STATES: u32 = games::MAX_STATES - LANE_STATES;

// The most lanes.
pub const MAX_LANES: usize = 1 << HIGH_STATES;

// For each state below 6, the sets that lack it.
const WITHOUT: [u64; 6] = [
    0x5555_5555_5555_5555,
    0x3333_3333_3333_3333,
    0x0F0F_0F0F_0F0F_0F0F,
    0x00FF_00FF_00FF_00FF,
    0x0000_FFFF_0000_FFFF,
    0x0000_0000_FFFF_FFFF,
];

// For each number of states up to 6, the sets that have so many.
const SIZED: [u64; 7] = [
    0x0000_0000_0000_0001,
    0x0000_0001_0001_0116,
    0x0001_0116_0116_1668,
    0x0116_1668_1668_6880,
    0x1668_6880_6880_8000,
    0x6880_8000_8000_0000,
    0x8000_0000_0000_0000,
];

// How many lanes the sets of n states take.
#[tactic(auto, using(crate::proofs::Lanes::shift_one), unfolding(crate::specs::Bits::lanes))]
pub fn lane_count(n: u32) -> usize
    requires { n ≤ max_states }
    ensures { result ≡ lanes n }
{
    1 << n.saturating_sub(LANE_STATES)
}

// The set s is in the family.
pub fn has(bits: &[u64], s: u32) -> bool
    requires { s / lane_sets < length bits.now }
    ensures { result ≡ is_in bits.now s }
{
    let lane = (s / LANE_SETS) as usize;
    (bits[lane] >> (s % LANE_SETS)) % 2 == 1
}

// The sets that lack the state i, one of those below 6.
fn lacking(i: u32) -> u64
    requires { i < lane_states }
    ensures { (t : ℕ) → t < lane_sets → member result t ≡ not (member t i) }
{
    let at = i as usize;
    WITHOUT[at]
}

// The sets that have the state i.
fn having(i: u32) -> u64
    requires { i < lane_states }
    ensures { (t : ℕ) → t < lane_sets → member result t ≡ member t i }
{
    !lacking(i)
}

// The union of the words that `word` gives for the numbers below n.
#[tactic(auto, using(crate::proofs::Lanes::unite_none, crate::proofs::Lanes::unite_more))]
fn united<F: Fn(u32) -> u64>(n: u32, word: F) -> u64
    requires { (i : ℕ) → i < n → F.pre word i }
    ensures { (t : ℕ) (test : ℕ → Bool) → Tells (F.post word) n t test
        → member result t ≡ any n test }
{
    let mut all = 0;
    for i in 0..n {
        all |= word(i);
    }
    all
}

// The subsets of h, a set of the states below 6: the sets that have no state that h lacks. (A table of 64 words would be built anew at each call.)
pub fn subsets(h: u32) -> u64
    requires { h < lane_sets }
    ensures { (t : ℕ) → t < lane_sets → member result t ≡ subset t h }
{
    !united(
        LANE_STATES,
        |i| if sets::member(h, i) { 0 } else { having(i) },
    )
}

// The sets that hold h, a set of the states below 6: those that lack no state that h has.
pub fn supersets(h: u32) -> u64
    requires { h < lane_sets }
    ensures { (t : ℕ) → t < lane_sets → member result t ≡ subset h t }
{
    !united(
        LANE_STATES,
        |i| if sets::member(h, i) { lacking(i) } else { 0 },
    )
}

// The sets of j states, of those below 6.
pub fn sized(j: u32) -> u64
    requires { j ≤ lane_states }
    ensures { (t : ℕ) → t < lane_sets → member result t ≡ eqb (count_of lane_states (member t)) j }
{
    let at = j as usize;
    SIZED[at]
}

// A lane of a family, beside the others.
#[derive(Clone, Copy)]
pub struct Lane<'b> {
    pub bits: &'b [u64],
    pub index: usize,
}

impl Lane<'_> {
    // The lane with the state i of the lanes put in, which is this lane where it has it; no set where there is no such lane.
    fn with(self, i: u32) -> u64
        requires { i < high_states }
        ensures { result ≡ get_or self.entry.bits.now (union self.entry.index (2 ^ i)) 0 }
    {
        self.bits.get(self.index | (1 << i)).copied().unwrap_or(0)
    }

    // The same, but no set where this lane has the state.
    #[tactic(auto, using(crate::proofs::Lanes::other_lane))]
    fn other_with(self, i: u32) -> u64
        requires { i < high_states }
        ensures { (t : ℕ) → member result t ≡ has_with self.entry.bits.now self.entry.index i t }
    {
        let has = (self.index >> i) % 2 == 1;
        if has { 0 } else { self.with(i) }
    }

    // What the lanes with one state more have, united.
    pub fn larger(self) -> u64
        ensures { (t : ℕ) → member result t ≡ larger_has self.entry.bits.now self.entry.index t }
    {
        united(HIGH_STATES, |i| self.other_with(i))
    }

    // What this lane and the lanes with one state more have, united: no lane is tested for a state.
    pub fn own_or_larger(self) -> u64
        requires { self.index < length self.bits.now }
        ensures { (t : ℕ) → member result t ≡ own_or_larger self.entry.bits.now self.entry.index t }
    {
        self.bits[self.index] | united(HIGH_STATES, |i| self.with(i))
    }
}

// The sets of the word that lie in another of it with one state more.
fn covered(word: u64) -> u64
    ensures { (t : ℕ) → t < lane_sets → member result t ≡ covered_by word t }
{
    united(LANE_STATES, |i| shifted(word, i))
}

// The sets that lack i and are in the word with it.
fn shifted(word: u64, i: u32) -> u64
    requires { i < lane_states }
    ensures { (t : ℕ) → t < lane_sets → member result t ≡ word_with word i t }
{
    let step: u32 = 1 << i;
    (word >> step) & lacking(i)
}

// The lane's maximal sets in place of its sets, as far as the lanes above it tell.
fn keep_tops(bits: &mut [u64], lane: usize)
    requires { lane < length bits.old }
    ensures { Topped bits.old lane bits.new }
{
    let word = bits[lane];
    if word != 0 {
        bits[lane] = 0; // so that its own sets don't count
        bits[lane] = word & !(Lane { bits, index: lane }.own_or_larger() | covered(word));
    }
}

// Writes the sets of a word in front, each with `base` added; how many.
#[tactic(auto, using(crate::proofs::Words::unpacking))]
fn unpack(word: u64, base: u32, out: &mut [u32]) -> usize
    requires { count_of lane_sets (member word) ≤ length out.old × base < 65536 }
    ensures { (result ≡ count_of lane_sets (member word))
        × (out.new ≡ raised base (select lane_sets (member word)) ++ drop result out.old) }
{
    let mut rest = word;
    // (No range: each turn takes the lowest bit off. `at` counts what is written, and is the answer.)
    let mut at = 0;
    while rest != 0 {
        let t = rest.trailing_zeros();
        out[at] = base + t;
        at += 1;
        rest -= 1 << t;
    }
    at
}

// The maximal sets, as bits in `found`. The lanes are done from the lowest: those above a lane are then still the family's.
#[tactic(auto, using(crate::proofs::Maximal::found_maximal))]
pub fn maximal_bits(bits: &[u64], n: u32, found: &mut [u64])
    requires { Closed n bits.now × (length found.old ≡ length bits.now) }
    ensures { (length found.new ≡ length found.old)
        × (sets found.new ≡ maximal n (is_in bits.now)) }
{
    sets::copy(bits, found);
    for lane in 0..found.len() {
        keep_tops(found, lane);
    }
}

// How many sets there are. (That there are at most so many lanes is a bound on a lent slice, as any length is: a type for it had to be made
// anew of each part that is lent.)
pub fn size(bits: &[u64]) -> usize
    requires { length bits.now ≤ max_lanes }
    ensures { result ≡ length (sets bits.now) }
{
    bits.iter().map(|word| word.count_ones() as usize).sum()
}

// Writes the sets, ascending, in front of `out`; how many.
#[tactic(auto, using(crate::proofs::Words::lane_room), unfolding(sets::specs::Bounded::count, sets::specs::Bounded::select))]
pub fn write(bits: &[u64], out: &mut [u32]) -> usize
    requires { (length bits.now ≤ max_lanes) × (length (sets bits.now) ≤ length out.old) }
    ensures { (result ≡ length (sets bits.now)) × (out.new ≡ sets bits.now ++ drop result out.old) }
{
    // (No `map` and `sum`: where a word's sets go is the count so far.)
    let mut k = 0;
    for (lane, word) in bits.iter().enumerate() {
        k += unpack(*word, lane as u32 * LANE_SETS, &mut out[k..]);
    }
    k
}

// The list's sets.
#[tactic(auto, using(crate::proofs::Inserting::inserting))]
fn insert(list: &[u32], n: u32, bits: &mut [u64])
    requires { Holding n list.now bits.old × (bits.old ≡ replicate (length bits.old) 0) }
    ensures { (length bits.new ≡ length bits.old)
        × ((s : ℕ) → is_in bits.new s ≡ listed list.now s) }
{
    for mask in list {
        let lane = (*mask / LANE_SETS) as usize;
        bits[lane] |= 1 << (*mask % LANE_SETS);
    }
}

// The word's sets and their subsets.
#[tactic(auto, using(crate::proofs::Lowering::reached_none, crate::proofs::Lowering::reached_more))]
fn lower(word: u64) -> u64
    ensures { (t : ℕ) → t < lane_sets → member result t ≡ low_has word t }
{
    let mut all = word;
    for i in 0..LANE_STATES {
        all |= shifted(all, i);
    }
    all
}

// The subsets within each word. (A loop of its own, over words that are independent.)
#[tactic(auto, using(crate::proofs::Closing::low_end))]
fn lower_all(bits: &mut [u64])
    ensures { ByLane (λ lane t. low_has (get_or bits.old lane 0) t) bits.old bits.new }
{
    for word in bits.iter_mut() {
        *word = lower(*word);
    }
}

// What the lanes that hold a lane have, from the highest lane down.
#[tactic(auto, using(crate::proofs::Closing::spreading_none))]
fn spread(bits: &mut [u64])
    requires { length bits.old ≤ 2 ^ high_states }
    ensures { ByLane (up_has bits.old) bits.old bits.new }
{
    for lane in (0..bits.len()).rev() {
        bits[lane] = Lane { bits, index: lane }.own_or_larger();
    }
}

// The subsets of the sets: within the words, then from lane to lane.
fn close(bits: &mut [u64])
    requires { length bits.old ≤ 2 ^ high_states }
    ensures { ByLane (above_has bits.old) bits.old bits.new }
{
    lower_all(bits);
    spread(bits);
}

// The subsets of the list's sets.
#[tactic(auto, using(crate::proofs::Lanes::few_lanes))]
pub fn below(list: &[u32], n: u32, bits: &mut [u64])
    requires { Holding n list.now bits.old }
    ensures { Bits n (holds list.now) bits.new }
{
    bits.fill(0);
    insert(list, n, bits);
    close(bits);
}
