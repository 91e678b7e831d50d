// Join and meet of two lists of sets (document 01, "Lists").
#![tactic(auto)]

ghost use Rattle.std.specs.Prelude.{◌≡◌, Bool, List, ℕ, ◌^◌, ◌≤◌, ◌<◌, length, take, MatchOption, MatchResult, Ok};
ghost use Rattle.sets.specs.Mask.{member};
ghost use Rattle.sets.specs.Bounded.{nothing, found};
ghost use Rattle.sets.specs.Family.{join as join_of, meet as meet_of};
ghost use Rattle.families.specs.Bits.{max_lanes, lanes, sets, Bits};
ghost use Rattle.games.specs.Format.{max_states};
ghost use Rattle.games.specs.Answers.{leaves};
ghost use Rattle.lists.specs.Lists.{foreign as foreign_in, fitted, outcome, joined, met};
ghost use Rattle.lists.specs.Plain.{OfEither, OfBoth, MaximalOf};
ghost use Rattle.lists.specs.Merging.{Masks, Allows, Refuses, Merged, held, Combines, both, either, join_laws, meet_laws};

use games::{MAX_STATES, Reason, Refusal};

// How two lists are made one, set by set.
trait Combination {
    // whether a set is kept, by whether each list holds it
    ghost keeps: { Bool → Bool → Bool };

    // the list that is made of two
    ghost made: { ℕ → List ℕ → List ℕ → List ℕ };

    // The kept sets of two words.
    fn word(a: u64, b: u64) -> u64
        ensures { (t : ℕ) → member result t ≡ keeps (member a t) (member b t) };

    ghost laws: { Combines keeps made };
}

// The sets that either list holds: the maximal ones are the join.
struct Either;

impl Combination for Either {
    ghost keeps = { either };

    ghost made = { join_of };

    ghost laws = { join_laws };

    #[tactic(auto, using(sets::proofs::Mask::member_or))]
    fn word(a: u64, b: u64) -> u64 {
        a | b
    }
}

// The sets that both lists hold: the maximal ones are the meet.
struct Both;

impl Combination for Both {
    ghost keeps = { both };

    ghost made = { meet_of };

    ghost laws = { meet_laws };

    #[tactic(auto, using(sets::proofs::Mask::member_and))]
    fn word(a: u64, b: u64) -> u64 {
        a & b
    }
}

// Two lists of sets of n states.
#[derive(Clone, Copy)]
struct Lists<'t> {
    n: u32,
    first: &'t [u32],
    second: &'t [u32],

    ghost masks: { Masks n first.now second.now },
}

// The first mask that names a state from n up, where `end` is 2 ^ n. It is made once for both lists: made here, from n, each comparison became
// a shift by n and a test, and the search took nearly twice the time.
fn foreign(end: u32, list: &[u32]) -> Option<usize>
    ensures { (n : ℕ) → end ≡ 2 ^ n
        → MatchOption result (foreign_in n list.now ≡ nothing) (λ i. (i < length list.now) × (foreign_in n list.now ≡ found i)) }
{
    list.iter().position(|mask| end <= *mask)
}

// The two, where all of their masks are of n states.
#[tactic(auto, using(crate::proofs::Outcomes::checking))]
fn checked<'t>(n: u32, first: &'t [u32], second: &'t [u32]) -> Result<Lists<'t>, Refusal>
    ensures { MatchResult result
        (λ lists. (lists.n ≡ n) × (lists.first.now ≡ first.now) × (lists.second.now ≡ second.now)
        × Allows n first.now second.now)
        (λ refusal. Refuses n first.now second.now refusal) }
{
    if !games::within(n, MAX_STATES) {
        return Err(Reason::BadHead.at(0));
    }
    let end = sets::single(n);
    if let Some(i) = foreign(end, first) {
        return Err(Reason::StateBeyond.at(i));
    }
    if let Some(i) = foreign(end, second) {
        return Err(Reason::StateBeyond.at(first.len() + i));
    }
    Ok(Lists { n, first, second })
}

// The kept sets of two families, in place of the first.
fn merge<C: Combination>(a: &mut [u64], b: &[u64])
    requires { length b.now ≡ length a.old }
    ensures { Merged C.keeps a.old b.now a.new }
{
    // (No `zip`: after an adapter of `iter_mut` other than `enumerate` no proof knows what stands in the slice; tried.)
    for (i, word) in a.iter_mut().enumerate() {
        *word = C::word(*word, b[i]);
    }
}

// The sets in front of `out`, ascending; refused where there are more than places.
#[tactic(auto, using(crate::proofs::Outcomes::fitted_long, crate::proofs::Outcomes::fitted_fits))]
fn fit(bits: &[u64], out: &mut [u32]) -> Result<usize, Refusal>
    requires { length bits.now ≤ max_lanes }
    ensures { leaves result out.new ≡ fitted (sets bits.now) out.old }
{
    let words = families::size(bits);
    if out.len() < words {
        return Err(Reason::ShortList.at(words));
    }
    Ok(families::write(bits, out))
}

impl Lists<'_> {
    // The kept sets of what the lists hold, as bits in `a`; `b` is work room.
    fn hold<C: Combination>(self, a: &mut [u64], b: &mut [u64])
        requires { (length a.old ≡ lanes self.n) × (length b.old ≡ lanes self.n) }
        ensures { Bits self.entry.n (held C.keeps self.entry.first.now self.entry.second.now) a.new }
    {
        families::below(self.first, self.n, a);
        families::below(self.second, self.n, b);
        merge::<C>(a, b);
    }

    // The result in front of `out`, where it fits. `a` and `b` are work room.
    #[tactic(auto, using(families::proofs::Lanes::lanes_few))]
    fn find<C: Combination>(
        self,
        a: &mut [u64],
        b: &mut [u64],
        out: &mut [u32],
    ) -> Result<usize, Refusal>
        requires { (length a.old ≡ lanes self.n) × (length b.old ≡ lanes self.n) }
        ensures { leaves result out.new ≡ fitted (C.made self.entry.n self.entry.first.now self.entry.second.now) out.old }
    {
        self.hold::<C>(a, b);
        families::maximal_bits(a, self.n, b);
        fit(b, out)
    }

    // The same, with its work room.
    #[tactic(auto, using(crate::proofs::Merging::enough, crate::proofs::Merging::front))]
    fn deliver<C: Combination>(self, out: &mut [u32]) -> Result<usize, Refusal>
        ensures { leaves result out.new ≡ fitted (C.made self.entry.n self.entry.first.now self.entry.second.now) out.old }
    {
        let end = families::lane_count(self.n);
        let mut a = [0u64; families::MAX_LANES];
        let mut b = [0u64; families::MAX_LANES];
        self.find::<C>(&mut a[..end], &mut b[..end], out)
    }
}

// Join or meet: checks, then the result.
fn combine<C: Combination>(
    n: u32,
    first: &[u32],
    second: &[u32],
    out: &mut [u32],
) -> Result<usize, Refusal>
    ensures { leaves result out.new ≡ outcome (C.made n) n first.now second.now out.old }
{
    let lists = checked(n, first, second)?;
    lists.deliver::<C>(out)
}

// The maximal sets of both lists.
pub fn join(n: u32, first: &[u32], second: &[u32], out: &mut [u32]) -> Result<usize, Refusal>
    ensures out_after { leaves result out.new ≡ joined n first.now second.now out.old }
    ensures plain { (w : ℕ) → result ≡ Ok w
        → MaximalOf (OfEither first.now second.now) (take w out.new) }
{
    combine::<Either>(n, first, second, out)
}

// The maximal common parts of one set from each list.
pub fn meet(n: u32, first: &[u32], second: &[u32], out: &mut [u32]) -> Result<usize, Refusal>
    ensures out_after { leaves result out.new ≡ met n first.now second.now out.old }
    ensures plain { (w : ℕ) → result ≡ Ok w
        → MaximalOf (OfBoth first.now second.now) (take w out.new) }
{
    combine::<Both>(n, first, second, out)
}
