// Sets of states as masks: bit i is state i.
#![tactic(auto)]

ghost use Rattle.std.specs.Prelude.{◌≡◌, ◌++◌, ◌<◌, ◌≤◌, Bool, ℕ, length, drop, replicate};
ghost use Rattle.sets.specs.Bounded.{all as is_all, any as is_any, fill as filled};
ghost use Rattle.sets.specs.Calls.{Answers};
ghost use Rattle.sets.specs.Mask.{member as is_member, common as common_part, union as united, subset as is_subset, single as one, without as lacking};

pub fn member(s: u32, i: u32) -> bool
    requires { i < 32 }
    ensures { result ≡ is_member s i }
{
    (s >> i) % 2 == 1
}

pub fn common(s: u32, t: u32) -> u32
    ensures { result ≡ common_part s t }
{
    s & t
}

pub fn union(s: u32, t: u32) -> u32
    ensures { result ≡ united s t }
{
    s | t
}

pub fn subset(s: u32, t: u32) -> bool
    ensures { result ≡ is_subset s t }
{
    s & t == s
}

pub fn single(i: u32) -> u32
    requires { i < 32 }
    ensures { result ≡ one i }
{
    1 << i
}

pub fn without(s: u32, i: u32) -> u32
    requires { i < 32 }
    ensures { result ≡ lacking s i }
{
    if member(s, i) { s - single(i) } else { s }
}

// Sets the first `end` places to v. It says what is left of the whole list, the rest as it was; the slice's method on a part says it of that
// part, and each caller would have to put the two together.
pub fn fill(d: &mut [u32], end: usize, v: u32)
    requires { end ≤ length d.old }
    ensures { d.new ≡ filled end v d.old }
{
    d[..end].fill(v);
}

// A copy at the front of its room. A loop: where the compiler can't see that both lie apart, the slice's method is compiled to `memmove`, and
// the archive needs `memcpy` and `memset` alone. (In `search` it can.)
pub fn copy<T: Copy>(from: &[T], out: &mut [T])
    requires { length from.now ≤ length out.old }
    ensures { out.new ≡ from.now ++ drop (length from.now) out.old }
{
    for i in 0..from.len() {
        out[i] = from[i];
    }
}

// Room for N values, each of them v. What it promises is the list itself, so a caller knows the length of a long one without counting.
pub fn filled<T: Copy, const N: usize>(v: T) -> [T; N]
    ensures { result ≡ replicate N v }
{
    [v; N]
}

// Some number below n passes. A loop, here and in `all`: by the range's own method it was tried, and the proof over any test did not close.
pub fn any<F: Fn(u32) -> bool>(n: u32, test: F) -> bool
    requires { (i : ℕ) → i < n → F.pre test i }
    ensures { (said : ℕ → Bool) → Answers (F.post test) n said → result ≡ is_any n said }
{
    for i in 0..n {
        if test(i) {
            return true;
        }
    }
    false
}

// Each number below n passes.
pub fn all<F: Fn(u32) -> bool>(n: u32, test: F) -> bool
    requires { (i : ℕ) → i < n → F.pre test i }
    ensures { (said : ℕ → Bool) → Answers (F.post test) n said → result ≡ is_all n said }
{
    for i in 0..n {
        if !test(i) {
            return false;
        }
    }
    true
}
