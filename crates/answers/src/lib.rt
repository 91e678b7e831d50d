// What an entry answers, as the three words that an exported function fills: 0 and two values (done), 1 and the round number (no),
// 2, number and place (refused).
#![tactic(auto)]

ghost use Rattle.std.specs.Prelude.{◌≡◌, ℕ, List};
ghost use Rattle.answers.specs.Words.{words_of, unit_words, pair_words, bool_words, length_words, verdict_words, entered_words, part_words, extent_words, ran_words};

use cards::{Entered, Extent};
use games::Refusal;
use runner::Ran;
use show::Part;
use solver::Verdict;

// A value that an entry answers.
pub trait Told {
    // its three words
    ghost told: { Self → List ℕ };

    fn told(self) -> [u64; 3]
        ensures { result ≡ told self };
}

// A table's check and the judge of cards: no value beside fine.
impl Told for () {
    ghost told = { unit_words };

    fn told(self) -> [u64; 3] {
        [0, 0, 0]
    }
}

// A card's cells and observations.
impl Told for (u32, u32) {
    ghost told = { pair_words };

    fn told(self) -> [u64; 3] {
        [0, self.0 as u64, self.1 as u64]
    }
}

// Whether a set is good.
impl Told for bool {
    ghost told = { bool_words };

    fn told(self) -> [u64; 3] {
        [0, u64::from(self), 0]
    }
}

// A number of words, bytes or observations.
impl Told for usize {
    ghost told = { length_words };

    fn told(self) -> [u64; 3] {
        [0, self as u64, 0]
    }
}

impl Told for Verdict {
    ghost told = { verdict_words };

    fn told(self) -> [u64; 3] {
        match self {
            Verdict::Yes(settled, cells) => [0, settled as u64, cells as u64],
            Verdict::No(round) => [1, round as u64, 0],
        }
    }
}

impl Told for Entered {
    ghost told = { entered_words };

    fn told(self) -> [u64; 3] {
        [0, self.cell.0 as u64, self.action.0 as u64]
    }
}

impl Told for Part {
    ghost told = { part_words };

    fn told(self) -> [u64; 3] {
        [0, self.offset as u64, self.length as u64]
    }
}

impl Told for Extent {
    ghost told = { extent_words };

    fn told(self) -> [u64; 3] {
        [0, self.words as u64, self.cells as u64]
    }
}

// The words of an answer: its value's, or its refusal's.
pub fn words<T: Told>(answer: Result<T, Refusal>) -> [u64; 3]
    ensures { result ≡ words_of T.told answer }
{
    match answer {
        Ok(value) => value.told(),
        Err(refusal) => [2, refusal.reason.number() as u64, refusal.place as u64],
    }
}

// The words of a run: those of a refusal don't say how many observations were taken before it.
pub fn of_run(answer: Ran) -> [u64; 3]
    ensures { result ≡ ran_words answer }
{
    words(answer.map_err(|stopped| stopped.refusal))
}
