// The runner (document 01, "Entries": Run): a card's words, held and not copied, and the cell it is in. `drive` has a local of
// one and plain parameters. `run` needs none.
#![tactic(auto)]

ghost use Rattle.std.specs.Prelude.{◌≡◌, [], ◌∷◌, length};
ghost use Rattle.games.specs.Answers.{leaves};
ghost use Rattle.cards.specs.Run.{stands, starts, advances};
ghost use Rattle.runner.specs.Runs.{standing, move_from, ran_up_to, with_actions, Writable, writes, ran_into};

use cards::{Card, Move, Stood};
use games::{Cell, Observation, Reason, Refusal};

// Its cell is a number, 65,535 for none: a refused opening still hands out a runner, whose words may be no card. A step from it is
// refused by its number.
#[derive(Clone, Copy)]
pub struct Runner<'c> {
    pub card: &'c [u32],
    pub cell: Cell,
}

// A runner with the answer to its opening.
// Both stand there: a refused opening still leaves a runner, in no cell.
#[derive(Clone, Copy)]
pub struct Opened<'c> {
    pub runner: Runner<'c>,
    pub answer: Move,
}

impl<'c> Runner<'c> {
    // Opens a runner on a card with the first observation. Refused: its cell is 65,535.
    pub fn start(card: &'c [u32], seen: Observation) -> Opened<'c>
        ensures { (result.runner.card ≡ card.entry) × (stands result.runner.cell result.answer ≡ starts card.now seen) }
    {
        let stood = cards::opening(card, seen);
        Opened {
            runner: Runner {
                card,
                cell: stood.cell,
            },
            answer: stood.answer,
        }
    }

    // Moves it by a later observation. Refused: it stays in its cell.
    pub fn advance(&mut self, seen: Observation) -> Move
        ensures { (self.new.card ≡ self.old.card)
            × (stands self.new.cell result ≡ advances self.old.card.now self.old.cell seen) }
    {
        let stood = cards::moving(self.card, self.cell, seen);
        self.cell = stood.cell;
        stood.answer
    }

    // Where it stands after an answer.
    fn stood(self, answer: Move) -> Stood
        ensures { result ≡ stands self.entry.cell answer }
    {
        Stood {
            cell: self.cell,
            answer,
        }
    }
}

// A runner after its first, second and third observation.
#[derive(Clone, Copy)]
pub struct Driven {
    pub begun: Stood,
    pub moved: Stood,
    pub last: Stood,
}

// Opens a runner with the first observation and moves it by two more. A refused runner stays in its cell, and goes on from there.
// It is a harness and no entry: the rows and its proof show that a runner lives in a local and is lent twice.
pub fn drive(card: &[u32], first: Observation, second: Observation, third: Observation) -> Driven
    ensures { (result.begun ≡ standing card.now (first.0 ∷ []))
        × (result.moved ≡ standing card.now (first.0 ∷ second.0 ∷ []))
        × (result.last ≡ standing card.now (first.0 ∷ second.0 ∷ third.0 ∷ [])) }
{
    let opened = Runner::start(card, first);
    let mut runner = opened.runner;
    let begun = runner.stood(opened.answer);
    let next = runner.advance(second);
    let moved = runner.stood(next);
    let next = runner.advance(third);
    let last = runner.stood(next);
    Driven { begun, moved, last }
}

// A run that was refused, and how many observations were taken before it.
#[derive(Clone, Copy, PartialEq, Eq, Debug)]
pub struct Stopped {
    pub refusal: Refusal,
    pub taken: usize,
}

// How many observations were taken, which is all of them; or where it stopped.
pub type Ran = Result<usize, Stopped>;

// A refusal before the first observation.
impl From<Refusal> for Stopped {
    ghost from_gives = { λ e s. s ≡ record { refusal = e; taken = 0 } };

    fn from(refusal: Refusal) -> Stopped {
        Stopped { refusal, taken: 0 }
    }
}

// The card's move on the next observation: it opens the card where no cell was entered yet.
#[tactic(auto, using(crate::proofs::Laws::opens_fine, crate::proofs::Laws::steps_fine))]
fn move_from(card: Card, cell: Option<Cell>, seen: Observation) -> Move
    ensures { result ≡ move_from card.entry.words.now cell seen.0 }
{
    match cell {
        None => card.start(seen),
        Some(cell) => card.follow(cell, seen),
    }
}

// Runs a card and writes nothing: refusals 12 and 14.
fn try_run(card: Card, seen: &[u32]) -> Ran
    ensures { result ≡ ran_up_to card.entry.words.now seen.now (length seen.now) }
{
    let mut cell: Option<Cell> = None;
    for (i, j) in seen.iter().enumerate() {
        // `map_err` with `?` was tried, and the proof did not close: what the closure answers is known by a name of the kit's own alone
        match move_from(card, cell, Observation(*j)) {
            Err(refusal) => return Err(Stopped { refusal, taken: i }),
            Ok(entered) => cell = Some(entered.cell),
        }
    }
    Ok(seen.len())
}

// The actions of a run that is not refused.
fn write_actions(card: Card, seen: &[u32], out: &mut [u32])
    requires { Writable card.words.now seen.now out.old }
    ensures { out.new ≡ with_actions card.entry.words.now seen.now (length seen.now) out.old }
{
    let mut cell: Option<Cell> = None;
    for (i, j) in seen.iter().enumerate() {
        let Ok(entered) = move_from(card, cell, Observation(*j)) else {
            return;
        };
        cell = Some(entered.cell);
        out[i] = entered.action.0;
    }
}

// Runs a card: a first pass that writes nothing (12, 14), then 15, then the pass that writes.
fn run_checked(card: Card, seen: &[u32], out: &mut [u32]) -> Ran
    ensures { leaves result out.new ≡ writes card.entry.words.now seen.now out.old }
{
    let taken = try_run(card, seen)?;
    if out.len() < taken {
        return Err(Stopped {
            refusal: Reason::ShortList.at(taken),
            taken,
        });
    }
    write_actions(card, seen, out);
    Ok(taken)
}

// Runs a card over observations, and writes the action after each into the front of `out`. The card is checked once, whatever the
// observations. A refused run leaves `out` as it was.
#[tactic(auto, using(crate::proofs::Laws::into_wrong, crate::proofs::Laws::into_fine))]
pub fn run(card: &[u32], seen: &[u32], out: &mut [u32]) -> Ran
    ensures { leaves result out.new ≡ ran_into card.now seen.now out.old }
{
    run_checked(Card::of(card)?, seen, out)
}
