// A table's words and what they say. They are checked once, and whoever holds a `Table` or an `Accepted` knows it.

ghost use Rattle.std.specs.Prelude.{◌≡◌, ◌<◌, ◌≤◌, length, replicate, Ok, IfOk, IfErr};
ghost use Rattle.sets.specs.Bounded.{filled_by};
ghost use Rattle.games.specs.Places.{place_of, Within};
ghost use Rattle.games.specs.Verdict.{start_sets, start_set};
ghost use Rattle.games.specs.Words.{mask_at, game};
ghost use Rattle.tables.specs.Layout.{shape_in, shown_words, move_words, Sized};
ghost use Rattle.tables.specs.Fields.{masks_from, fields_of};
ghost use Rattle.tables.specs.Check.{size_checked, checked};

use crate::{Fields, Sizes};
use games::{Action, Observation, Place, Refusal, Shape, State};

// Words whose head is in order, and as many as it asks: each place of the head's numbers can be read.
#[derive(Clone, Copy)]
pub struct Table<'t> {
    pub words: &'t [u32],
    pub ghost sized: { Sized words.now },
}

// A table that passed every check.
#[derive(Clone, Copy)]
pub struct Accepted<'t> {
    pub table: Table<'t>,
    pub ghost checked: { checked table.words.now ≡ Ok tt },
}

// The masks of words in the first slots, and 0 in those behind.
fn masks<const N: usize>(words: &[u32]) -> [u32; N]
    requires { length words.now ≤ N }
    ensures { result ≡ filled_by (length words.now) (masks_from words.now 0) (replicate N 0) }
{
    let mut slots = sets::filled::<u32, N>(0);
    for (i, word) in words.iter().enumerate() {
        slots[i] = games::low_field(*word);
    }
    slots
}

impl<'t> Table<'t> {
    // The words, where head and length are in order.
    pub fn of(words: &'t [u32]) -> Result<Table<'t>, Refusal>
        ensures table { IfOk result (λ t. (t.words ≡ words.entry) × (size_checked words.now ≡ Ok tt)) }
        ensures refused { IfErr result (λ e. size_checked words.now ≡ Err e) }
    {
        crate::check_size(words)?;
        Ok(Table { words })
    }

    // The numbers of its head.
    pub(crate) fn shape(self) -> Shape
        ensures { result ≡ shape_in self.entry.words.now }
    {
        games::shape_of(self.words[0])
    }

    pub fn sizes(self) -> Sizes
        ensures { result.shape ≡ shape_in self.entry.words.now }
    {
        Sizes {
            shape: self.shape(),
        }
    }

    #[tactic(auto, unfolding(games::specs::Words::game))]
    pub fn states(self) -> u32
        ensures { result ≡ (game self.entry.words.now).states }
    {
        self.shape().states
    }

    #[tactic(auto, unfolding(games::specs::Words::game))]
    pub fn actions(self) -> u32
        ensures { result ≡ (game self.entry.words.now).actions }
    {
        self.shape().actions
    }

    #[tactic(auto, unfolding(games::specs::Words::game))]
    pub fn observations(self) -> u32
        ensures { result ≡ (game self.entry.words.now).observations }
    {
        self.shape().observations
    }

    // Where a set stands in the table.
    pub fn place_in(self, x: Place) -> usize
        ensures { result ≡ place_of (shape_in self.entry.words.now) x }
    {
        games::place_of(self.shape(), x)
    }

    // The mask of a set's word.
    #[tactic(auto, using(crate::proofs::Bounds::place_inside))]
    pub(crate) fn mask(self, x: Place) -> u32
        requires { Within (shape_in self.words.now) x }
        ensures { result ≡ mask_at self.entry.words.now x }
    {
        let at = self.place_in(x);
        games::low_field(self.words[at])
    }

    #[tactic(auto, unfolding(games::specs::Words::game))]
    pub fn bad(self) -> u32
        ensures { result ≡ (game self.entry.words.now).bad }
    {
        self.mask(Place::Bad)
    }

    // The parked states; none where the table doesn't mark them.
    #[tactic(auto, unfolding(games::specs::Words::game))]
    pub fn parked(self) -> u32
        ensures { result ≡ (game self.entry.words.now).parked }
    {
        if self.shape().marked {
            return self.mask(Place::Parked);
        }
        0
    }

    // The states that show the observation.
    #[tactic(auto, unfolding(games::specs::Words::game))]
    pub fn shown(self, seen: Observation) -> u32
        requires { seen.0 < (game self.words.now).observations }
        ensures { result ≡ (game self.entry.words.now).shown seen.0 }
    {
        self.mask(Place::Shown(seen))
    }

    // The successors that the action gives the state.
    #[tactic(auto, unfolding(games::specs::Words::game))]
    pub fn successors(self, a: Action, i: State) -> u32
        requires { (a.0 < (game self.words.now).actions) × (i.0 < (game self.words.now).states) }
        ensures { result ≡ (game self.entry.words.now).successors a.0 i.0 }
    {
        self.mask(Place::Move(a, i))
    }

    // How many sets there are before the first action.
    #[tactic(auto, unfolding(games::specs::Verdict::start_sets))]
    pub fn start_sets(self) -> u32
        ensures { result ≡ start_sets (game self.entry.words.now) }
    {
        self.observations()
    }

    // One of these sets: the start states that show the observation.
    #[tactic(auto, unfolding(games::specs::Verdict::start_sets, games::specs::Verdict::start_set, games::specs::Words::game))]
    pub fn start_set(self, seen: Observation) -> u32
        requires { seen.0 < start_sets (game self.words.now) }
        ensures { result ≡ start_set (game self.entry.words.now) seen.0 }
    {
        sets::common(self.mask(Place::Start), self.shown(seen))
    }

    // Its words for the observations,
    pub(crate) fn shown_words(self) -> &'t [u32]
        ensures { result.now ≡ shown_words self.entry.words.now }
    {
        let at = self.place_in(Place::Shown(Observation(0)));
        &self.words[at..at + self.shape().observations as usize]
    }

    // and for the moves.
    pub(crate) fn move_words(self) -> &'t [u32]
        ensures { result.now ≡ move_words self.entry.words.now }
    {
        &self.words[self.place_in(Place::Move(Action(0), State(0)))..]
    }

    // Its numbers and sets.
    pub fn fields(self) -> Fields
        ensures { result ≡ fields_of self.entry.words.now }
    {
        let s = self.shape();
        Fields {
            states: s.states,
            actions: s.actions,
            observations: s.observations,
            start: self.mask(Place::Start),
            bad: self.mask(Place::Bad),
            marked: s.marked,
            parked: self.parked(),
            shown: masks(self.shown_words()),
            moves: masks(self.move_words()),
        }
    }
}

impl<'t> Accepted<'t> {
    // The words, where they are a table.
    pub fn of(words: &'t [u32]) -> Result<Accepted<'t>, Refusal>
        ensures table { IfOk result (λ a. a.table.words ≡ words.entry) }
        ensures refused { IfErr result (λ e. checked words.now ≡ Err e) }
    {
        crate::check(words)?;
        Ok(Accepted {
            table: Table { words },
        })
    }
}
