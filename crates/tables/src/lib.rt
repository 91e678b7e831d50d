// The words of a station table: checks, what the words say, and its fields.
#![tactic(auto)]

ghost use Rattle.std.specs.Prelude.{◌≡◌, ◌<◌, ◌+◌, ◌*◌, ◌≤◌, length};
ghost use Rattle.games.specs.Format.{max_observations};
ghost use Rattle.games.specs.Places.{place_at, place_of, table_length, Limited};
ghost use Rattle.games.specs.Words.{game};
ghost use Rattle.tables.specs.Layout.{head_word, bare_word};
ghost use Rattle.tables.specs.Fields.{fields_shape, game_of};
ghost use Rattle.tables.specs.Check.{limits_hold, head_right, size_checked, placed, word_checked, words_checked, unseen_in, sets_from, sets_checked, parked_checked, goes_on, departs_from, parked_from, checked};

mod words;

use games::{Action, Kind, Place, Reason, Refusal, Shape, State};
pub use words::{Accepted, Table};

// The head's kind in its place, and as it stands above the head's numbers, where the spare bits are 0.
const HEAD: u32 = Kind::Table as u32 * games::KIND_AT;

const HEAD_TOP: u32 = HEAD / games::HEAD_SPARE_AT;

// The slots for observations and for moves.
pub const SHOWN_SLOTS: usize = games::MAX_OBSERVATIONS as usize;

pub const MOVE_SLOTS: usize = (games::MAX_ACTIONS * games::MAX_STATES) as usize;

// The numbers of states, actions and observations are within the limits.
#[tactic(auto, unfolding(crate::specs::Check::limits_hold))]
pub fn limits_hold(s: Shape) -> bool
    ensures { result ≡ limits_hold s }
{
    games::within(s.states, games::MAX_STATES)
        & (games::within(s.actions, games::MAX_ACTIONS)
            & games::within(s.observations, games::MAX_OBSERVATIONS))
}

#[tactic(auto, unfolding(crate::specs::Check::head_right))]
fn head_right(w: u32) -> bool
    ensures { result ≡ head_right w }
{
    (w / games::HEAD_SPARE_AT == HEAD_TOP) & limits_hold(games::shape_of(w))
}

// Refusals 1, 2 and 3.
fn check_size(table: &[u32]) -> Result<(), Refusal>
    ensures { result ≡ size_checked table.now }
{
    let words = table.len();
    if words == 0 {
        return Err(Reason::NoWords.at(0));
    }
    let head = table[0];
    if !head_right(head) {
        return Err(Reason::BadHead.at(0));
    }
    if words != games::table_length(games::shape_of(head)) {
        return Err(Reason::BadLength.at(words));
    }
    Ok(())
}

// Numbers within the limits.
#[derive(Clone, Copy)]
pub struct Sizes {
    pub shape: Shape,
    pub ghost limited: { Limited shape },
}

impl Sizes {
    // The head for these numbers, and the bit where the table marks parked states.
    #[tactic(auto, using(games::proofs::Places::parked_words_lem))]
    pub fn head_word(self) -> u32
        ensures { result ≡ head_word self.shape }
    {
        let s = self.shape;
        HEAD + games::parked_words(s) * games::HEAD_MARKED_AT
            + s.observations * games::HEAD_OBSERVATIONS_AT
            + s.actions * games::HEAD_ACTIONS_AT
            + s.states
    }

    // The word at a place from 1 up, with no state in its mask.
    pub fn bare_word(self, p: usize) -> u32
        requires { (1 ≤ p) × (p < table_length self.shape) }
        ensures { result ≡ bare_word (place_at self.shape p) }
    {
        match games::place_at(self.shape, p) {
            Place::Start => games::kind_word(Kind::Start, 0, 0, 0),
            Place::Bad => games::kind_word(Kind::Bad, 0, 0, 0),
            Place::Parked => games::kind_word(Kind::Parked, 0, 0, 0),
            Place::Shown(seen) => games::kind_word(Kind::Shown, 0, seen.0, 0),
            Place::Move(a, i) => games::kind_word(Kind::Move, 0, i.0, a.0),
        }
    }
}

// The word's kind, spare bits and index are those of its place.
fn is_placed(table: Table, p: usize) -> bool
    requires { (1 ≤ p) × (p < length table.words.now) }
    ensures { result ≡ placed table.entry.words.now p }
{
    let w = table.words[p];
    w == table.sizes().bare_word(p) + games::low_field(w)
}

// Refusals 4 and 5 of one word, 4 first.
fn check_word(table: Table, p: usize) -> Result<(), Refusal>
    requires { (1 ≤ p) × (p < length table.words.now) }
    ensures { result ≡ word_checked table.entry.words.now p }
{
    if !is_placed(table, p) {
        return Err(Reason::Misplaced.at(p));
    }
    if sets::single(table.shape().states) <= games::low_field(table.words[p]) {
        return Err(Reason::StateBeyond.at(p));
    }
    Ok(())
}

// Refusals 4 and 5.
fn check_words(table: Table) -> Result<(), Refusal>
    ensures { result ≡ words_checked table.entry.words.now }
{
    for p in 1..table.words.len() {
        check_word(table, p)?;
    }
    Ok(())
}

// No word names state i. A kind above the mask doesn't matter.
fn is_unseen(shown: &[u32], i: State) -> bool
    requires { i.0 < 32 }
    ensures { result ≡ unseen_in shown.now i.0 }
{
    !shown.iter().any(|word| sets::member(*word, i.0))
}

// Refusals 6 and 7, by the start set and the words of the observations, or their masks.
fn check_sets(s: Shape, start: u32, shown: &[u32]) -> Result<(), Refusal>
    requires { Limited s }
    ensures { result ≡ sets_from shown.now s.states start }
{
    if start == 0 {
        return Err(Reason::NoStart.at(games::place_of(s, Place::Start)));
    }
    for i in 0..s.states {
        if is_unseen(shown, State(i)) {
            return Err(Reason::Unseen.at(i as usize));
        }
    }
    Ok(())
}

// Refusal 19, by the table's move words.
fn check_departures(table: Table) -> Result<(), Refusal>
    ensures { result ≡ parked_checked (game table.entry.words.now) }
{
    let moves = MoveWords {
        words: table.move_words(),
        sizes: table.sizes(),
        parked: table.parked(),
    };
    moves.check()
}

// The table checks, 1 to 7 and 19.
#[tactic(auto, unfolding(crate::specs::Check::checked))]
pub fn check(table: &[u32]) -> Result<(), Refusal>
    ensures { result ≡ checked table.now }
{
    let table = Table::of(table)?;
    check_words(table)?;
    check_sets(table.shape(), table.mask(Place::Start), table.shown_words())?;
    check_departures(table)
}

// A table's numbers and sets. Slots of `shown` from `observations` up, and of `moves` from `actions` · `states` up, are unused, and so is
// `parked` where the table doesn't mark parked states.
#[derive(Clone, Copy)]
pub struct Fields {
    pub states: u32,
    pub actions: u32,
    pub observations: u32,
    pub start: u32,
    pub bad: u32,
    pub marked: bool,
    // two numbers and no `Option`: the exported writer is handed both, and refusal 11 is about the pair
    pub parked: u32,
    pub shown: [u32; SHOWN_SLOTS],
    // at action · states + state
    pub moves: [u32; MOVE_SLOTS],
}

impl Fields {
    // Their numbers.
    pub fn shape(self) -> Shape
        ensures { result ≡ fields_shape self }
    {
        Shape {
            states: self.states,
            actions: self.actions,
            observations: self.observations,
            marked: self.marked,
        }
    }

    // Refusals 6 and 7.
    pub fn check_sets(self) -> Result<(), Refusal>
        requires { Limited (fields_shape self) }
        ensures { result ≡ sets_checked (game_of self) }
    {
        // a copy of these slots alone: with a place in the whole the check keeps the moves on its stack too, 1,080 bytes for 192
        let shown = self.shown;
        check_sets(
            self.shape(),
            self.start,
            &shown[..self.observations as usize],
        )
    }
}

// The moves of a table, the first at the front of the words, and its parked states. The words may be masks without a kind.
#[derive(Clone, Copy)]
pub struct MoveWords<'w> {
    pub words: &'w [u32],
    pub sizes: Sizes,
    pub parked: u32,
    pub ghost inside: { sizes.shape.actions * sizes.shape.states ≤ length words.now },
}

impl MoveWords<'_> {
    // The action gives state i a successor.
    fn goes_on(self, i: State, a: Action) -> bool
        requires { (i.0 < self.sizes.shape.states) × (a.0 < self.sizes.shape.actions) }
        ensures { let m = self.entry in result ≡ goes_on m.words.now 0 m.sizes.shape i.0 a.0 }
    {
        games::low_field(self.words[(a.0 * self.sizes.shape.states + i.0) as usize]) != 0
    }

    // State i is parked, and has a successor under some action.
    fn departs(self, i: State) -> bool
        requires { i.0 < self.sizes.shape.states }
        ensures { let m = self.entry in result ≡ departs_from m.words.now 0 m.sizes.shape m.parked i.0 }
    {
        sets::member(self.parked, i.0)
            && sets::any(self.sizes.shape.actions, |a| self.goes_on(i, Action(a)))
    }

    // Refusal 19: no parked state has a successor.
    pub fn check(self) -> Result<(), Refusal>
        ensures { let m = self.entry in result ≡ parked_from m.words.now 0 m.sizes.shape m.parked }
    {
        for i in 0..self.sizes.shape.states {
            if self.departs(State(i)) {
                return Err(Reason::ParkedMoves.at(i as usize));
            }
        }
        Ok(())
    }
}
