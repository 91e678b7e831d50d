// What document 01's tables and cards have in common: its four columns of numbers, refusals, its limits, the
// fields of a word, the places of a table's words and the lengths of a card's parts.
// Limits, bit positions and kinds stand here alone, and for the definitions in specs/Format.antt.
#![tactic(auto)]

ghost use Rattle.std.specs.Prelude.{◌≡◌, ◌<◌, ◌≤◌};
ghost use Rattle.games.specs.Format.{within as is_within, low_values, number_values, action_values, kind_values, head_values};
ghost use Rattle.games.specs.Fields.{low_field, number_field, action_field, word as word_of};
ghost use Rattle.games.specs.Places.{max_place, shape_of, place_at, place_of, parked_words, shown_place, moves_place, table_length};
ghost use Rattle.games.specs.Words.{front_length, part_length, card_length};
ghost use Rattle.games.specs.Answers.{number_of};
ghost use Rattle.games.specs.Kinds.{kind_number};

// Document 01's four columns: state, action, reading and cell numbers. One can't be passed as another.
// That a number lies below its table's or card's count stands in clauses: a type of both would be made anew in each turn of a loop over the
// numbers, and would say no more than the clause.
#[derive(Clone, Copy, PartialEq, Eq, Debug)]
pub struct State(pub u32);

#[derive(Clone, Copy, PartialEq, Eq, Debug)]
pub struct Action(pub u32);

#[derive(Clone, Copy, PartialEq, Eq, Debug)]
pub struct Observation(pub u32);

#[derive(Clone, Copy, PartialEq, Eq, Debug)]
pub struct Cell(pub u32);

// Why an entry refuses. The number is what callers and people see; docs/ENTRIES.md says what each means and what to do.
#[derive(Clone, Copy, PartialEq, Eq, Debug)]
pub enum Reason {
    // of a table: no word; its head; its length; a word's kind, spare bits or index; a mask with a state from n up
    NoWords = 1,
    BadHead = 2,
    BadLength = 3,
    Misplaced = 4,
    StateBeyond = 5,
    // no start state; a state that shows no observation
    NoStart = 6,
    Unseen = 7,
    // too little work; too little room for a card or a text, for a table
    ShortWork = 8,
    ShortRoom = 9,
    ShortTable = 10,
    // an unused slot of fields that is not 0
    SlotUsed = 11,
    // a cell or an observation that a card doesn't have; words that are no card; an observation that cannot occur
    NumberBeyond = 12,
    NoCard = 13,
    CannotOccur = 14,
    // too little room for a list
    ShortList = 15,
    // a table and a card that don't go together
    Disagree = 16,
    // more rounds than the plain judge asks
    RoundsBeyond = 17,
    // a card that is not safe for a table
    NotSafe = 18,
    // a parked state with a successor
    ParkedMoves = 19,
    // a cell that no sequence of observations leads to
    IdleCell = 20,
    // a text that departs from its profile
    Departs = 21,
}

impl Reason {
    pub fn number(self) -> u32
        ensures { result ≡ number_of self }
    {
        self as u32
    }

    // The refusal for this reason, at a place.
    pub fn at(self, place: usize) -> Refusal
        ensures { result ≡ record { reason = self; place = place } }
    {
        Refusal {
            reason: self,
            place,
        }
    }
}

// A refusal: why, and at which word, state, cell or byte.
#[derive(Clone, Copy, PartialEq, Eq, Debug)]
pub struct Refusal {
    pub reason: Reason,
    pub place: usize,
}

// The most states, actions and observations.
pub const MAX_STATES: u32 = 12;

pub const MAX_ACTIONS: u32 = 8;

pub const MAX_OBSERVATIONS: u32 = 8;

// The sets of that many states; a card has at most one cell for each.
pub const MAX_SETS: u32 = 1 << MAX_STATES;

pub const MAX_CELLS: u32 = MAX_SETS;

// A field of a word is `w / AT % VALUES`: a mask or a cell number in bits 0-15, an observation or a state in 16-19, an action in
// 20-23, the kind in 28-31.
pub const LOW_VALUES: u32 = 1 << 16;

pub const NUMBER_AT: u32 = 1 << 16;

pub const NUMBER_VALUES: u32 = 1 << 4;

pub const ACTION_AT: u32 = 1 << 20;

pub const ACTION_VALUES: u32 = 1 << 4;

pub const KIND_AT: u32 = 1 << 28;

// A table's head: states in bits 0-7, actions in 8-15, observations in 16-23; bit 24 is set where the table marks parked states. Behind
// them the spare bits 25-27 begin.
pub const HEAD_VALUES: u32 = 1 << 8;

pub const HEAD_ACTIONS_AT: u32 = 1 << 8;

pub const HEAD_OBSERVATIONS_AT: u32 = 1 << 16;

pub const HEAD_MARKED_AT: u32 = 1 << 24;

const BIT_VALUES: u32 = 2;

pub const HEAD_SPARE_AT: u32 = 1 << 25;

// The largest cell number says: the observation cannot occur here.
pub const NO_CELL: u32 = LOW_VALUES - 1;

// The kinds of words.
#[derive(Clone, Copy, PartialEq, Eq, Debug)]
pub enum Kind {
    // of a table: head, start set, bad set, the states that show an observation, the successors of a state, parked states
    Table = 1,
    Start = 2,
    Bad = 3,
    Shown = 4,
    Move = 5,
    Parked = 6,
    // of a card: head, first cell, cell, next cell
    Card = 8,
    First = 9,
    Cell = 10,
    Next = 11,
}

impl Kind {
    pub fn number(self) -> u32
        ensures { (result ≡ kind_number self) × (result < kind_values) }
    {
        self as u32
    }
}

// From 1 up to the limit.
pub fn within(x: u32, most: u32) -> bool
    ensures { result ≡ is_within x most }
{
    (1..=most).contains(&x)
}

pub fn low_field(w: u32) -> u32
    ensures { result ≡ low_field w }
{
    w % LOW_VALUES
}

pub fn number_field(w: u32) -> u32
    ensures { result ≡ number_field w }
{
    w / NUMBER_AT % NUMBER_VALUES
}

pub fn action_field(w: u32) -> u32
    ensures { result ≡ action_field w }
{
    w / ACTION_AT % ACTION_VALUES
}

// The word of a kind by its number, one that has no name too.
pub fn word(kind: u32, low: u32, number: u32, action: u32) -> u32
    requires { (kind < kind_values) × (low < low_values) × (number < number_values) × (action < action_values) }
    ensures { result ≡ word_of kind low number action }
{
    kind * KIND_AT + action * ACTION_AT + number * NUMBER_AT + low
}

// The word of a kind.
pub fn kind_word(kind: Kind, low: u32, number: u32, action: u32) -> u32
    requires { (low < low_values) × (number < number_values) × (action < action_values) }
    ensures { result ≡ word_of (kind_number kind) low number action }
{
    word(kind.number(), low, number, action)
}

// The numbers of a table's head: states, actions and observations; and whether it marks parked states.
#[derive(Clone, Copy)]
pub struct Shape {
    pub states: u32,
    pub actions: u32,
    pub observations: u32,
    pub marked: bool,
}

pub fn shape_of(head: u32) -> Shape
    ensures { result ≡ shape_of head }
{
    Shape {
        states: head % HEAD_VALUES,
        actions: head / HEAD_ACTIONS_AT % HEAD_VALUES,
        observations: head / HEAD_OBSERVATIONS_AT % HEAD_VALUES,
        marked: head / HEAD_MARKED_AT % BIT_VALUES == 1,
    }
}

// What stands at a place of a table behind its head: the start set, the bad set, the parked set, the states that show an observation,
// the successors that an action gives a state.
#[derive(Clone, Copy)]
pub enum Place {
    Start,
    Bad,
    Parked,
    Shown(Observation),
    Move(Action, State),
}

// The places of the start set, of the bad set and, where the table marks parked states, of theirs.
const START_PLACE: usize = 1;

const BAD_PLACE: usize = 2;

const PARKED_PLACE: usize = 3;

// The words of the parked set, which is also the bit of the head.
#[tactic(auto, unfolding(crate::specs::Places::parked_words))]
pub fn parked_words(s: Shape) -> u32
    ensures { result ≡ parked_words s }
{
    u32::from(s.marked)
}

// Where the observations' sets begin.
fn shown_place(s: Shape) -> usize
    ensures { result ≡ shown_place s }
{
    PARKED_PLACE + parked_words(s) as usize
}

// Where the moves begin.
#[tactic(auto, using(crate::proofs::Places::parked_words_lem))]
fn moves_place(s: Shape) -> usize
    ensures { result ≡ moves_place s }
{
    shown_place(s) + s.observations as usize
}

// What stands at a place.
#[tactic(auto, unfolding(crate::specs::Places::place_at))]
pub fn place_at(s: Shape, p: usize) -> Place
    requires { (1 ≤ s.states) × (1 ≤ p) × (p < max_place) }
    ensures { result ≡ place_at s p }
{
    let seen = shown_place(s);
    let from = moves_place(s);
    match p {
        START_PLACE => Place::Start,
        BAD_PLACE => Place::Bad,
        _ if p < seen => Place::Parked,
        _ if p < from => Place::Shown(Observation((p - seen) as u32)),
        _ => {
            let slot = (p - from) as u32;
            Place::Move(Action(slot / s.states), State(slot % s.states))
        }
    }
}

// Where it stands.
#[tactic(auto, using(crate::proofs::Places::parked_words_lem))]
pub fn place_of(s: Shape, x: Place) -> usize
    requires { s.states < head_values }
    ensures { result ≡ place_of s x }
{
    match x {
        Place::Start => START_PLACE,
        Place::Bad => BAD_PLACE,
        Place::Parked => PARKED_PLACE,
        Place::Shown(seen) => shown_place(s) + seen.0 as usize,
        Place::Move(a, i) => moves_place(s) + a.0 as usize * s.states as usize + i.0 as usize,
    }
}

// The words of a table.
#[tactic(auto, using(crate::proofs::Places::parked_words_lem))]
pub fn table_length(s: Shape) -> usize
    requires { s.states < head_values }
    ensures { result ≡ table_length s }
{
    moves_place(s) + s.actions as usize * s.states as usize
}

// The words of a card's front, head and first words, for o observations.
pub fn front_length(o: u32) -> usize
    ensures { result ≡ front_length o }
{
    1 + o as usize
}

// The words of a cell's part: its own and its next words.
pub fn part_length(o: u32) -> usize
    ensures { result ≡ part_length o }
{
    1 + o as usize
}

// The words of a card of m cells; for a cell's number, where its part begins.
pub fn card_length(m: u32, o: u32) -> usize
    requires { (m ≤ low_values) × (o < number_values) }
    ensures { result ≡ card_length m o }
{
    front_length(o) + m as usize * part_length(o)
}
