// The head of a card, and the check of its words once the head and the length are right.

ghost use Rattle.std.specs.Prelude.{◌≡◌, ◌+◌, ◌<◌, ◌≤◌, ◌&&◌, length, slice_index};
ghost use Rattle.games.specs.Kinds.{kind_number};
ghost use Rattle.games.specs.Format.{kind_next};
ghost use Rattle.games.specs.Words.{front_length};
ghost use Rattle.cards.specs.Card.{head_place, card_observations, words_checked};
ghost use Rattle.cards.specs.Checking.{HeadOf, Shaped, Pass, FitsBelow, names, RightNames};

use games::{Cell, Kind, Reason, Refusal};

// The numbers of a card's head.
#[derive(Clone, Copy)]
pub struct Head {
    pub cells: u32,
    pub observations: u32,
    pub actions: u32,
}

impl Head {
    pub fn of(word: u32) -> Head
        ensures { HeadOf word result }
    {
        Head {
            cells: games::low_field(word),
            observations: games::number_field(word),
            actions: games::action_field(word),
        }
    }
}

// Words with the head of a card, and as many as it asks for.
#[derive(Clone, Copy)]
pub struct Draft<'c> {
    pub words: &'c [u32],
    pub head: Head,
    pub ghost headed: { HeadOf (slice_index words.now head_place) head },
    pub ghost shaped: { Shaped words.now },
}

// Of these words first or next words (the kind says which) in a row from a place on, one for each observation.
#[derive(Clone, Copy)]
struct Row<'c> {
    draft: Draft<'c>,
    kind: Kind,
    at: usize,
    ghost inside: { at + card_observations draft.words.now ≤ length draft.words.now },
}

impl Row<'_> {
    // Whether the word for observation j is right.
    fn named(self, j: u32) -> bool
        requires { j < card_observations self.draft.words.now }
        ensures { result ≡ names self.entry.draft.words.now (kind_number self.entry.kind) self.entry.at j }
    {
        let word = self.draft.words[self.at + j as usize];
        crate::cell_named(self.kind, self.draft.head.cells, j, word)
    }

    // Four words are right, from observation j on. Without a branch between them they are compared at once.
    fn four_named(self, j: u32) -> bool
        requires { j + 4 ≤ card_observations self.draft.words.now }
        ensures { result ≡ (names self.entry.draft.words.now (kind_number self.entry.kind) self.entry.at j
            && names self.entry.draft.words.now (kind_number self.entry.kind) self.entry.at (j + 1)
            && names self.entry.draft.words.now (kind_number self.entry.kind) self.entry.at (j + 2)
            && names self.entry.draft.words.now (kind_number self.entry.kind) self.entry.at (j + 3)) }
    {
        self.named(j) & self.named(j + 1) & self.named(j + 2) & self.named(j + 3)
    }

    // Some words that are right, from the first on: as many as go by fours.
    fn right_fours(self) -> u32
        ensures { Pass (names self.entry.draft.words.now (kind_number self.entry.kind) self.entry.at)
            (card_observations self.entry.draft.words.now) result }
    {
        let o = self.draft.head.observations;
        for k in 0..o / 4 {
            if !self.four_named(4 * k) {
                return 4 * k;
            }
        }
        o - o % 4
    }

    // How many words are right before one that is wrong, where those below a number are; all, where none is wrong. It is a count and no
    // `Option`: it goes on from the count of the fours, and one definition (`FirstWrong`) says both ends.
    fn right_from(self, from: u32) -> u32
        requires { Pass (names self.draft.words.now (kind_number self.kind) self.at) (card_observations self.draft.words.now) from }
        ensures { RightNames self.entry.draft.words.now (kind_number self.entry.kind) self.entry.at
            (card_observations self.entry.draft.words.now) result }
    {
        let o = self.draft.head.observations;
        for j in from..o {
            if !self.named(j) {
                return j;
            }
        }
        o
    }

    // The same count: fewer than four one by one, more by fours first. It is called in one place, so that the compiler puts it into the loop
    // over the cells: with the first words by fours too, the check took more than twice as long.
    fn right(self) -> u32
        ensures { RightNames self.entry.draft.words.now (kind_number self.entry.kind) self.entry.at
            (card_observations self.entry.draft.words.now) result }
    {
        if self.draft.head.observations < 4 {
            return self.right_few();
        }
        self.right_from(self.right_fours())
    }

    // The same for fewer than four, one by one: the compiler leaves a loop over so few standing, and the check took a third more time.
    fn right_few(self) -> u32
        requires { card_observations self.draft.words.now < 4 }
        ensures { RightNames self.entry.draft.words.now (kind_number self.entry.kind) self.entry.at
            (card_observations self.entry.draft.words.now) result }
    {
        let o = self.draft.head.observations;
        if o == 0 || !self.named(0) {
            return 0;
        }
        if o == 1 || !self.named(1) {
            return 1;
        }
        if o == 2 || !self.named(2) {
            return 2;
        }
        o
    }
}

impl Draft<'_> {
    // The cells' parts, each its own word and its next words: the lowest wrong word stops the check.
    fn check_parts(self) -> Result<(), Refusal>
        requires { FitsBelow self.words.now (front_length (card_observations self.words.now)) }
        ensures { result ≡ words_checked self.entry.words.now }
    {
        let Head {
            cells,
            observations,
            actions,
        } = self.head;
        for c in 0..cells {
            let at = crate::cell_place(observations, Cell(c));
            if !crate::cell_fits(actions, self.words[at]) {
                return Err(Reason::NoCard.at(at));
            }
            let nexts = Row {
                draft: self,
                kind: Kind::Next,
                at: at + 1,
            };
            let named = nexts.right();
            if named < observations {
                return Err(Reason::NoCard.at(at + 1 + named as usize));
            }
        }
        Ok(())
    }

    // The words behind the head: the first words, then the cells' parts.
    pub fn check(self) -> Result<(), Refusal>
        ensures { result ≡ words_checked self.entry.words.now }
    {
        let firsts = Row {
            draft: self,
            kind: Kind::First,
            at: 1,
        };
        let named = firsts.right_from(0);
        if named < self.head.observations {
            return Err(Reason::NoCard.at(1 + named as usize));
        }
        self.check_parts()
    }
}
