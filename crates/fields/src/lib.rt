// A table as fields (document 01, "Entries"): reading a table into fields, and writing fields as a table's words.
#![tactic(auto)]

ghost use Rattle.std.specs.Prelude.{◌≡◌, ◌<◌, ◌≤◌, Ok, IfOk, IfErr};
ghost use Rattle.games.specs.Answers.{leaves};
ghost use Rattle.games.specs.Places.{Limited};
ghost use Rattle.tables.specs.Check.{parked_checked};
ghost use Rattle.tables.specs.Fields.{fields_shape, game_of};
ghost use Rattle.fields.specs.Read.{read_of};
ghost use Rattle.fields.specs.RoundTrip.{WritesBack, ReadsBack};
ghost use Rattle.fields.specs.Write.{mask_of, word_at, unused_zero, slots_checked, masks_checked, fields_checked, words_length, written_to, write_of};

use games::{Place, Reason, Refusal};
use tables::{Accepted, Fields, MoveWords, Sizes};

// Checks a table and reads it into fields.
#[tactic(auto, unfolding(crate::specs::Read::read_of))]
pub fn read(table: &[u32]) -> Result<Fields, Refusal>
    ensures answers { result ≡ read_of table.now }
    ensures written_back { WritesBack table.now result }
{
    let accepted = Accepted::of(table)?;
    Ok(accepted.table.fields())
}

// The slots from `used` up are 0.
fn unused_zero(slots: &[u32], used: usize) -> bool
    ensures { result ≡ unused_zero used slots.now }
{
    slots.iter().skip(used).all(|slot| *slot == 0)
}

// Refusals 2 and 11.
#[tactic(auto, unfolding(crate::specs::Write::slots_checked))]
fn check_slots(f: Fields) -> Result<(), Refusal>
    ensures { result ≡ slots_checked f }
{
    if !tables::limits_hold(f.shape()) {
        return Err(Reason::BadHead.at(0));
    }
    let clean = (f.marked | (f.parked == 0))
        & (unused_zero(&f.shown, f.observations as usize)
            & unused_zero(&f.moves, (f.actions * f.states) as usize));
    if !clean {
        return Err(Reason::SlotUsed.at(0));
    }
    Ok(())
}

// Fields whose numbers are within the limits.
#[derive(Clone, Copy)]
struct Bounded {
    fields: Fields,
    ghost limited: { Limited (fields_shape fields) },
}

// Bounded fields of which every used mask names states below n only.
#[derive(Clone, Copy)]
struct Narrow {
    bounded: Bounded,
    ghost masks: { masks_checked bounded.fields ≡ Ok tt },
}

impl Bounded {
    // Refusals 2 and 11, else the fields.
    fn of(fields: Fields) -> Result<Bounded, Refusal>
        ensures bounded { IfOk result (λ b. (b.fields ≡ fields) × (slots_checked fields ≡ Ok tt)) }
        ensures refused { IfErr result (λ e. slots_checked fields ≡ Err e) }
    {
        check_slots(fields)?;
        Ok(Bounded { fields })
    }

    // Their numbers.
    fn sizes(self) -> Sizes
        ensures { result.shape ≡ fields_shape self.fields }
    {
        Sizes {
            shape: self.fields.shape(),
        }
    }

    // The words of their table.
    fn words(self) -> usize
        ensures { result ≡ words_length self.fields }
    {
        games::table_length(self.fields.shape())
    }

    // The mask of the word at a place from 1 up.
    fn mask_at(self, p: usize) -> u32
        requires { (1 ≤ p) × (p < words_length self.fields) }
        ensures { result ≡ mask_of self.fields p }
    {
        let f = self.fields;
        match games::place_at(f.shape(), p) {
            Place::Start => f.start,
            Place::Bad => f.bad,
            Place::Parked => f.parked,
            Place::Shown(seen) => f.shown[seen.0 as usize],
            Place::Move(a, i) => f.moves[(a.0 * f.states + i.0) as usize],
        }
    }

    // Refusal 5: the lowest place of a word whose mask names a state from n up.
    fn check_masks(self) -> Result<(), Refusal>
        ensures { result ≡ masks_checked self.fields }
    {
        let full = sets::single(self.fields.states);
        for p in 1..self.words() {
            if full <= self.mask_at(p) {
                return Err(Reason::StateBeyond.at(p));
            }
        }
        Ok(())
    }
}

impl Narrow {
    // Refusals 2, 11, 5, 6, 7 and 19, else the fields.
    #[tactic(auto, unfolding(crate::specs::Write::fields_checked))]
    fn of(f: Fields) -> Result<Narrow, Refusal>
        ensures narrow { IfOk result (λ n. (n.bounded.fields ≡ f) × (fields_checked f ≡ Ok tt)) }
        ensures refused { IfErr result (λ e. fields_checked f ≡ Err e) }
    {
        let bounded = Bounded::of(f)?;
        bounded.check_masks()?;
        let narrow = Narrow { bounded };
        f.check_sets()?;
        narrow.check_departures()?;
        Ok(narrow)
    }

    // Refusal 19, by the moves, which are masks without a kind.
    fn check_departures(self) -> Result<(), Refusal>
        ensures { result ≡ parked_checked (game_of self.bounded.fields) }
    {
        let f = self.bounded.fields;
        let moves = MoveWords {
            words: &f.moves,
            sizes: self.bounded.sizes(),
            parked: f.parked,
        };
        moves.check()
    }

    // The word at a place.
    fn word_at(self, p: usize) -> u32
        requires { p < words_length self.bounded.fields }
        ensures { result ≡ word_at self.bounded.fields p }
    {
        let sizes = self.bounded.sizes();
        if p == 0 {
            return sizes.head_word();
        }
        sizes.bare_word(p) + self.bounded.mask_at(p)
    }

    // Refusal 10, or the words in front of `out`.
    fn write(self, out: &mut [u32]) -> Result<usize, Refusal>
        ensures { leaves result out.new ≡ written_to self.bounded.fields out.old }
    {
        let words = self.bounded.words();
        if out.len() < words {
            return Err(Reason::ShortTable.at(words));
        }
        for p in 0..words {
            out[p] = self.word_at(p);
        }
        Ok(words)
    }
}

// Writes the fields as a table's words into the front of `out`; a refusal leaves `out` as it was.
#[tactic(auto, unfolding(crate::specs::Write::write_of))]
pub fn write(f: Fields, out: &mut [u32]) -> Result<usize, Refusal>
    ensures answers { leaves result out.new ≡ write_of f out.old }
    ensures read_back { ReadsBack f result out.new }
{
    let narrow = Narrow::of(f)?;
    narrow.write(out)
}
