// A table and a card together: the check that stands before every use of both.
#![tactic(auto)]

ghost use Rattle.std.specs.Prelude.{◌≡◌, Ok, IfOk, IfErr};
ghost use Rattle.pairs.specs.Pair.{agree, checked};

use cards::Card;
use games::{Reason, Refusal};
use tables::Accepted;

// A table and a card that go together.
#[derive(Clone, Copy)]
pub struct Pair<'t, 'c> {
    pub table: Accepted<'t>,
    pub card: Card<'c>,
    pub ghost checked: { checked table.table.words.now card.words.now ≡ Ok tt },
}

// The card's actions and observations are the table's in number.
#[tactic(auto, unfolding(crate::specs::Pair::agree))]
fn numbers_agree(table: Accepted, card: Card) -> bool
    ensures { result ≡ agree table.entry.table.words.now card.entry.words.now }
{
    (card.actions() == table.table.actions()) & (card.observations() == table.table.observations())
}

impl<'t, 'c> Pair<'t, 'c> {
    // The table checks, 13, and 16 where the two don't go together.
    #[tactic(auto, unfolding(crate::specs::Pair::checked))]
    pub fn of(table: &'t [u32], card: &'c [u32]) -> Result<Pair<'t, 'c>, Refusal>
        ensures pair { IfOk result (λ p. (p.table.table.words ≡ table.entry) × (p.card.words ≡ card.entry)) }
        ensures refused { IfErr result (λ e. checked table.now card.now ≡ Err e) }
    {
        let table = Accepted::of(table)?;
        let card = Card::of(card)?;
        if !numbers_agree(table, card) {
            return Err(Reason::Disagree.at(0));
        }
        Ok(Pair { table, card })
    }
}

// The check alone.
pub fn check(table: &[u32], card: &[u32]) -> Result<(), Refusal>
    ensures { result ≡ checked table.now card.now }
{
    let _pair = Pair::of(table, card)?;
    Ok(())
}
