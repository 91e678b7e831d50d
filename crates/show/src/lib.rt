// The move words of a cell's action, as a part of a table's words (document 01, "Entries": Show).
#![tactic(auto)]

ghost use Rattle.std.specs.Prelude.{◌≡◌};
ghost use Rattle.show.specs.Show.{located, found, handed, part_of};

use games::{Cell, Place, Reason, Refusal, State};
use pairs::Pair;

// A part of a table's words: where it starts, and how many words it has.
#[derive(Clone, Copy, PartialEq, Eq, Debug)]
pub struct Part {
    pub offset: usize,
    pub length: usize,
}

// Refusal 12, or the part.
#[tactic(auto, using(cards::proofs::Running::size_of), unfolding(crate::specs::Show::located))]
fn locate(pair: Pair, cell: Cell) -> Result<Part, Refusal>
    ensures { result ≡ located pair.entry.table.table.words.now pair.entry.card.words.now cell.0 }
{
    if pair.card.cells() <= cell.0 {
        return Err(Reason::NumberBeyond.at(cell.0 as usize));
    }
    let action = pair.card.cell_action(cell);
    let table = pair.table.table;
    Ok(Part {
        offset: table.place_in(Place::Move(action, State(0))),
        length: table.states() as usize,
    })
}

// Where the part stands: the check of table and card, then 12.
#[tactic(auto, unfolding(crate::specs::Show::found))]
pub fn find(table: &[u32], card: &[u32], cell: Cell) -> Result<Part, Refusal>
    ensures { result ≡ found table.now card.now cell.0 }
{
    let pair = Pair::of(table, card)?;
    locate(pair, cell)
}

// The part itself, of the table's words and never of the card's; empty where `find` refuses.
#[tactic(auto, using(crate::proofs::Laws::part_in))]
pub fn show<'t, 'c>(table: &'t [u32], card: &'c [u32], cell: Cell) -> &'t [u32]
    ensures { handed result.now result.ref_ptr
        ≡ part_of table.now table.entry.ref_ptr (found table.now card.now cell.0) }
{
    let Ok(part) = find(table, card, cell) else {
        return &table[0..0];
    };
    let end = part.offset + part.length;
    &table[part.offset..end]
}
