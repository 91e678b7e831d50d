// Rows over a table and a card: show (document 01) and the judge of cards (document 02, change 1). `vectors` runs them.
#![tactic(auto)]

pub mod judge_card_rows;
pub mod show_rows;
