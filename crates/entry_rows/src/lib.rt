// Rows of document 01 for lists, the judge and cards. `vectors` runs them.
#![tactic(auto)]

pub mod card_rows;
pub mod judge_rows;
pub mod list_rows;
