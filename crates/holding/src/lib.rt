// Holding entities in the list and their text in the text buffer.

#![tactic(auto)]

mod copy;
mod lines;
pub mod rows;
pub mod text;
