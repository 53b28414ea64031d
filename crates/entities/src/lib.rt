// What a token without text comes to: Shastina Specification, sections 5.1 to 5.3 and 5.8, and document 01, "From tokens to entities". What
// is kept between tokens, and the begin group that a token behind `[` brings, serve the tokens with text too.

#![tactic(auto)]

pub mod arrays;
pub mod bare;
pub mod brought;
pub mod groups;
pub mod metacommands;
mod open;
pub mod state;
