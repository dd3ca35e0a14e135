//! The tokens of a module text.
//!
//! `lex` cuts a text into blanks, comments and tokens. It answers the tokens, each with the place
//! where it lies, or the first place where none of these can stand. The definitions in `specs/` say
//! what a blank, a comment and a token are, that words and comments go as far as they can, and that
//! the pieces are the whole text. A public law says that a text can be cut in one way only. Lines
//! and columns count from 1, and columns count bytes.
#![tactic(auto)]

pub mod identifier;
pub mod keyword;
pub mod laws;
pub mod lex;
pub mod piece;
pub mod place;
mod scan;
pub mod token;
pub mod token_list;
