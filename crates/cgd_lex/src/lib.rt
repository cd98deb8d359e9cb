//! The tokens of a text, as slices of it.
#![tactic(auto)]

mod bytes;
mod lexer;
mod lines;
mod part;
mod token;
mod words;

pub use lexer::Lexer;
pub use lines::{next_first, next_on_line};
pub use token::{Token, TokenKind};
pub use words::{is_keyword, name_in, number_up_to, unquoted};
