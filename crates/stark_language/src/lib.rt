//! Statements that people write: a text of equations between named columns. Its tokens, what its
//! lines say, and the nodes of an AIR that its expressions are.
#![tactic(auto)]

mod cursor;
mod expression;
mod fault;
mod grammar;
mod lexer;
mod line;
mod list;
mod token;
mod tree;
mod word;
mod writer;

pub use fault::{Fault, FaultKind, LanguageError};
pub use grammar::each_expression_is_read;
pub use lexer::tokens_of;
pub use line::lines_of;
pub use token::{Lexeme, Symbol, Token};
pub use tree::{Element, Item, Line, Member, MemberValue, Name, Step};
pub use writer::Node;
