//! The assembler: programs as text that people write.
//!
//! A text is lines. A line is empty, a label `NAME:`, or one instruction; from `;` on it is a comment.
#![tactic(auto)]

mod conversion;
mod labels;
mod mnemonic;
mod number;
mod parser;
mod program;
mod radix;
mod refusal;
mod statement;
mod table;

pub use program::{
    Assembled, InsnLine, assemble, assemble_with_lines, law_listings_name_their_program,
    law_refusals_are_unique, law_texts_name_one_program,
};
pub use refusal::AsmError;
