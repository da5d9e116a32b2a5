//! Instructions of the BPF instruction set and their encoding (RFC 9669, sections 3 to 5).
#![tactic(auto)]

mod condition;
mod decoding;
mod encoding;
mod fields;
mod instruction;
mod jump;
mod opcode;
mod operator;
mod refusal;
mod register;
mod size;
mod text;
mod width;
mod word;

pub use condition::Condition;
pub use decoding::{
    MAX_SLOTS, decode, law_limits, law_refusals_are_unique, law_refused_bytes_encode_nothing,
};
pub use encoding::{
    encode, law_bytes_encode_one_program, law_encodings_are_unique, law_no_encoding_begins_another,
    read_back,
};
pub use instruction::{Insn, Operand, halves_join, high_half, joined, low_half};
pub use operator::{AluOp, Extension, SwapOp, UnaryOp};
pub use refusal::DecodeError;
pub use register::Reg;
pub use size::{SignedSize, Size, SwapSize};
pub use width::Width;
pub use word::{alu, holds, imm_word, little_endian, sign_extended, unary, write_little_endian};
