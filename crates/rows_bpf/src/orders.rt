//! Rows of programs that are put in order: `order`.

use crate::line::ProgramRow;
use crate::program::{file_of, joined};
use anyhow::Result;
use disasm::disassemble;
use insn::decode;
use ordering::order;
use std::alloc::Global;

/// Puts a program in order, and returns its instructions or its refusal.
///
/// # Errors
/// Where the program is refused by the assembler, or memory runs out.
pub fn ordered(alloc: Global, row: &ProgramRow<'_>) -> Result<String> {
    if row.given == "empty" {
        let code = order(alloc, &[])?;
        let answer = if code.is_empty() {
            "empty"
        } else {
            "not empty"
        };
        return Ok(answer.to_string(alloc)?);
    }
    let file = file_of(alloc, row.given)?;
    let code = decode(alloc, &file)?;
    match order(alloc, &code) {
        Ok(code) => joined(alloc, &disassemble(alloc, &code)?, "; "),
        Err(refusal) => Ok(format!(in alloc; "refused {refusal}")?),
    }
}
