// Memory for compiling, which is taken before anything is looked at.
ghost use Rattle.std.specs.Prelude.{◌≡◌, ◌+◌, ◌≤◌, [], vec_capacity};
ghost use Rattle.job_language.specs.declared.programs.TheConstants.{MAX_INSTRS};

use job_compiler::VirtualCode;
use job_language::{Instr, MAX_INSTRS};
use std::alloc::{AllocError, Global};

/// Memory for the longest procedure, for its code over virtual registers, and for what is read later
/// at each of its places, and the registers that are chosen there.
#[derive(Drop)]
pub struct ChoiceMemory {
    pub(crate) code: VirtualCode,
    pub(crate) plain: Vec<Instr>,
    pub(crate) instrs: Vec<Instr>,
    pub(crate) rows: Vec<[bool; 256]>,
    pub(crate) colours: Vec<[u8; 256]>,
    ghost no_code: { code ≡ [] },
    ghost no_plain: { plain.items ≡ [] },
    ghost no_instrs: { instrs.items ≡ [] },
    ghost no_rows: { rows.items ≡ [] },
    ghost no_colours: { colours.items ≡ [] },
    ghost plain_fits: { MAX_INSTRS ≤ vec_capacity plain },
    ghost instrs_fit: { MAX_INSTRS ≤ vec_capacity instrs },
    ghost rows_fit: { MAX_INSTRS ≤ vec_capacity rows },
    ghost colours_fit: { MAX_INSTRS + 1 ≤ vec_capacity colours },
}

impl ChoiceMemory {
    /// Takes it.
    pub fn new(alloc: Global) -> Result<ChoiceMemory, AllocError> {
        Ok(ChoiceMemory {
            code: VirtualCode::new(alloc)?,
            plain: Vec::with_capacity(alloc, MAX_INSTRS)?,
            instrs: Vec::with_capacity(alloc, MAX_INSTRS)?,
            rows: Vec::with_capacity(alloc, MAX_INSTRS)?,
            colours: Vec::with_capacity(alloc, MAX_INSTRS + 1)?,
        })
    }
}
