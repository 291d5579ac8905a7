//! Laws of the opcodes. A law is what its function ensures; the function does nothing.
ghost use Rattle.std.specs.Prelude.{◌≡◌, ◌↔◌, Some};
ghost use Rattle.gl_base.specs.Names.{named};
ghost use Rattle.gl_names.specs.Mnemonics.{mnemonic_rows};
ghost use Rattle.gl_names.specs.Table.{name_of};
ghost use Rattle.gl_ops.specs.Opcodes.{row_of};
ghost use Rattle.gl_ops.specs.Words.{decoded, word_of, HasRoom, IsWordOf};

use crate::op::Op;

/// An opcode whose operands have room in a word is decoded from its word.
#[tactic(auto, using(crate::proofs::Words::decoded_word))]
pub fn decoded_from_its_word(op: &Op)
    requires { HasRoom op.now }
    ensures { decoded (word_of op.now) ≡ Some op.now }
{}

/// A word is decoded as an opcode exactly where it is the opcode's word.
#[tactic(auto, using(crate::proofs::Words::decoded_exactly))]
pub fn decoded_exactly(word: u64, op: &Op)
    ensures { (decoded word ≡ Some op.now) ↔ IsWordOf op.now word }
{}

/// A word is the word of one opcode at most.
#[tactic(auto, using(crate::proofs::Words::one_opcode))]
pub fn one_opcode(word: u64, first: &Op, second: &Op)
    requires first { IsWordOf first.now word }
    requires second { IsWordOf second.now word }
    ensures { first.now ≡ second.now }
{}

/// The table of mnemonics has each kind's name at its code, and its code at its name.
#[tactic(auto, using(crate::proofs::Mnemonics::name_at, crate::proofs::Mnemonics::code_at))]
pub fn mnemonics_agree(op: &Op)
    ensures name { name_of (row_of op.now).code mnemonic_rows ≡ Some (row_of op.now).mnemonic }
    ensures code { named (row_of op.now).mnemonic mnemonic_rows ≡ Some (row_of op.now).code }
{}
