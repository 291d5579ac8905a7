// Opcodes as words.
ghost use Rattle.std.specs.Prelude.{◌≡◌, ◌<◌, ◌^◌, ◌↔◌, Some, IsNone};
ghost use Rattle.gl_ops.specs.Opcodes.{row_of};
ghost use Rattle.gl_ops.specs.declared.op.Op.{Op};
ghost use Rattle.gl_ops.specs.Words.{operand, word_of, decoded, IsWordOf};

use crate::cases::{op_with, row_of};
use crate::op::Op;

/// The word of an opcode: the code in the top 8 bits, operand `a` in the next 24 and operand `b` in the low 32.
/// An operand that the kind doesn't use is 0.
pub fn encode(op: &Op) -> u64
    requires { operand (row_of op.now).a < 2 ^ 24 }
    ensures value { result ≡ word_of op.now }
    ensures word { IsWordOf op.now result }
{
    let row = row_of(op);
    ((row.code as u64) << 56) + ((row.a.unwrap_or(0) as u64) << 32) + row.b.unwrap_or(0) as u64
}

/// The opcode of a word, or `None` for a word that is no opcode's.
pub fn decode(word: u64) -> Option<Op>
    ensures function { result ≡ decoded word }
    ensures value { (op : Op) → (result ≡ Some op) ↔ IsWordOf op word }
    ensures none { IsNone result ↔ ((op : Op) → ¬ (IsWordOf op word)) }
{
    let code = (word >> 56) as u8;
    let a = (word >> 32) as u32 & 0xFF_FFFF;
    let b = (word & 0xFFFF_FFFF) as u32;
    op_with(code, a, b)
}
