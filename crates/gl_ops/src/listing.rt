// Words as lines of text.
ghost use Rattle.std.specs.Prelude.{◌≡◌, ◌++◌, List, IfOk, OnOk, IsTrue};
ghost use Rattle.gl_base.specs.Texts.{is_ascii_text};
ghost use Rattle.gl_ops.specs.Lines.{line_of, lines_of, operand_text, AreWordsOf};
ghost use Rattle.gl_ops.specs.Opcodes.{row_of};
ghost use Rattle.gl_ops.specs.declared.op.Op.{Op};

use crate::cases::row_of;
use crate::op::Op;
use crate::word::decode;
use gl_names::mnemonics;
use gl_value::Text;
use std::alloc::{AllocError, Global};

/// The words as lines of text: a line for each, with its address from 0, the mnemonic and the operands that
/// the kind uses. The error is want of memory.
pub fn list(alloc: Global, words: &[u64]) -> Result<Text, AllocError>
    requires { (ops : List Op) × AreWordsOf ops words.now }
    ensures { (ops : List Op) → AreWordsOf ops words.now → IfOk result (λ t. t ≡ lines_of 0 ops) }
{
    let mut out = Text::new(alloc);
    for (address, word) in words.iter().enumerate() {
        let op = decode(*word).unwrap();
        push_line(&mut out, address, &op)?;
    }
    Ok(out)
}

// Writes the line of the opcode at the address.
fn push_line(out: &mut Text, address: usize, op: &Op) -> Result<(), AllocError>
    ensures { OnOk result (out.new ≡ out.old ++ line_of address op.now) }
{
    let row = row_of(op);
    out.push_number(address as u128)?;
    out.push_ascii(" ")?;
    out.push_ascii(mnemonic(op))?;
    push_operand(out, row.a)?;
    push_operand(out, row.b)?;
    out.push_ascii("\n")
}

// Writes an operand after a blank, where there is one.
fn push_operand(out: &mut Text, operand: Option<u32>) -> Result<(), AllocError>
    ensures { OnOk result (out.new ≡ out.old ++ operand_text operand) }
{
    if let Some(value) = operand {
        out.push_ascii(" ")?;
        out.push_number(value as u128)?;
    }
    Ok(())
}

// The name of the opcode's kind, from the table.
#[tactic(auto, using(crate::proofs::Mnemonics::name_at))]
fn mnemonic(op: &Op) -> &'static str
    ensures value { result.now ≡ (row_of op.now).mnemonic }
    ensures ascii { IsTrue (is_ascii_text result.now) }
{
    let row = row_of(op);
    mnemonics().name(row.code as u16).unwrap()
}
