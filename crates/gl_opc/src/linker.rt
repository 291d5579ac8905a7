// What is linked so far.
ghost use Rattle.std.specs.Prelude.{◌≡◌, IfOk, OnOk, length, map, Some};
ghost use Rattle.gl_ops.specs.Opcodes.{row_of};
ghost use Rattle.gl_ops.specs.Words.{decoded, operand, IsWordOf};
ghost use Rattle.gl_opc.specs.Linked.{here, op_added, gap_added, text_added, name_added, int_added, filled, started};
ghost use Rattle.gl_opc.specs.Piece.{no_code};
ghost use Rattle.gl_opc.specs.State.{state_view};
ghost use Rattle.gl_opc.specs.Pools.{HasEachOnce};
ghost use Rattle.gl_program.specs.View.{program_view};
ghost use Rattle.gl_wire.specs.Symbols.{place_of};

use crate::pool::Pool;
use crate::{Ints, Program, Words};
use gl_ops::{Op, encode};
use gl_value::Text;
use std::alloc::{AllocError, Global};

/// The opcodes and the pools that are linked so far, and how many statements have begun. A number that has no room in 32 bits
/// is answered with want of memory.
#[derive(Drop)]
pub struct Linker {
    pub ops: Vec<Op>,
    pub texts: Pool,
    pub names: Pool,
    pub ints: Ints,
    pub begun: u64,
}

// The number in 32 bits.
pub fn number32(number: usize) -> Result<u32, AllocError>
    ensures { IfOk result (λ n. n ≡ number) }
{
    match u32::try_from(number) {
        Ok(number) => Ok(number),
        Err(_) => Err(AllocError),
    }
}

impl Linker {
    /// Nothing is linked. It takes no memory.
    pub fn new(alloc: Global) -> Linker
        ensures { state_view result ≡ record { code = no_code; begun = 0 } }
    {
        Linker {
            ops: Vec::new(alloc),
            texts: Pool::new(alloc),
            names: Pool::new(alloc),
            ints: Ints::new(alloc),
            begun: 0,
        }
    }

    /// Begins a statement, and gives its number.
    pub fn begin(&mut self) -> Result<u64, AllocError>
        ensures number { IfOk result (λ n. n ≡ (state_view self.old).begun) }
        ensures begun { OnOk result (state_view self.new ≡ started (state_view self.old)) }
    {
        let number = self.begun;
        match number.checked_add(1) {
            Some(begun) => {
                self.begun = begun;
                Ok(number)
            }
            None => Err(AllocError),
        }
    }

    /// The address of the next opcode.
    pub fn here(&self) -> Result<u32, AllocError>
        ensures { IfOk result (λ n. n ≡ here (state_view self.now)) }
    {
        number32(self.ops.len())
    }

    /// Adds an opcode.
    pub fn push_op(&mut self, op: Op) -> Result<(), AllocError>
        ensures { OnOk result (state_view self.new ≡ op_added op (state_view self.old)) }
    {
        self.ops.push(op)?;
        Ok(())
    }

    /// Adds a gap, which an opcode is to fill, and gives its address.
    pub fn push_gap(&mut self) -> Result<u32, AllocError>
        ensures address { IfOk result (λ n. n ≡ here (state_view self.old)) }
        ensures added { OnOk result (state_view self.new ≡ gap_added (state_view self.old)) }
    {
        let address = self.here()?;
        self.push_op(Op::Done)?;
        Ok(address)
    }

    /// Fills the gap at an address.
    pub fn fill(&mut self, at: u32, op: Op)
        ensures { state_view self.new ≡ filled at op (state_view self.old) }
    {
        let at = at as usize;
        if at < self.ops.len() {
            self.ops[at] = op;
        }
    }

    /// Adds a text to its pool, where it doesn't stand there yet, and gives its place.
    pub fn push_text(&mut self, text: &Text) -> Result<u32, AllocError>
        ensures place { IfOk result (λ n. n ≡ place_of (state_view self.old).code.texts text.now) }
        ensures added { OnOk result (state_view self.new ≡ text_added text.now (state_view self.old)) }
    {
        self.texts.put(text)
    }

    /// Adds a name to its pool, where it doesn't stand there yet, and gives its place.
    pub fn push_name(&mut self, name: &Text) -> Result<u32, AllocError>
        ensures place { IfOk result (λ n. n ≡ place_of (state_view self.old).code.names name.now) }
        ensures added { OnOk result (state_view self.new ≡ name_added name.now (state_view self.old)) }
    {
        self.names.put(name)
    }

    /// Adds an integer to its pool, and gives its place.
    pub fn push_int(&mut self, integer: i64) -> Result<u32, AllocError>
        ensures place { IfOk result (λ n. n ≡ length (state_view self.old).code.ints) }
        ensures added { OnOk result (state_view self.new ≡ int_added integer (state_view self.old)) }
    {
        let place = number32(self.ints.len())?;
        self.ints.push(integer)?;
        Ok(place)
    }

    /// The program of what is linked.
    pub fn finish(self, alloc: Global) -> Result<Program, AllocError>
        ensures words { IfOk result (λ p. map decoded p.words ≡ map Some (state_view self).code.ops) }
        ensures texts { IfOk result (λ p. p.texts ≡ (state_view self).code.texts) }
        ensures names { IfOk result (λ p. p.names ≡ (state_view self).code.names) }
        ensures ints { IfOk result (λ p. p.ints ≡ (state_view self).code.ints) }
        ensures once { IfOk result (λ p. HasEachOnce (program_view p)) }
    {
        let words = words_of(alloc, self.ops.as_slice())?;
        let texts = self.texts.into_texts()?;
        let names = self.names.into_texts()?;
        Ok(Program {
            words,
            texts,
            names,
            ints: self.ints,
        })
    }
}

// The words of opcodes.
fn words_of(alloc: Global, ops: &[Op]) -> Result<Words, AllocError>
    ensures { IfOk result (λ w. map decoded w ≡ map Some ops.now) }
{
    let mut words = Words::new(alloc);
    for op in ops {
        words.push(word_of(op)?)?;
    }
    Ok(words)
}

// The operand `a` of an opcode, 0 where its kind has none.
fn first_operand(op: &Op) -> u32
    ensures { result ≡ operand (row_of op.now).a }
{
    match op {
        Op::Attr { a, .. }
        | Op::AttrRef { a }
        | Op::Mod { a, .. }
        | Op::Each { a, .. }
        | Op::Item { a, .. }
        | Op::Let { a }
        | Op::Bind { a }
        | Op::Comp { a }
        | Op::Arg { a }
        | Op::Block { a, .. }
        | Op::Param { a }
        | Op::Yield { a, .. }
        | Op::Local { a }
        | Op::ArgRef { a }
        | Op::Field { a }
        | Op::Getter { a }
        | Op::Action { a }
        | Op::Call { a, .. }
        | Op::Cat { a } => *a,
        _ => 0,
    }
}

// The word of an opcode, where its operand has room.
fn word_of(op: &Op) -> Result<u64, AllocError>
    ensures { IfOk result (λ w. decoded w ≡ Some op.now) }
{
    if first_operand(op) < 1 << 24 {
        Ok(encode(op))
    } else {
        Err(AllocError)
    }
}
