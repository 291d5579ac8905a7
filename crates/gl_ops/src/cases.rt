// The table of the opcodes: the code of each kind, and the operands that it uses.
ghost use Rattle.std.specs.Prelude.{◌≡◌};
ghost use Rattle.gl_ops.specs.Finding.{op_of};
ghost use Rattle.gl_ops.specs.Opcodes.{row_of};

use crate::op::Op;

// One row a kind. `row` gives the row of an opcode, `find` the opcode of a code and two
// operands, or `None` where there is none.
macro_rules! opcodes {
    (row $op:expr) => {
        opcodes!(rows row_at ($op))
    };
    (find $code:expr, $a:expr, $b:expr) => {
        opcodes!(rows find_at ($code, $a, $b))
    };
    (rows $rule:ident $at:tt) => {
        opcodes! { $rule $at
            1 Text(b),
            2 Comment(b),
            3 Open(b),
            4 Attr(a, b),
            5 AttrRef(a),
            6 Spread(),
            7 Mod(a, b),
            8 Flush(),
            9 Close(),
            10 Put(),
            11 If(b),
            12 Unless(b),
            13 Else(b),
            14 EndIf(),
            15 Each(a, b),
            16 Item(a, b),
            17 EndItem(),
            18 EndEach(),
            19 Let(a),
            20 Bind(a),
            21 EndLet(),
            22 Comp(a),
            23 Arg(a),
            24 Block(a, b),
            25 Param(a),
            26 EndBlock(),
            27 Bare(),
            28 Invoke(),
            29 Yield(a, b),
            30 Undef(),
            31 Null(),
            32 True(),
            33 False(),
            34 Int(b),
            35 Str(b),
            36 Local(a),
            37 ArgRef(a),
            38 Field(a),
            39 Getter(a),
            40 Action(a),
            41 Prop(b),
            42 Call(a, b),
            43 Named(b),
            44 Cat(a),
            45 Done(),
        }
    };
    (row_at ($op:expr) $($code:literal $kind:ident($($operand:ident),*),)*) => {
        match $op {
            $(Op::$kind { $($operand),* } => opcodes!(row_with $code $($operand $operand)*),)*
        }
    };
    (row_with $code:literal) => {
        Row { code: $code, a: None, b: None }
    };
    (row_with $code:literal a $a:ident) => {
        Row { code: $code, a: Some(*$a), b: None }
    };
    (row_with $code:literal b $b:ident) => {
        Row { code: $code, a: None, b: Some(*$b) }
    };
    (row_with $code:literal a $a:ident b $b:ident) => {
        Row { code: $code, a: Some(*$a), b: Some(*$b) }
    };
    (find_at ($at:expr, $a:expr, $b:expr) $($code:literal $kind:ident($($operand:ident),*),)*) => {
        match $at {
            $($code => opcodes!(found $kind $a, $b; $($operand)*),)*
            _ => None,
        }
    };
    (found $kind:ident $a:expr, $b:expr;) => {
        if $a == 0 && $b == 0 { Some(Op::$kind) } else { None }
    };
    (found $kind:ident $a:expr, $b:expr; a) => {
        if $b == 0 { Some(Op::$kind { a: $a }) } else { None }
    };
    (found $kind:ident $a:expr, $b:expr; b) => {
        if $a == 0 { Some(Op::$kind { b: $b }) } else { None }
    };
    (found $kind:ident $a:expr, $b:expr; a b) => {
        Some(Op::$kind { a: $a, b: $b })
    };
}

// The code of an opcode, and the operands that its kind uses.
#[derive(Clone, Copy)]
pub(crate) struct Row {
    pub code: u8,
    pub a: Option<u32>,
    pub b: Option<u32>,
}

// The row of an opcode.
pub(crate) fn row_of(op: &Op) -> Row
    ensures code { result.code ≡ (row_of op.now).code }
    ensures a { result.a ≡ (row_of op.now).a }
    ensures b { result.b ≡ (row_of op.now).b }
{
    opcodes!(row op)
}

// The opcode with the code and the operands, where an operand that its kind doesn't use is 0.
#[tactic(auto, unfolding(crate::specs::Finding::op_of))]
pub(crate) fn op_with(code: u8, a: u32, b: u32) -> Option<Op>
    ensures { result ≡ op_of code a b }
{
    opcodes!(find code, a, b)
}
