// What the instructions compute on words: A is the top of the stack, B the second. The members of a family are an enumeration and no
// closures, since the definitions' table and the theorems over its rows speak of them.
#![tactic(auto)]

ghost use Rattle.std.specs.Prelude.{◌≡◌, ◌*◌, ◌/◌, ◌<◌};
ghost use Rattle.std.specs.Int.Signed.{shr_z};
ghost use Rattle.arithmetic.specs.Words.{wrap, signed, word_of};
ghost use Rattle.arithmetic.specs.Operations.{shift_factor, unary_of, binary_of, division_of};

#[derive(Clone, Copy)]
pub enum UnOp {
    Not,
    Flip,
    Neg,
}

#[derive(Clone, Copy)]
pub enum BinOp {
    Add,
    And,
    Or,
    LessThan,
    LessThanOrEqual,
    ULessThan,
    ULessThanOrEqual,
    Eq,
    Neq,
    Sub,
    Xor,
    Mult,
    LShiftRight,
    AShiftLeft,
    AShiftRight,
}

#[derive(Clone, Copy)]
pub enum DivOp {
    Div,
    Mod,
}

// What is left of a word after `a` single steps of a shift: nothing from 32 on.
fn shift_right(b: u32, a: u32) -> u32
    ensures { result ≡ b / shift_factor a }
{
    b.checked_shr(a).unwrap_or(0)
}

fn shift_left(b: u32, a: u32) -> u32
    ensures { result ≡ wrap (b * shift_factor a) }
{
    b.checked_shl(a).unwrap_or(0)
}

// From 31 steps on every bit is the filling bit.
#[tactic(auto, using(crate::proofs::Words::shifts))]
fn shift_signed(b: u32, a: u32) -> u32
    ensures { result ≡ word_of (shr_z (signed b) (shift_factor a)) }
{
    (b.cast_signed() >> a.min(31)).cast_unsigned()
}

#[tactic(auto, using(crate::proofs::Words::flipped_is), unfolding(crate::specs::Operations::unary_of))]
pub fn unary(op: UnOp, a: u32) -> u32
    ensures { result ≡ unary_of op a }
{
    match op {
        UnOp::Not => !a,
        UnOp::Flip => a.reverse_bits(),
        UnOp::Neg => 0u32.wrapping_sub(a),
    }
}

#[tactic(auto, using(crate::proofs::Words::signed_is), unfolding(crate::specs::Operations::binary_of))]
pub fn binary(op: BinOp, a: u32, b: u32) -> u32
    ensures { result ≡ binary_of op a b }
{
    match op {
        BinOp::Add => a.wrapping_add(b),
        BinOp::And => a & b,
        BinOp::Or => a | b,
        BinOp::LessThan => u32::from(a.cast_signed() < b.cast_signed()),
        BinOp::LessThanOrEqual => u32::from(a.cast_signed() <= b.cast_signed()),
        BinOp::ULessThan => u32::from(a < b),
        BinOp::ULessThanOrEqual => u32::from(a <= b),
        BinOp::Eq => u32::from(a == b),
        BinOp::Neq => u32::from(a != b),
        BinOp::Sub => b.wrapping_sub(a),
        BinOp::Xor => a ^ b,
        BinOp::Mult => a.wrapping_mul(b),
        BinOp::LShiftRight => shift_right(b, a),
        BinOp::AShiftLeft => shift_left(b, a),
        BinOp::AShiftRight => shift_signed(b, a),
    }
}

#[tactic(auto, using(crate::proofs::Words::divisions), unfolding(crate::specs::Operations::division_of))]
pub fn division(op: DivOp, a: u32, b: u32) -> u32
    requires { 0 < a }
    ensures { result ≡ division_of op a b }
{
    let a = a.cast_signed();
    let b = b.cast_signed();
    match op {
        DivOp::Div => b.wrapping_div(a).cast_unsigned(),
        DivOp::Mod => b.wrapping_rem(a).cast_unsigned(),
    }
}
