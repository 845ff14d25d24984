// What changes the top, what takes two words and leaves one, and DIV and MOD, which alone refuse a divisor.
ghost use Rattle.machine.specs.Instructions.{Instr.unary, Instr.binary, Instr.division};
ghost use Rattle.machine.specs.Machines.{Does};

use arithmetic::{BinOp, DivOp, UnOp};
use machine::{Machine, Outcome, Way};

pub fn unary(m: &mut Machine, op: UnOp) -> Result<Way, Outcome>
    ensures { Does m.old (unary op) result m.new }
{
    let top = m.word(0)?;
    let a = m.read(top);
    m.write(top, arithmetic::unary(op, a));
    Ok(Way::Next(top))
}

pub fn binary(m: &mut Machine, op: BinOp) -> Result<Way, Outcome>
    ensures { Does m.old (binary op) result m.new }
{
    let second = m.word(1)?;
    let top = m.state.sp;
    let a = m.read(top);
    let b = m.read(second);
    m.write(second, arithmetic::binary(op, a, b));
    Ok(Way::Next(second))
}

pub fn division(m: &mut Machine, op: DivOp) -> Result<Way, Outcome>
    ensures { Does m.old (division op) result m.new }
{
    let second = m.word(1)?;
    let top = m.state.sp;
    let a = m.read(top);
    if a == 0 {
        return Err(Outcome::Divide);
    }
    let b = m.read(second);
    m.write(second, arithmetic::division(op, a, b));
    Ok(Way::Next(second))
}
