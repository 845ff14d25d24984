// STORESP, LOADSP and ADDSP: word sp + n.
ghost use Rattle.machine.specs.Instructions.{Instr.STORESP, Instr.LOADSP, Instr.ADDSP};
ghost use Rattle.machine.specs.Machines.{Does};

use machine::{Machine, Outcome, Way};
use memory::WordIndex;

pub fn storesp(m: &mut Machine, n: u8) -> Result<Way, Outcome>
    ensures { Does m.old (STORESP n) result m.new }
{
    let at = m.word(n)?;
    let top = m.state.sp;
    let a = m.read(top);
    m.write(at, a);
    Ok(Way::Next(WordIndex(top.0 + 1)))
}

pub fn loadsp(m: &mut Machine, n: u8) -> Result<Way, Outcome>
    ensures { Does m.old (LOADSP n) result m.new }
{
    let from = m.word(n)?;
    let v = m.read(from);
    Ok(Way::Next(m.push(v)?))
}

pub fn addsp(m: &mut Machine, n: u8) -> Result<Way, Outcome>
    ensures { Does m.old (ADDSP n) result m.new }
{
    let at = m.word(n)?;
    let top = m.state.sp;
    let a = m.read(top);
    let b = m.read(at);
    m.write(top, a.wrapping_add(b));
    Ok(Way::Next(top))
}
