// NEQBRANCH and EQBRANCH: not one function over the test, since an EQBRANCH that does not branch keeps both words.
ghost use Rattle.machine.specs.Instructions.{Instr.NEQBRANCH, Instr.EQBRANCH};
ghost use Rattle.machine.specs.Machines.{Does};

use crate::target::Target;
use machine::{Machine, Outcome, Way};
use memory::WordIndex;

pub fn neqbranch(m: &Machine) -> Result<Way, Outcome>
    ensures { Does m.now NEQBRANCH result m.now }
{
    let second = m.word(1)?;
    let a = m.read(m.state.sp);
    let b = m.read(second);
    if b == 0 {
        return Ok(Way::Next(WordIndex(second.0 + 1)));
    }
    Ok(Way::Jump(Target::Relative.of(m.state, a), WordIndex(second.0 + 1)))
}

pub fn eqbranch(m: &Machine) -> Result<Way, Outcome>
    ensures { Does m.now EQBRANCH result m.now }
{
    let second = m.word(1)?;
    let a = m.read(m.state.sp);
    let b = m.read(second);
    if b == 0 {
        return Ok(Way::Jump(Target::Relative.of(m.state, a), WordIndex(second.0 + 1)));
    }
    Ok(Way::Next(m.state.sp))
}
