// CALL and CALLPCREL, and EMULATE.
ghost use Rattle.std.specs.Prelude.{◌<◌};
ghost use Rattle.machine.specs.Instructions.{Instr.EMULATE};
ghost use Rattle.machine.specs.Machines.{Does};
ghost use Rattle.jump_instructions.specs.Targets.{calling};

use crate::target::Target;
use machine::{Machine, Outcome, Way};
use memory::ByteAddr;

pub fn call(m: &mut Machine, target: Target) -> Result<Way, Outcome>
    ensures { Does m.old (calling target) result m.new }
{
    let top = m.word(0)?;
    let a = m.read(top);
    let s = m.state;
    m.write(top, s.following().0);
    Ok(Way::Jump(target.of(s, a), top))
}

// The vector of the k-th byte from 32 on.
pub fn emulate(m: &mut Machine, k: u8) -> Result<Way, Outcome>
    requires { k < 32 }
    ensures { Does m.old (EMULATE k) result m.new }
{
    let after = m.state.following();
    let sp = m.push(after.0)?;
    Ok(Way::Jump(ByteAddr(32 * u32::from(k)), sp))
}
