// POPPC and POPPCREL.
ghost use Rattle.machine.specs.Machines.{Does};
ghost use Rattle.jump_instructions.specs.Targets.{popping};

use crate::target::Target;
use machine::{Machine, Outcome, Way};
use memory::WordIndex;

pub fn poppc(m: &Machine, target: Target) -> Result<Way, Outcome>
    ensures { Does m.now (popping target) result m.now }
{
    let top = m.word(0)?;
    let a = m.read(top);
    Ok(Way::Jump(target.of(m.state, a), WordIndex(top.0 + 1)))
}
