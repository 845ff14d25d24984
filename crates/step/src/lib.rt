// One step: the byte at the program counter, and the instruction that it is.
#![tactic(auto)]

ghost use Rattle.std.specs.Prelude.{◌≡◌, ◌<◌, ◌≤◌};
ghost use Rattle.machine.specs.declared.Core.TheVariants.{Narrow};
ghost use Rattle.machine.specs.Table.{step_of};
ghost use Rattle.machine.specs.Instructions.{decode};
ghost use Rattle.machine.specs.Machines.{at, Carries, Does};
ghost use Rattle.step.specs.Dispatched.{dispatched};

use machine::{Answer, Core, Machine, Outcome, Way};

// `dispatch` tells the bytes below this. From it on they are EMULATE, STORESP, LOADSP and IM.
fn dispatched(core: Core) -> u8
    ensures { result ≡ dispatched core }
{
    match core {
        Core::Narrow => 32,
        Core::Wide => 64,
    }
}

#[tactic(auto, unfolding(machine::specs::Instructions::decode, machine::specs::Instructions::below64))]
fn offset_or_emulate(m: &mut Machine, byte: u8) -> Result<Way, Outcome>
    requires { (32 ≤ byte) × (byte < 128) }
    ensures { Does m.old (decode Narrow byte) result m.new }
{
    if 96 <= byte {
        return stack_instructions::loadsp(m, machine::inverted(byte));
    }
    if 64 <= byte {
        return stack_instructions::storesp(m, machine::inverted(byte));
    }
    jump_instructions::emulate(m, byte % 32)
}

// The instruction that the byte is.
#[tactic(auto, unfolding(machine::specs::Instructions::decode))]
fn carry_out(core: Core, m: &mut Machine, byte: u8) -> Result<Way, Outcome>
    ensures { Does m.old (decode core byte) result m.new }
{
    if 128 <= byte {
        return stack_instructions::im(m, byte);
    }
    if byte < dispatched(core) {
        return dispatch::below_64(m, byte);
    }
    offset_or_emulate(m, byte)
}

#[tactic(auto, unfolding(machine::specs::Table::step_of))]
pub fn step(core: Core, m: &mut Machine) -> Answer
    ensures { Carries m.old (step_of core (at m.old)) result m.new }
{
    let s = m.state;
    let pc = s.pc.0 as usize;
    if m.image.len() <= pc {
        return Answer::Refused(s, Outcome::Fetch);
    }
    let byte = m.image[pc];
    s.answer(carry_out(core, m, byte))
}
