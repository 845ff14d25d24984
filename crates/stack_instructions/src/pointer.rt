// PUSHSP, PUSHPC, POPSP and PUSHSPADD.
ghost use Rattle.std.specs.Prelude.{◌≡◌, ◌+◌, ◌*◌, ◌≤◌};
ghost use Rattle.arithmetic.specs.Words.{wrap};
ghost use Rattle.machine.specs.Instructions.{Instr.PUSHSP, Instr.PUSHPC, Instr.POPSP, Instr.PUSHSPADD};
ghost use Rattle.machine.specs.Machines.{Does};

use machine::{Machine, Outcome, Way};
use memory::{ByteAddr, WordIndex};

pub fn pushsp(m: &mut Machine) -> Result<Way, Outcome>
    ensures { Does m.old PUSHSP result m.new }
{
    let sp = m.state.sp;
    Ok(Way::Next(m.push(sp.byte().0)?))
}

pub fn pushpc(m: &mut Machine) -> Result<Way, Outcome>
    ensures { Does m.old PUSHPC result m.new }
{
    let pc = m.state.pc;
    Ok(Way::Next(m.push(pc.0)?))
}

pub fn popsp(m: &Machine) -> Result<Way, Outcome>
    ensures { Does m.now POPSP result m.now }
{
    let top = m.word(0)?;
    let to = ByteAddr(m.read(top)).word();
    if memory::words(m.image).0 < to.0 {
        return Err(Outcome::Stack);
    }
    Ok(Way::Next(to))
}

// Four times the sum of a word index and a word.
fn four_times(w: WordIndex, a: u32) -> u32
    requires { w.0 ≤ 16384 }
    ensures { result ≡ wrap (4 * w.0 + 4 * a) }
{
    w.byte().0.wrapping_add(a.wrapping_mul(4))
}

pub fn pushspadd(m: &mut Machine) -> Result<Way, Outcome>
    ensures { Does m.old PUSHSPADD result m.new }
{
    let top = m.word(0)?;
    let a = m.read(top);
    m.write(top, four_times(top, a));
    Ok(Way::Next(top))
}
