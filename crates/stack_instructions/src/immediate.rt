// IM: with the flag clear the seven bits are pushed, sign-extended; with it set they are joined to the top.
ghost use Rattle.std.specs.Prelude.{◌≡◌, ◌+◌, ◌*◌, ◌%◌, ◌<◌, true};
ghost use Rattle.arithmetic.specs.Words.{wrap};
ghost use Rattle.machine.specs.Table.{extended};
ghost use Rattle.machine.specs.Instructions.{Instr.IM};
ghost use Rattle.machine.specs.Machines.{Does};

use machine::{Machine, Outcome, Way};

// Seven bits sign-extended.
fn extended(v: u32) -> u32
    requires { v < 128 }
    ensures { result ≡ extended v }
{
    ((v + 64) % 128).wrapping_sub(64)
}

fn joined(a: u32, v: u32) -> u32
    ensures { result ≡ wrap (a * 128 + v) }
{
    a.wrapping_mul(128).wrapping_add(v)
}

fn continued(m: &mut Machine, v: u32) -> Result<Way, Outcome>
    requires { m.old.state.flag ≡ true }
    ensures { Does m.old (IM v) result m.new }
{
    let top = m.word(0)?;
    let a = m.read(top);
    m.write(top, joined(a, v));
    Ok(Way::NextFlagged(top))
}

pub fn im(m: &mut Machine, byte: u8) -> Result<Way, Outcome>
    ensures { Does m.old (IM (byte % 128)) result m.new }
{
    let v = u32::from(byte % 128);
    if m.state.flag {
        continued(m, v)
    } else {
        Ok(Way::NextFlagged(m.push(extended(v))?))
    }
}
