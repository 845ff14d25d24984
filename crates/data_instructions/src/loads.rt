// LOAD, LOADH and LOADB: the address is replaced by what stands there.
ghost use Rattle.std.specs.Prelude.{◌≡◌, ◌<◌, length};
ghost use Rattle.memory.specs.Memory.{get_bytes};
ghost use Rattle.machine.specs.Table.{size, aligned};
ghost use Rattle.machine.specs.Instructions.{Instr.load};
ghost use Rattle.machine.specs.Machines.{Does};

use machine::{Machine, Outcome, Way, Width};
use memory::ByteAddr;

fn read(m: &Machine, w: Width, a: ByteAddr) -> u32
    requires { a.0 < length m.now.image.now }
    ensures { result ≡ get_bytes m.now.image.now (aligned w a.0) (size w) }
{
    match w {
        Width::Word => m.read(a.word()),
        Width::Half => memory::read_half(m.image, crate::even(a)),
        Width::Byte => memory::read_byte(m.image, a),
    }
}

pub fn load(m: &mut Machine, w: Width) -> Result<Way, Outcome>
    ensures { Does m.old (load w) result m.new }
{
    let top = m.word(0)?;
    let a = m.read(top);
    if m.image.len() <= a as usize {
        return Err(Outcome::Address);
    }
    let v = read(m, w, ByteAddr(a));
    m.write(top, v);
    Ok(Way::Next(top))
}
