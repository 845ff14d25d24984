// STORE, STOREH and STOREB: pop address, pop value, write.
ghost use Rattle.std.specs.Prelude.{◌<◌, length};
ghost use Rattle.machine.specs.Table.{size, aligned};
ghost use Rattle.machine.specs.Instructions.{Instr.store};
ghost use Rattle.machine.specs.Machines.{Does, Stores};

use machine::{Machine, Outcome, Way, Width};
use memory::{ByteAddr, WordIndex};

fn write(m: &mut Machine, w: Width, a: ByteAddr, v: u32)
    requires { a.0 < length m.old.image.now }
    ensures { Stores m.old (aligned w a.0) (size w) v m.new }
{
    match w {
        Width::Word => m.write(a.word(), v),
        Width::Half => memory::write_half(m.image, crate::even(a), v),
        Width::Byte => memory::write_byte(m.image, a, v),
    }
}

pub fn store(m: &mut Machine, w: Width) -> Result<Way, Outcome>
    ensures { Does m.old (store w) result m.new }
{
    let second = m.word(1)?;
    let popped = WordIndex(second.0 + 1);
    let top = m.state.sp;
    let a = m.read(top);
    if m.image.len() <= a as usize {
        return Err(Outcome::Address);
    }
    let b = m.read(second);
    write(m, w, ByteAddr(a), b);
    Ok(Way::Next(popped))
}
