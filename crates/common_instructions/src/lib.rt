// The instructions that programs are mostly made of, told by the class of a byte. What is none of them is left alone, and so is
// everything where the run is to pause. Each arm tests for that by itself, for speed (docs/CHANGING.md); a table of functions would
// be no plainer. The class and its byte, which agree, are two arguments: a struct of them would be made for these two functions alone.
#![tactic(auto)]

ghost use Rattle.std.specs.Prelude.{◌≡◌, false, ◌%◌};
ghost use Rattle.machine.specs.declared.Core.TheVariants.{Narrow};
ghost use Rattle.machine.specs.Instructions.{Instr.EMULATE, decode};
ghost use Rattle.classes.specs.Classes.{Agrees, meant};
ghost use Rattle.common_instructions.specs.Tried.{Tried};

use arithmetic::{BinOp, UnOp};
use classes::Class;
use jump_instructions::Target;
use machine::{Core, Machine, Outcome, Way, Width};

// A byte from 32 to 63. The class is matched anew: each arm that comes here is one class's, and keeps a jump of its own.
fn by_core(core: Core, class: Class, m: &mut Machine, byte: u8) -> Option<Result<Way, Outcome>>
    requires { Agrees class byte × (decode Narrow byte ≡ EMULATE (byte % 32)) }
    ensures { Tried m.old (meant core class byte) (decode core byte) false result m.new }
{
    match core {
        Core::Narrow => Some(jump_instructions::emulate(m, byte % 32)),
        Core::Wide => match class {
            Class::Sub => Some(data_instructions::binary(m, BinOp::Sub)),
            Class::Call => Some(jump_instructions::call(m, Target::Absolute)),
            Class::Neqbranch => Some(jump_instructions::neqbranch(m)),
            _ => None,
        },
    }
}

pub fn carry_out(
    core: Core,
    class: Class,
    m: &mut Machine,
    byte: u8,
    pause: bool,
) -> Option<Result<Way, Outcome>>
    requires { Agrees class byte }
    ensures { Tried m.old (meant core class byte) (decode core byte) pause result m.new }
{
    match class {
        Class::Im if !pause => Some(stack_instructions::im(m, byte)),
        Class::Loadsp if !pause => Some(stack_instructions::loadsp(m, machine::inverted(byte))),
        Class::Storesp if !pause => Some(stack_instructions::storesp(m, machine::inverted(byte))),
        Class::Addsp if !pause => Some(stack_instructions::addsp(m, byte % 16)),
        Class::Add if !pause => Some(data_instructions::binary(m, BinOp::Add)),
        Class::And if !pause => Some(data_instructions::binary(m, BinOp::And)),
        Class::Or if !pause => Some(data_instructions::binary(m, BinOp::Or)),
        Class::Not if !pause => Some(data_instructions::unary(m, UnOp::Not)),
        Class::Flip if !pause => Some(data_instructions::unary(m, UnOp::Flip)),
        Class::Load if !pause => Some(data_instructions::load(m, Width::Word)),
        Class::Store if !pause => Some(data_instructions::store(m, Width::Word)),
        Class::Poppc if !pause => Some(jump_instructions::poppc(m, Target::Absolute)),
        Class::Sub if !pause => by_core(core, class, m, byte),
        Class::Call if !pause => by_core(core, class, m, byte),
        Class::Neqbranch if !pause => by_core(core, class, m, byte),
        Class::Emulate if !pause => by_core(core, class, m, byte),
        _ => None,
    }
}
