// Which instruction a byte below 64 is on the wide core. Below 32 it is the same on the narrow one. A table of functions would be
// no plainer than these matches, of which the compiler makes one jump.
#![tactic(auto)]

ghost use Rattle.std.specs.Prelude.{◌≡◌, false, cond, ◌/◌, ◌%◌, ◌<◌, eqb};
ghost use Rattle.machine.specs.declared.Core.TheVariants.{Wide};
ghost use Rattle.machine.specs.Instructions.{Instr.ADDSP, Instr.ILLEGAL, decode, among};
ghost use Rattle.machine.specs.Machines.{Does};
ghost use Rattle.dispatch.specs.Families.{families};

use arithmetic::{BinOp, DivOp, UnOp};
use jump_instructions::Target;
use machine::{Machine, Outcome, Way, Width};

// ADDSP is bytes 16 to 31.
#[tactic(auto, unfolding(machine::specs::Table::effect_of, machine::specs::Table::row))]
fn addsp_or_illegal(m: &mut Machine, byte: u8) -> Result<Way, Outcome>
    ensures { Does m.old (cond (eqb (byte / 16) 1) (ADDSP (byte % 16)) ILLEGAL) result m.new }
{
    if byte / 16 == 1 {
        return stack_instructions::addsp(m, byte % 16);
    }
    Err(Outcome::Illegal)
}

// The other instructions: the byte is none of `families`.
#[tactic(auto, using(memory::proofs::Memory::none_written), unfolding(machine::specs::Instructions::decode, machine::specs::Instructions::below32, machine::specs::Instructions::below64, machine::specs::Table::effect_of, machine::specs::Table::row))]
fn others(m: &mut Machine, byte: u8) -> Result<Way, Outcome>
    requires below_64 { byte < 64 }
    requires no_family { among byte families ≡ false }
    ensures { Does m.old (decode Wide byte) result m.new }
{
    match byte {
        0 => Ok(Way::Stop),
        2 => stack_instructions::pushsp(m),
        4 => jump_instructions::poppc(m, Target::Absolute),
        11 => Ok(Way::Next(m.state.sp)),
        13 => stack_instructions::popsp(m),
        45 => jump_instructions::call(m, Target::Absolute),
        55 => jump_instructions::eqbranch(m),
        56 => jump_instructions::neqbranch(m),
        57 => jump_instructions::poppc(m, Target::Relative),
        59 => stack_instructions::pushpc(m),
        61 => stack_instructions::pushspadd(m),
        63 => jump_instructions::call(m, Target::Relative),
        _ => addsp_or_illegal(m, byte),
    }
}

// The families, and the other instructions.
#[tactic(auto, unfolding(machine::specs::Instructions::decode, machine::specs::Instructions::below32, machine::specs::Instructions::below64))]
pub fn below_64(m: &mut Machine, byte: u8) -> Result<Way, Outcome>
    requires { byte < 64 }
    ensures { Does m.old (decode Wide byte) result m.new }
{
    match byte {
        5 => data_instructions::binary(m, BinOp::Add),
        6 => data_instructions::binary(m, BinOp::And),
        7 => data_instructions::binary(m, BinOp::Or),
        8 => data_instructions::load(m, Width::Word),
        9 => data_instructions::unary(m, UnOp::Not),
        10 => data_instructions::unary(m, UnOp::Flip),
        12 => data_instructions::store(m, Width::Word),
        34 => data_instructions::load(m, Width::Half),
        35 => data_instructions::store(m, Width::Half),
        36 => data_instructions::binary(m, BinOp::LessThan),
        37 => data_instructions::binary(m, BinOp::LessThanOrEqual),
        38 => data_instructions::binary(m, BinOp::ULessThan),
        39 => data_instructions::binary(m, BinOp::ULessThanOrEqual),
        41 => data_instructions::binary(m, BinOp::Mult),
        42 => data_instructions::binary(m, BinOp::LShiftRight),
        43 => data_instructions::binary(m, BinOp::AShiftLeft),
        44 => data_instructions::binary(m, BinOp::AShiftRight),
        46 => data_instructions::binary(m, BinOp::Eq),
        47 => data_instructions::binary(m, BinOp::Neq),
        48 => data_instructions::unary(m, UnOp::Neg),
        49 => data_instructions::binary(m, BinOp::Sub),
        50 => data_instructions::binary(m, BinOp::Xor),
        51 => data_instructions::load(m, Width::Byte),
        52 => data_instructions::store(m, Width::Byte),
        53 => data_instructions::division(m, DivOp::Div),
        54 => data_instructions::division(m, DivOp::Mod),
        _ => others(m, byte),
    }
}
