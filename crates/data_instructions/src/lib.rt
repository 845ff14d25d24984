// The families, whose members differ in an operation or a width: operations on the top words, loads and stores.
#![tactic(auto, unfolding(machine::specs::Table::effect_of, machine::specs::Table::row))]

ghost use Rattle.std.specs.Prelude.{◌≡◌};
ghost use Rattle.machine.specs.declared.Width.TheVariants.{Half};
ghost use Rattle.machine.specs.Table.{aligned};

mod loads;
mod operations;
mod stores;

pub use loads::load;
use memory::ByteAddr;
pub use operations::{binary, division, unary};
pub use stores::store;

// A half-word's address: the lowest bit is dropped.
fn even(a: ByteAddr) -> ByteAddr
    ensures { result.0 ≡ aligned Half a.0 }
{
    ByteAddr(2 * (a.0 / 2))
}
