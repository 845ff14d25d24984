// The instructions that set the counter: jumps, calls and branches.
#![tactic(auto, using(memory::proofs::Memory::none_written), unfolding(machine::specs::Table::effect_of, machine::specs::Table::row))]

mod branches;
mod calls;
mod jumps;
mod target;

pub use branches::{eqbranch, neqbranch};
pub use calls::{call, emulate};
pub use jumps::poppc;
pub use target::Target;
