// The instructions that move words of the stack or its pointer, each under its own name: memory is written in place, and the way
// is given by value.
#![tactic(auto, using(memory::proofs::Memory::none_written), unfolding(machine::specs::Table::effect_of, machine::specs::Table::row))]

mod immediate;
mod offsets;
mod pointer;

pub use immediate::im;
pub use offsets::{addsp, loadsp, storesp};
pub use pointer::{popsp, pushpc, pushsp, pushspadd};
