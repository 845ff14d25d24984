// What the machine is made of: its two cores, its state, the outcomes of a run, the way of an instruction and the answer of a step.
#![tactic(auto)]

mod machine;

ghost use Rattle.std.specs.Prelude.{◌≡◌, ◌+◌};
ghost use Rattle.arithmetic.specs.Words.{wrap};
ghost use Rattle.machine.specs.State.{next, next_flagged, jump};
ghost use Rattle.machine.specs.Instructions.{inverted};
ghost use Rattle.machine.specs.Inner.{answered};

pub use machine::Machine;
use memory::{ByteAddr, WordIndex};

#[derive(Clone, Copy)]
pub enum Core {
    Narrow,
    Wide,
}

// Document 01's one list. It is the error of an instruction too, which gives none of it but refusals.
#[derive(Clone, Copy)]
pub enum Outcome {
    Limit,
    Break,
    Image,
    Start,
    Fetch,
    Illegal,
    Stack,
    Address,
    Divide,
}

// How many bytes a load or a store moves: a case each of the definitions' rows, as the operations are.
#[derive(Clone, Copy)]
pub enum Width {
    Word,
    Half,
    Byte,
}

#[derive(Clone, Copy)]
pub struct State {
    pub pc: ByteAddr,
    pub sp: WordIndex,
    pub flag: bool,
}

impl State {
    // The address of the byte after the instruction.
    pub fn following(self) -> ByteAddr
        ensures { result ≡ record { 0 = wrap (self.pc.0 + 1) } }
    {
        ByteAddr(self.pc.0.wrapping_add(1))
    }

    pub fn next(self, sp: WordIndex) -> State
        ensures { result ≡ next self sp.0 }
    {
        State {
            pc: self.following(),
            sp,
            flag: false,
        }
    }

    // Not `next` with the flag handed in: at the calls the name says more than `true`.
    pub fn next_flagged(self, sp: WordIndex) -> State
        ensures { result ≡ next_flagged self sp.0 }
    {
        State {
            pc: self.following(),
            sp,
            flag: true,
        }
    }

    pub fn jump(self, pc: ByteAddr, sp: WordIndex) -> State
        ensures { result ≡ jump self pc.0 sp.0 }
    {
        State {
            pc,
            sp,
            flag: false,
        }
    }

    // What a step answers whose instruction goes by `way`, or is refused.
    pub fn answer(self, way: Result<Way, Outcome>) -> Answer
        ensures { result ≡ answered self way }
    {
        let broke = self.next(self.sp);
        match way {
            Ok(Way::Next(to)) => Answer::Done(self.next(to)),
            Ok(Way::NextFlagged(to)) => Answer::Done(self.next_flagged(to)),
            Ok(Way::Jump(pc, to)) => Answer::Done(self.jump(pc, to)),
            Ok(Way::Stop) => Answer::Broke(broke),
            Err(o) => Answer::Refused(self, o),
        }
    }
}

// How an instruction goes that is not refused: by which of the state's methods and with which stack pointer, or by BREAK.
#[derive(Clone, Copy)]
pub enum Way {
    Next(WordIndex),
    NextFlagged(WordIndex),
    Jump(ByteAddr, WordIndex),
    Stop,
}

// What a step answers: the next state, the state after a BREAK, or the state it refused to leave and why. Three cases, so no
// `Result`; document 01 has it taken apart at once.
#[derive(Clone, Copy)]
pub enum Answer {
    Done(State),
    Broke(State),
    Refused(State, Outcome),
}

// How a run ended, after how many steps and where.
#[derive(Clone, Copy)]
pub struct Finish {
    pub outcome: Outcome,
    pub steps: u32,
    pub state: State,
}

// The offset of STORESP and LOADSP in their byte: its low five bits with bit 4 inverted.
pub fn inverted(byte: u8) -> u8
    ensures { result ≡ inverted byte }
{
    (byte % 32 + 16) % 32
}
