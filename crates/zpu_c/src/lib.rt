// The public face under C's calling convention: include/zpu.h declares it.
#![tactic(auto)]

ghost use Rattle.std.specs.Prelude.{◌≡◌, ◌^◌, ◌<◌};
ghost use Rattle.machine.specs.State.{place};
ghost use Rattle.machine.specs.Run.{run};
ghost use Rattle.zpu_c.specs.Values.{core_of, state_of, Tells};
ghost use Rattle.microcode.specs.Laying.{Lays};

use machine::{Core, State};
use memory::{ByteAddr, WordIndex};
use microcode::TooShort;

#[repr(C)]
#[derive(Clone, Copy)]
pub struct CState {
    pub pc: u32,
    pub sp: u32,
    pub flag: u32,
}

#[repr(C)]
#[derive(Clone, Copy)]
pub struct CEnd {
    pub outcome: u32,
    pub steps: u32,
    pub state: CState,
}

// C has numbers for cores and outcomes and for what `lay` answers. Any number is a core's; a `From` of it would be between two types
// of other crates.
fn core_of(n: u32) -> Core
    ensures { result ≡ core_of n }
{
    if n == 1 { Core::Wide } else { Core::Narrow }
}

impl From<CState> for State {
    ghost from_gives = { λ s r. (r ≡ state_of s) × (r.sp.0 < 2 ^ 32) };

    fn from(s: CState) -> State {
        State {
            pc: ByteAddr(s.pc),
            sp: WordIndex(s.sp as usize),
            flag: s.flag != 0,
        }
    }
}

// The end is put into C's form here and by no `From`: that its sp fits 32 bits is known of this run alone.
#[unsafe(no_mangle)]
pub extern "C" fn zpu_run(image: &mut [u8], start: CState, core: u32, limit: u32) -> CEnd
    ensures { Tells result image.new (run (core_of core) limit (place image.old (state_of start))) }
{
    let end = zpu::run(core_of(core), image, State::from(start), limit);
    CEnd {
        outcome: zpu::number(end.outcome),
        steps: end.steps,
        state: CState {
            pc: end.state.pc.0,
            sp: end.state.sp.0 as u32,
            flag: u32::from(end.state.flag),
        },
    }
}

#[unsafe(no_mangle)]
pub extern "C" fn zpu_step(image: &mut [u8], start: CState, core: u32) -> CEnd
    ensures { Tells result image.new (run (core_of core) 1 (place image.old (state_of start))) }
{
    zpu_run(image, start, core, 1)
}

#[unsafe(no_mangle)]
pub extern "C" fn zpu_page(image: &mut [u8]) -> u32
    ensures { Lays image.old result image.new }
{
    match microcode::lay(image) {
        Ok(()) => 0,
        Err(TooShort) => 2,
    }
}
