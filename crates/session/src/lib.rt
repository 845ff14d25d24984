// A session of a core: the page over an image, and a run from just above the page, the stack empty.
#![tactic(auto)]

ghost use Rattle.std.specs.Prelude.{◌≡◌, ◌/◌, ◌≤◌, true, length};
ghost use Rattle.machine.specs.Run.{handed_back};
ghost use Rattle.session.specs.Sessions.{takes, limit_of, session};

use machine::{Core, Finish, State};
use memory::ByteAddr;

// The page and one word.
const SHORTEST: usize = microcode::LENGTH + 4;

pub const LONGEST: usize = 16384;

const WIDE_LIMIT: u32 = 1000;

const NARROW_LIMIT: u32 = microcode::STEP_BOUND * WIDE_LIMIT;

const START: u32 = microcode::LENGTH as u32;

// Whether an image of so many bytes is taken. As `good_length` over other bounds: a function of the two bounds would be no shorter.
#[tactic(auto, unfolding(crate::specs::Sessions::takes))]
pub fn takes(length: usize) -> bool
    ensures { result ≡ takes length }
{
    (SHORTEST..=LONGEST).contains(&length) && length % 4 == 0
}

// The steps that a core may take.
pub fn limit_of(core: Core) -> u32
    ensures { result ≡ limit_of core }
{
    match core {
        Core::Narrow => NARROW_LIMIT,
        Core::Wide => WIDE_LIMIT,
    }
}

#[tactic(auto, using(crate::proofs::Sessions::within))]
pub fn session(core: Core, limit: u32, image: &mut [u8]) -> Finish
    requires { takes (length image.old) ≡ true }
    ensures ran { handed_back result image.new ≡ session core limit image.old }
    ensures inside { result.state.sp.0 ≤ length image.new / 4 }
{
    microcode::lay(image).unwrap();
    let start = State {
        pc: ByteAddr(START),
        sp: memory::words(image),
        flag: false,
    };
    zpu::run(core, image, start, limit)
}
