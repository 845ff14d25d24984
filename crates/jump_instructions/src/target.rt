// Where a jump leads that A tells: to A itself, or from the instruction's own address so far on.
ghost use Rattle.std.specs.Prelude.{◌≡◌};
ghost use Rattle.jump_instructions.specs.Targets.{target_of};

use machine::State;
use memory::ByteAddr;

#[derive(Clone, Copy)]
pub enum Target {
    Absolute,
    Relative,
}

impl Target {
    // A branch backwards adds a large number and wraps.
    pub(crate) fn of(self, s: State, a: u32) -> ByteAddr
        ensures { result.0 ≡ target_of self s a }
    {
        match self {
            Target::Absolute => ByteAddr(a),
            Target::Relative => ByteAddr(s.pc.0.wrapping_add(a)),
        }
    }
}
