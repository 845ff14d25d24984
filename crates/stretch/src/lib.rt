// The fast part of a run: as far as the common instructions lead.
#![tactic(auto)]

ghost use Rattle.std.specs.Prelude.{◌≡◌, ◌-◌, ◌^◌, ◌<◌, ◌≤◌};
ghost use Rattle.machine.specs.Machines.{With};
ghost use Rattle.stretch.specs.Reaching.{Stretches};

use machine::{Core, Machine, State, Way};

// The steps left where m stands and would come to its limit at `goal`. The state is made anew for speed (docs/CHANGING.md).
fn left_here(m: &mut Machine, goal: usize) -> u32
    requires { (m.old.state.pc.0 ≤ goal) × (goal - m.old.state.pc.0 < 2 ^ 32) }
    ensures left { result ≡ goal - m.old.state.pc.0 }
    ensures machine { With m.old m.old.image.now m.new }
{
    let s = m.state;
    m.state = State {
        pc: s.pc,
        sp: s.sp,
        flag: s.flag,
    };
    (goal - s.pc.0 as usize) as u32
}

// How many steps are left: from where m stands as far as the common instructions lead, to any other byte, to the last byte, to the
// limit, or to what stops or is refused. While the counter only moves on, the limit is met where it comes to `goal`, and `halt` is
// that or the last byte; only a jump makes them anew, so the ways are told apart here and not by `State::answer`.
pub fn stretch(core: Core, m: &mut Machine, left: u32) -> u32
    ensures { Stretches core left m.old result m.new }
{
    let mut goal = m.state.pc.0 as usize + left as usize;
    if m.image.len() <= m.state.pc.0 as usize + 1 {
        return left;
    }
    let last = m.image.len() - 1;
    let mut halt = goal.min(last);
    loop {
        let s = m.state;
        let pc = s.pc.0 as usize;
        let byte = m.image[pc];
        let class = classes::class_of(byte);
        match common_instructions::carry_out(core, class, m, byte, pc == halt) {
            Some(Ok(Way::Next(sp))) => m.state = s.next(sp),
            Some(Ok(Way::NextFlagged(sp))) => m.state = s.next_flagged(sp),
            Some(Ok(Way::Jump(to, sp))) => {
                let at = to.0 as usize;
                goal = at + (goal - pc - 1);
                m.state = s.jump(to, sp);
                if last <= at {
                    return left_here(m, goal);
                }
                halt = goal.min(last);
            }
            _ => return left_here(m, goal),
        }
    }
}
