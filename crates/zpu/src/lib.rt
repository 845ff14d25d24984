// The public face: a step and a run of either core, on any image, state and limit, and the number of an outcome.
#![tactic(auto)]

ghost use Rattle.std.specs.Prelude.{◌≡◌, ◌+◌, ◌^◌, ◌<◌};
ghost use Rattle.machine.specs.Outcomes.{number};
ghost use Rattle.machine.specs.Inner.{finish_of};
ghost use Rattle.machine.specs.Machines.{at};
ghost use Rattle.machine.specs.State.{place};
ghost use Rattle.machine.specs.Run.{run_from, handed_back, Runs};
ghost use Rattle.zpu.specs.Entry.{Enters};

use machine::{Answer, Core, Finish, Machine, Outcome, State};

// How a run ends by an answer, n steps before it.
fn ended_by(answer: Answer, n: u32) -> Finish
    requires { n + 1 < 2 ^ 32 }
    ensures { result ≡ finish_of answer n }
{
    match answer {
        Answer::Done(t) => Finish {
            outcome: Outcome::Limit,
            steps: n + 1,
            state: t,
        },
        Answer::Broke(t) => Finish {
            outcome: Outcome::Break,
            steps: n + 1,
            state: t,
        },
        Answer::Refused(t, o) => Finish {
            outcome: o,
            steps: n,
            state: t,
        },
    }
}

// The steps in order, counted, to the first stop: one by `step`, which takes any byte and alone can end a run before its limit, and
// then a stretch of the common instructions, in turns. The step comes first, so that a call with limit 1 is done with it alone.
// It is no `for`, since a stretch takes as many steps off as it has done.
fn run_from(core: Core, m: &mut Machine, limit: u32) -> Finish
    ensures end { handed_back result m.new.image.now ≡ run_from core limit 0 (at m.old) }
    ensures image { m.new.image.ghost_name ≡ m.old.image.ghost_name }
{
    let mut left = limit;
    while 0 < left {
        let answer = step::step(core, m);
        let Answer::Done(next) = answer else {
            return ended_by(answer, limit - left);
        };
        m.state = next;
        left -= 1;
        if 0 < left {
            left = stretch::stretch(core, m, left);
        }
    }
    Finish {
        outcome: Outcome::Limit,
        steps: limit,
        state: m.state,
    }
}

// IMAGE and START, which are tested once.
#[tactic(auto, unfolding(memory::specs::Memory::good_length))]
fn entry(image: &[u8], start: State) -> Result<(), Outcome>
    ensures { Enters image.now start result }
{
    if !memory::good_length(image.len()) {
        return Err(Outcome::Image);
    }
    if memory::words(image).0 < start.sp.0 {
        return Err(Outcome::Start);
    }
    Ok(())
}

pub fn run(core: Core, image: &mut [u8], start: State, limit: u32) -> Finish
    ensures { Runs core limit (place image.old start) result image.new }
{
    if let Err(outcome) = entry(image, start) {
        return Finish {
            outcome,
            steps: 0,
            state: start,
        };
    }
    let mut machine = Machine {
        image,
        state: start,
    };
    run_from(core, &mut machine, limit)
}

pub fn step(core: Core, image: &mut [u8], start: State) -> Finish
    ensures { Runs core 1 (place image.old start) result image.new }
{
    run(core, image, start, 1)
}

// The paper's number of an outcome. By this name and not by `From`, which would not say whose number it is.
pub fn number(outcome: Outcome) -> u32
    ensures { result ≡ number outcome }
{
    match outcome {
        Outcome::Limit => 0,
        Outcome::Break => 1,
        Outcome::Image => 2,
        Outcome::Start => 3,
        Outcome::Fetch => 4,
        Outcome::Illegal => 5,
        Outcome::Stack => 6,
        Outcome::Address => 7,
        Outcome::Divide => 8,
    }
}
