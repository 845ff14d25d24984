// A line: core, outcome, counter, sp and top, a blank between. Each part says how far it comes at most, by which the next has room.
ghost use Rattle.std.specs.Prelude.{◌≡◌, ◌∷◌, ◌+◌, ◌≤◌};
ghost use Rattle.machine.specs.Run.{handed_back};
ghost use Rattle.text.specs.Decimal.{decimal};
ghost use Rattle.text.specs.Text.{Puts, Room};
ghost use Rattle.report.specs.Lines.{name, blank, top, line, Inside, field_room, line_room};

use machine::{Core, Finish};
use memory::WordIndex;
use text::Text;

// Bytes, since `Text` is no `fmt::Write`, and so no `Display`.
fn name(core: Core) -> &'static [u8]
    ensures { result.now ≡ name core }
{
    match core {
        Core::Narrow => b"narrow",
        Core::Wide => b"wide",
    }
}

// A blank and a number.
#[tactic(auto, using(text::proofs::Decimals::of_word))]
fn field(text: &mut Text, n: u32)
    requires { Room field_room text.old }
    ensures puts { Puts (blank ∷ decimal n) text.old text.new }
    ensures upper_bound { text.new.at ≤ text.old.at + field_room }
{
    text.byte(b' ');
    text.number(n);
}

// A blank and the top, or `-` where there is none.
#[tactic(auto, unfolding(crate::specs::Lines::top))]
fn top(text: &mut Text, image: &[u8], sp: WordIndex)
    requires room { Room field_room text.old }
    requires inside { Inside image.now sp.0 }
    ensures puts { Puts (blank ∷ top image.now sp.0) text.old text.new }
    ensures upper_bound { text.new.at ≤ text.old.at + field_room }
{
    if sp.0 == memory::words(image).0 {
        return text.letters(b" -");
    }
    field(text, memory::read_word(image, sp));
}

pub(crate) fn line(text: &mut Text, core: Core, end: Finish, image: &[u8])
    requires room { Room line_room text.old }
    requires inside { Inside image.now end.state.sp.0 }
    ensures puts { Puts (line core (handed_back end image.now)) text.old text.new }
    ensures upper_bound { text.new.at ≤ text.old.at + line_room }
{
    text.letters(name(core));
    field(text, zpu::number(end.outcome));
    field(text, end.state.pc.0);
    field(text, end.state.sp.0 as u32);
    top(text, image, end.state.sp);
    text.byte(b'\n');
}
