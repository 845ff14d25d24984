// What zpurun prints of an image.
#![tactic(auto)]

mod line;

ghost use Rattle.std.specs.Prelude.{◌≡◌, true, ◌+◌, ◌≤◌, length};
ghost use Rattle.text.specs.Text.{Puts, Room};
ghost use Rattle.session.specs.Sessions.{takes, limit_of, session};
ghost use Rattle.report.specs.Lines.{line, line_room};
ghost use Rattle.report.specs.Printed.{Reports};

use machine::Core;
pub use session::LONGEST;
use text::Text;

// What is printed takes no more bytes.
pub const ROOM: usize = 128;

// The line on a session of a core, on a copy of the input.
#[tactic(auto, using(crate::proofs::Space::fits))]
fn session_line(text: &mut Text, core: Core, input: &[u8])
    requires input_value { takes (length input.now) ≡ true }
    requires room { Room line_room text.old }
    ensures puts { Puts (line core (session core (limit_of core) input.now)) text.old text.new }
    ensures upper_bound { text.new.at ≤ text.old.at + line_room }
{
    let mut space = [0u8; LONGEST];
    let image = &mut space[..input.len()];
    image.copy_from_slice(input);
    let end = session::session(core, session::limit_of(core), image);
    line::line(text, core, end, image);
}

// The caller's buffer is fixed, for want of a heap, so the answer is how much of it was put.
pub fn report(input: &[u8], out: &mut [u8; ROOM]) -> usize
    ensures { Reports input.now out.old result out.new }
{
    let mut text = Text::new(out);
    if !session::takes(input.len()) {
        text.letters(b"input\n");
        return text.len();
    }
    session_line(&mut text, Core::Wide, input);
    session_line(&mut text, Core::Narrow, input);
    text.len()
}
