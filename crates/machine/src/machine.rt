// A machine: an image and a state that it may be in. Words of the stack are found, read, written and pushed by its methods. The
// core is no part of it: both are run from one start.
ghost use Rattle.machine.specs.Inner.{Ready};

use crate::{Outcome, State};
use memory::WordIndex;

#[derive(Drop)]
pub struct Machine<'a> {
    pub image: &'a mut [u8],
    pub state: State,
    ghost ready: { Ready image.now state },
}

impl Machine<'_> {
    ghost use Rattle.std.specs.Prelude.{◌≡◌, ◌+◌, ◌/◌, ◌<◌, length};
    ghost use Rattle.memory.specs.Memory.{word};
    ghost use Rattle.machine.specs.Machines.{WordOrStack, Writes, Pushes};

    // Word sp + n, or STACK where the image has none.
    pub fn word(&self, n: u8) -> Result<WordIndex, Outcome>
        ensures { WordOrStack self.now (self.now.state.sp.0 + n) result }
    {
        let at = self.state.sp.0 + usize::from(n);
        if memory::words(self.image).0 <= at {
            return Err(Outcome::Stack);
        }
        Ok(WordIndex(at))
    }

    pub fn read(&self, w: WordIndex) -> u32
        requires { w.0 < length self.now.image.now / 4 }
        ensures { result ≡ word self.now.image.now w.0 }
    {
        memory::read_word(self.image, w)
    }

    pub fn write(&mut self, w: WordIndex, v: u32)
        requires { w.0 < length self.old.image.now / 4 }
        ensures { Writes self.old w.0 v self.new }
    {
        memory::write_word(self.image, w, v);
    }

    // Word sp - 1 becomes v: its index, or STACK where sp is 0.
    pub fn push(&mut self, v: u32) -> Result<WordIndex, Outcome>
        ensures { Pushes self.old v result self.new }
    {
        let top = WordIndex(self.state.sp.0.checked_sub(1).ok_or(Outcome::Stack)?);
        self.write(top, v);
        Ok(top)
    }
}
