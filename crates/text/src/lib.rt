// Text put into a lent buffer, one piece after another.
#![tactic(auto)]

ghost use Rattle.std.specs.Prelude.{◌≡◌, [], ◌∷◌, length};
ghost use Rattle.text.specs.Decimal.{decimal};
ghost use Rattle.text.specs.Text.{Puts, Room};

// The text so far is the first `at` bytes. It is no `fmt::Write`, each write of which may fail by its contract: these cannot.
// That there is room each asks for, since it depends on what is put.
#[derive(Drop)]
pub struct Text<'a> {
    out: &'a mut [u8],
    at: usize,
}

impl<'a> Text<'a> {
    pub fn new(out: &'a mut [u8]) -> Text<'a>
        ensures same_buffer { result.out.ghost_name ≡ out.entry.ghost_name }
        ensures bytes { result.out.now ≡ out.old }
        ensures empty { result.at ≡ 0 }
    {
        Text { out, at: 0 }
    }

    pub fn len(&self) -> usize
        ensures { result ≡ self.now.at }
    {
        self.at
    }

    // A word of the text, as it stands.
    #[tactic(auto, using(crate::proofs::Texts::copies))]
    pub fn letters(&mut self, word: &[u8])
        requires { Room (length word.now) self.old }
        ensures { Puts word.now self.old self.new }
    {
        let end = self.at + word.len();
        self.out[self.at..end].copy_from_slice(word);
        self.at = end;
    }

    pub fn byte(&mut self, b: u8)
        requires { Room 1 self.old }
        ensures { Puts (b ∷ []) self.old self.new }
    {
        self.letters(&[b]);
    }

    // A number in decimal: the digits but the last, and the last.
    #[tactic(auto, using(crate::proofs::Texts::decimals))]
    pub fn number(&mut self, n: u32)
        requires { Room (length (decimal n)) self.old }
        ensures { Puts (decimal n) self.old self.new }
    {
        if n >= 10 {
            self.number(n / 10);
        }
        self.byte(b'0' + (n % 10) as u8);
    }
}
