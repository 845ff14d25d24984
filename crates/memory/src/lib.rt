// The machine's memory: a lent byte image, read and written at a byte address or a word index.
#![tactic(auto)]

ghost use Rattle.std.specs.Prelude.{◌≡◌, ◌+◌, ◌*◌, ◌/◌, ◌^◌, ◌<◌, ◌≤◌, length};
ghost use Rattle.memory.specs.Memory.{good_length, get_bytes, set_bytes, word};

// The address of a byte: what the program counter is, and what LOAD and STORE take. Its conversions have names: document 01 has
// one each way, and `From` would not say that it drops the two low bits. Indexes of a slice are made of 32 bits, and 32 bits of an
// index that fits, by `as`: there is no `From` for either, and the check shows that they fit.
#[derive(Clone, Copy)]
pub struct ByteAddr(pub u32);

// The index of a word: what the stack pointer is.
#[derive(Clone, Copy)]
pub struct WordIndex(pub usize);

impl ByteAddr {
    // The word that holds the byte.
    pub fn word(self) -> WordIndex
        ensures { result.0 ≡ self.0 / 4 }
    {
        WordIndex((self.0 / 4) as usize)
    }
}

impl WordIndex {
    // Where in the image the word starts. By way of `byte` it would pass through 32 bits, an instruction more at each word.
    fn place(self) -> usize
        requires { 4 * self.0 < 2 ^ 64 }
        ensures { result ≡ 4 * self.0 }
    {
        4 * self.0
    }

    // The word's first byte.
    pub fn byte(self) -> ByteAddr
        requires { self.0 ≤ 16384 }
        ensures { result.0 ≡ 4 * self.0 }
    {
        ByteAddr(self.place() as u32)
    }
}

#[tactic(auto, unfolding(crate::specs::Memory::good_length))]
pub fn good_length(l: usize) -> bool
    ensures { result ≡ good_length l }
{
    (1..=65536).contains(&l) && l % 4 == 0
}

// W, the words of an image: the index just past them, which is sp where the stack is empty.
pub fn words(image: &[u8]) -> WordIndex
    requires { length image.now ≤ 65536 }
    ensures { result.0 ≡ length image.now / 4 }
{
    ByteAddr(image.len() as u32).word()
}

// Reads and writes, in each width a line or two over the library's words for it: a trait over the three would be longer. That the
// place is there each asks for: a type of such places could not name the image.
#[tactic(auto, unfolding(crate::specs::Memory::get_bytes))]
pub fn read_byte(image: &[u8], a: ByteAddr) -> u32
    requires { a.0 < length image.now }
    ensures { result ≡ get_bytes image.now a.0 1 }
{
    u32::from(image[a.0 as usize])
}

#[tactic(auto, unfolding(crate::specs::Memory::get_bytes))]
pub fn read_half(image: &[u8], a: ByteAddr) -> u32
    requires { a.0 + 1 < length image.now }
    ensures { result ≡ get_bytes image.now a.0 2 }
{
    let at = a.0 as usize;
    u32::from(u16::from_be_bytes([image[at], image[at + 1]]))
}

#[tactic(auto, unfolding(crate::specs::Memory::get_bytes))]
pub fn read_word(image: &[u8], w: WordIndex) -> u32
    requires { w.0 < length image.now / 4 }
    ensures { result ≡ word image.now w.0 }
{
    let at = w.place();
    u32::from_be_bytes([image[at], image[at + 1], image[at + 2], image[at + 3]])
}

#[tactic(auto, unfolding(crate::specs::Memory::set_bytes))]
pub fn write_byte(image: &mut [u8], a: ByteAddr, v: u32)
    requires { a.0 < length image.old }
    ensures { image.new ≡ set_bytes image.old a.0 1 v }
{
    image[a.0 as usize] = (v % 256) as u8;
}

#[tactic(auto, unfolding(crate::specs::Memory::set_bytes))]
pub fn write_half(image: &mut [u8], a: ByteAddr, v: u32)
    requires { a.0 + 1 < length image.old }
    ensures { image.new ≡ set_bytes image.old a.0 2 v }
{
    let at = a.0 as usize;
    image[at..at + 2].copy_from_slice(&((v % 65536) as u16).to_be_bytes());
}

#[tactic(auto, using(crate::proofs::Copies::stored), unfolding(crate::specs::Memory::set_bytes))]
pub fn write_word(image: &mut [u8], w: WordIndex, v: u32)
    requires { w.0 < length image.old / 4 }
    ensures { image.new ≡ set_bytes image.old (4 * w.0) 4 v }
{
    let at = w.place();
    image[at..at + 4].copy_from_slice(&v.to_be_bytes());
}
