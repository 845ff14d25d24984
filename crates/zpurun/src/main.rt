// Reads an image on standard input, and prints how it ends on the wide and on the narrow core.
#![tactic(auto)]

ghost use Rattle.std.specs.Prelude.{◌≡◌, ◌<◌, ◌≤◌, length, take, IsTrue, IfSome, OnOk};
ghost use Rattle.std.specs.Io.KnownBytes.{Consumes, IsAtEnd};
ghost use Rattle.zpurun.specs.Printing.{most, IsFront, Prints};

use std::io;
use std::io::{Read, Write};

// One byte more than the longest image, so that a longer input is seen to be one.
const INPUT: usize = report::LONGEST + 1;

// Reads until the buffer is full, the input ends or a read fails: how many bytes it put at the start of the buffer. They are
// no image yet, so it is a number; and counted by the read, and not one by one, so this is no `for`.
fn read_full<R: Read>(input: &mut R, buffer: &mut [u8]) -> usize
    ensures in_bounds { result ≤ length buffer.new }
    ensures bytes { Consumes (R.remaining input.old) (R.remaining input.new) (take result buffer.new) }
{
    let mut done = 0;
    while done < buffer.len() {
        match input.read(&mut buffer[done..]) {
            Ok(0) | Err(_) => break,
            Ok(n) => done += n,
        }
    }
    done
}

// Whether the bytes read are the whole input, or more than an image has. `read_full` stops at a read that fails, as one of a
// non-blocking input may, just as at the end; but only at the end does one more read answer 0.
fn is_whole<R: Read>(input: &mut R, length: usize) -> bool
    ensures whole { IsTrue result → length < most → IsAtEnd (R.remaining input.old) }
    ensures no_more { length ≡ most → R.remaining input.new ≡ R.remaining input.old }
{
    let mut next = [0u8; 1];
    length == INPUT || matches!(input.read(&mut next), Ok(0))
}

// What is taken for the image: none where the input was not read whole.
fn image<'a, R: Read>(input: &mut R, buffer: &'a mut [u8; INPUT]) -> Option<&'a [u8]>
    ensures { IfSome result (λ image. IsFront (R.remaining input.old) image.now) }
{
    let length = read_full(input, buffer);
    is_whole(input, length).then_some(&buffer[..length])
}

fn run<R: Read, W: Write>(input: &mut R, output: &mut W) -> io::Result<()>
    ensures { OnOk result (Prints (R.remaining input.old) (W.contents output.old) (W.contents output.new)) }
{
    let mut buffer = [0u8; INPUT];
    let image = image(input, &mut buffer).unwrap_or(&[]);
    let mut out = [0u8; report::ROOM];
    let printed = report::report(image, &mut out);
    output.write_all(&out[..printed])
}

// It ends alike where nothing can be written: docs/DECISIONS.md has why.
fn main(rt: HostRuntime) {
    let _ = run(&mut rt.stdin(), &mut rt.stdout());
}
