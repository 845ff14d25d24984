// The microcode page, and its laying over an image.
#![tactic(auto)]

mod page;

ghost use Rattle.microcode.specs.Laying.{number, Lays};

pub use page::LENGTH;
use page::PAGE;

// The narrow steps for a wide one, at most.
pub const STEP_BOUND: u32 = 200;

// The image is shorter than the page.
#[derive(Clone, Copy)]
pub struct TooShort;

pub fn lay(image: &mut [u8]) -> Result<(), TooShort>
    ensures { Lays image.old (number result) image.new }
{
    if image.len() < LENGTH {
        return Err(TooShort);
    }
    image[..LENGTH].copy_from_slice(&PAGE);
    Ok(())
}
