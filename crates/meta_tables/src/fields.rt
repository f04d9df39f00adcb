//! Fields of a part of an image: a number, or the part and the place where its bytes are missing.
//! None of these takes memory.

ghost use Rattle.std.specs.Option.{option_copied};
ghost use Rattle.std.specs.Prelude.{◌≡◌, ◌==◌, position};
ghost use Rattle.bound_base.specs.Image.{part_place, refusal};
ghost use Rattle.byte_view.specs.Reading.{Reads, WantsMemory, field};
ghost use Rattle.byte_view.specs.Heaps.{text_at as text_of};

use bound_base::{BadImage, Part};
use byte_view::{le16, le32};

/// The refusal of a part at a file offset.
pub fn bad(part: Part, at: usize) -> BadImage
    ensures { refusal result ≡ Some (part_place part, at) }
{
    BadImage::Bad {
        part,
        at: at as u64,
    }
}

/// A number of two bytes.
pub fn field16(part: Part, image: &[u8], at: usize) -> Result<u16, BadImage>
    ensures reads { Reads refusal (λ x. x) result (field (part_place part) image.now at 2) }
    ensures memory { ¬ WantsMemory refusal result }
{
    le16(image, at).ok_or(bad(part, at))
}

/// A number of four bytes.
pub fn field32(part: Part, image: &[u8], at: usize) -> Result<u32, BadImage>
    ensures reads { Reads refusal (λ x. x) result (field (part_place part) image.now at 4) }
    ensures memory { ¬ WantsMemory refusal result }
{
    le32(image, at).ok_or(bad(part, at))
}

/// The place of the first zero.
fn zero_in(bytes: &[u8]) -> Option<usize>
    ensures { result ≡ position (λ byte. byte == 0) bytes.now }
{
    bytes.iter().position(|byte| *byte == 0)
}

/// The bytes at a place up to a zero; None where no zero follows.
#[tactic(auto, unfolding(byte_view::specs::Heaps::text_at))]
pub fn text_at(bytes: &[u8], at: usize) -> Option<&[u8]>
    ensures { option_copied result ≡ text_of bytes.now at }
{
    if at > bytes.len() {
        return None;
    }
    let rest = &bytes[at..];
    let length = zero_in(rest)?;
    Some(&rest[..length])
}
