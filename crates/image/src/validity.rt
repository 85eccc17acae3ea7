// Which bytes are an image.
ghost use Rattle.std.specs.Prelude.{◌≡◌, ℕ, ◌<◌, List, ◌++◌, length, IfOk, IfErr};
ghost use Rattle.refusal.specs.declared.Refusal.TheVariants.{ImageBroken};
ghost use Rattle.image.specs.Format.{Entry, Image, Breaks, Reading, Reads};

use crate::header::Header;
use crate::walk::Records;
use refusal::Refusal;

// The most bytes that an image has: a header, 65,535 value records of the greatest width, and the end.
pub const MOST_BYTES: usize = 8 + 65535 * (4 + 255) + 2;

// The header of an image; or the offset at which the bytes break a rule of the form.
pub fn validate(image: &[u8]) -> Result<Header, Refusal>
    ensures accepted { IfOk result (λ h. (es : List Entry) × Image image.now h.width h.capacity es × (h.held ≡ length es)) }
    ensures broken { IfErr result (λ e. (n : ℕ) × (e ≡ ImageBroken n) × Breaks image.now n) }
    ensures refused { IfErr result (λ e. (w C : ℕ) (es : List Entry) → Image image.now w C es → ⊥) }

    // Bytes have one reading. It is the same whatever follows, where they are more than an image has.
    ensures one { (r s : Reading) → Reads image.now r → Reads image.now s → r ≡ s }
    ensures longer { (r : Reading) (more : List ℕ) → MOST_BYTES < length image.now → Reads image.now r → Reads (image.now ++ more) r }
{
    let mut records = Records::new(image);
    while records.next().is_some() {}
    let offset = image.len() - records.left().len();
    records
        .header_at_end()
        .ok_or(Refusal::ImageBroken(offset as u64))
}
