// What is printed of a whole input.
ghost use Rattle.std.specs.Prelude.{◌≡◌, ◌++◌, IfOk, codes, string_bytes};
ghost use Rattle.refusal.specs.Told.{spelt};
ghost use Rattle.image.specs.Format.{Reading, Reads};
ghost use Rattle.viewing.specs.Viewed.{viewed};

use crate::lines::print_records;
use image::{Records, validate};
use refusal::Refusal;
use std::alloc::{AllocError, Global};

// The line of a refusal.
fn refusal_line(heap: Global, refusal: Refusal) -> Result<String, AllocError>
    ensures { IfOk result (λ out. string_bytes out ≡ spelt refusal ++ codes "\n") }
{
    format!(in heap; "{refusal}\n")
}

// What is printed of `input`: a line for each record of an image, or one refusal.
pub fn print_image(heap: Global, input: &[u8]) -> Result<String, AllocError>
    ensures { IfOk result (λ out. (r : Reading) × Reads input.now r × (string_bytes out ≡ viewed r)) }
{
    if let Err(refusal) = validate(input) {
        return refusal_line(heap, refusal);
    }
    let mut out = String::new(heap);
    print_records(&mut out, Records::new(input))?;
    Ok(out)
}
