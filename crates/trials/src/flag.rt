// A kind of which many byte strings read as the same item.
ghost use Rattle.std.specs.Prelude.{not, [], ◌∷◌, if◌then◌else◌, ◌==◌, slice_index};

use codes::Coded;

#[derive(Clone, Copy, PartialEq, Eq, Debug)]
pub struct Flag {
    pub set: bool,
}

// 0 is false, and any other byte is true.
impl Coded for Flag {
    type Bytes = [u8; 1];

    ghost bytes = { λ x. (if x.set then 1 else 0) ∷ [] };

    ghost item = { λ string. record { set = not (slice_index string 0 == 0) } };

    fn width() -> u8 {
        1
    }

    fn encode(self) -> [u8; 1] {
        [u8::from(self.set)]
    }

    fn decode(string: [u8; 1]) -> Flag {
        Flag {
            set: string[0] != 0,
        }
    }
}
