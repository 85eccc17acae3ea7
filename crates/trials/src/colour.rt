// A kind with a code that no crate below knows, of a width that is no power of two.
ghost use Rattle.std.specs.Prelude.{[], ◌∷◌, slice_index};

use codes::Coded;

#[derive(Clone, Copy, PartialEq, Eq, Debug)]
pub struct Colour {
    pub red: u8,
    pub green: u8,
    pub blue: u8,
}

impl Coded for Colour {
    type Bytes = [u8; 3];

    ghost bytes = { λ x. x.red ∷ (x.green ∷ (x.blue ∷ [])) };

    ghost item = { λ string. record { red = slice_index string 0; green = slice_index string 1; blue = slice_index string 2 } };

    fn width() -> u8 {
        3
    }

    fn encode(self) -> [u8; 3] {
        [self.red, self.green, self.blue]
    }

    fn decode(string: [u8; 3]) -> Colour {
        let [red, green, blue] = string;
        Colour { red, green, blue }
    }
}
