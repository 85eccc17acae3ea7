// A kind of value of a caller's own, which has no byte form.

#[derive(Clone, Copy, PartialEq, Eq, Debug)]
pub struct Texture {
    pub page: u16,
    pub wide: bool,
}
