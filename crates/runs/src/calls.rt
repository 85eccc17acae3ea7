// Calls of a queue of numbers, as values: a worked run is a list of them.

#[derive(Clone, Copy, PartialEq, Eq, Debug)]
pub enum QueueCall {
    Push(u32),
    PushWithOverflow(u32),
    Pop,
    Peek,
    Get(usize),
}
