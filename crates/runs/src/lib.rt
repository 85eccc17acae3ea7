// Worked runs: one table of them, one theorem that derives them all, and the calls that
// perform them.
#![tactic(auto)]

mod calls;
mod making;
mod worked;

pub use calls::QueueCall;
pub use making::perform;
pub use worked::worked_runs;
