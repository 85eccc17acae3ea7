// Prints what the image that comes on standard input is: a line for each of its records, or one refusal.
#![tactic(auto)]

use viewing::run;

fn main(rt: HostRuntime) -> anyhow::Result<()> {
    run(rt.alloc(), &mut rt.stdin(), &mut rt.stdout())?;
    Ok(())
}
