// Carries out the script that comes on standard input, and prints a line for each of its lines.
#![tactic(auto)]

use script::run;

fn main(rt: HostRuntime) -> anyhow::Result<()> {
    run(rt.alloc(), &mut rt.stdin(), &mut rt.stdout())?;
    Ok(())
}
