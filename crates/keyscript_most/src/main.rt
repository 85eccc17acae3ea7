// The program `keyscript` once more, here run on a script as long as may be.
#![tactic(auto)]

use script::run;

fn main(rt: HostRuntime) -> anyhow::Result<()> {
    run(rt.alloc(), &mut rt.stdin(), &mut rt.stdout())?;
    Ok(())
}
