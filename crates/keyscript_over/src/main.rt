// The program `keyscript` once more, here run on a script that is one byte too long.
#![tactic(auto)]

use script::run;

fn main(rt: HostRuntime) -> anyhow::Result<()> {
    run(rt.alloc(), &mut rt.stdin(), &mut rt.stdout())?;
    Ok(())
}
