// Prints the last 64 numbers that come on standard input, one a line.
#![tactic(auto)]

use recents::last_numbers;
use std::io::Read;

fn run(rt: &HostRuntime) -> anyhow::Result<()> {
    let mut text: Vec<u8> = Vec::new(rt.alloc());
    rt.stdin().read_to_end(&mut text)?;
    let printed = last_numbers(rt.alloc(), text.as_slice())?;
    rt.eprint(printed.err.as_str())?;
    rt.print(printed.out.as_str())?;
    Ok(())
}

fn main(rt: HostRuntime) -> anyhow::Result<()> {
    run(&rt)
}
