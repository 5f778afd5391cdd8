// Runs the script on standard input, and ends with status 1 where a line of it was bad.
#![tactic(auto)]

use script::Summary;

fn main(rt: HostRuntime) -> anyhow::Result<Summary> {
    script::serve(&rt)
}
