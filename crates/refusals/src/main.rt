// Runs the script on standard input: here, one that meets every refusal.
#![tactic(auto)]

use script::Summary;

fn main(rt: HostRuntime) -> anyhow::Result<Summary> {
    script::serve(&rt)
}
