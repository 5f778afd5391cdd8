// The program over a script: standard input, standard output, and the arguments.
ghost use Rattle.std.specs.Prelude.{IfOk};
ghost use Rattle.script.specs.Counts.{Answered};

use crate::running::run;
use crate::summary::Summary;
use anyhow::bail;
use std::env;
use std::io::{Read, Write};
use std::time::{Duration, Instant};

// What the arguments ask for.
#[derive(Clone, Copy, Default)]
struct Options {
    quiet: bool,
    time: bool,
}

fn read_arguments(rt: &HostRuntime) -> anyhow::Result<Options> {
    let mut options = Options::default();
    for argument in env::args(rt)?.skip(1) {
        match argument.as_str() {
            "--quiet" => options.quiet = true,
            "--time" => options.time = true,
            other => bail!("unknown argument {other}: the arguments are --quiet and --time"),
        }
    }
    Ok(options)
}

// Runs the script on standard input.
pub fn serve(rt: &HostRuntime) -> anyhow::Result<Summary>
    ensures { IfOk result (λ summary. Answered summary) }
{
    let options = read_arguments(rt)?;
    let mut script = Vec::new(rt.alloc());
    rt.stdin().read_to_end(&mut script)?;
    let start = Instant::now(rt)?;
    let report = run(rt.alloc(), script.as_slice(), options.quiet)?;
    let time = start.elapsed(rt)?;
    rt.stdout().write_all(report.output.as_slice())?;
    if options.time {
        tell_time(rt, report.summary, time)?;
    }
    Ok(report.summary)
}

// How long the whole script took, and how many calls that makes in a second.
fn tell_time(rt: &HostRuntime, summary: Summary, time: Duration) -> anyhow::Result<()> {
    let Summary {
        calls,
        accepted,
        ..
    } = summary;
    let millionths = time.as_micros();
    let seconds = millionths / 1_000_000;
    let part = millionths % 1_000_000;
    let rate = u128::from(calls) * 1_000_000 / millionths.max(1);
    eprintln!(rt;
        "{calls} calls, {accepted} accepted, {seconds}.{part:06} seconds, {rate} calls per second"
    )?;
    Ok(())
}
