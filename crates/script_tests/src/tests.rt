// Scripts and the whole of what they are answered.
use script::{Report, run};
use std::alloc::Global;
use std::process::Abort;
use std::test::Fail;

// Whether a script writes just these bytes, and how many of its lines are bad.
fn writes(
    rt: &impl Abort,
    heap: Global,
    script: &[u8],
    quiet: bool,
    output: &[u8],
    bad: u64,
) -> Result<(), Fail> {
    let report: Report = run(heap, script, quiet)?;
    assert_eq!(rt; report.output.as_slice(), output);
    assert_eq!(rt; report.summary.bad, bad);
    assert_eq!(rt; report.summary.status().is_err(), bad > 0);
    Ok(())
}

#[test]
fn an_empty_script(rt: HostRuntime) -> Result<(), Fail> {
    writes(
        &rt,
        rt.alloc(),
        b"",
        false,
        b"# 0 calls, 0 accepted, 0 refused, 0 bad\n",
        0,
    )?;
    writes(
        &rt,
        rt.alloc(),
        b"\n",
        false,
        b"\n# 0 calls, 0 accepted, 0 refused, 0 bad\n",
        0,
    )
}

// A space in front, behind or doubled, or a byte 13, makes a line one of another form.
#[test]
fn lines_of_another_form(rt: HostRuntime) -> Result<(), Fail> {
    let script = b"stpe\n step\nstep \nstep\r\ndeposit  0 1\ndeposit 0 -1\ndeposit 0\n";
    let output =
        b"stpe : bad (expected: lend, rule, open, deposit, withdraw, list, halt, resume, step, requirement or show)
 step : bad (expected: lend, rule, open, deposit, withdraw, list, halt, resume, step, requirement or show)
step  : bad (expected: step)
step\r : bad (expected: lend, rule, open, deposit, withdraw, list, halt, resume, step, requirement or show)
deposit  0 1 : bad (expected: deposit MEMBER AMOUNT)
deposit 0 -1 : bad (expected: deposit MEMBER AMOUNT)
deposit 0 : bad (expected: deposit MEMBER AMOUNT)
# 0 calls, 0 accepted, 0 refused, 7 bad
";
    writes(&rt, rt.alloc(), script, false, output, 7)
}

// A number that does not fit its type is out of range, and is never cut down to one that fits; leading zeros count for nothing.
#[test]
fn numbers_too_large(rt: HostRuntime) -> Result<(), Fail> {
    let script =
        b"open 003 2025 1\ndeposit 300 1\ndeposit 0 99999999999999999999999\ndeposit 00 00000000000000000000000000007\nshow balances\n";
    let output = b"open 003 2025 1 : ok
deposit 300 1 : no 11 0 (there is no such member)
deposit 0 99999999999999999999999 : no 50 0 (the vault does not take this amount, or takes no more movements)
deposit 00 00000000000000000000000000007 : ok
show balances : ok 1
  balance 0 7
# 4 calls, 2 accepted, 2 refused, 0 bad
";
    writes(&rt, rt.alloc(), script, false, output, 0)
}

// Bytes that are no text are copied as they stand, and a last line needs no end.
#[test]
fn bytes_that_are_no_text(rt: HostRuntime) -> Result<(), Fail> {
    let script = b"#\xff\xfe\n\x80\xff 1\nstep";
    let output = b"#\xff\xfe
\x80\xff 1 : bad (expected: lend, rule, open, deposit, withdraw, list, halt, resume, step, requirement or show)
step : no 10 0 (the call is not taken in this phase)
# 1 calls, 0 accepted, 1 refused, 1 bad
";
    writes(&rt, rt.alloc(), script, false, output, 1)
}

#[test]
fn quiet_mode(rt: HostRuntime) -> Result<(), Fail> {
    let script =
        b"# a comment\n\nopen 1 2025 1\nstep 1\nshow phase\ncascade 3\nstep\nopen 1 2025 1\n";
    let output = b"step 1 : bad (expected: step)
cascade 3 : bad (not built yet)
# 3 calls, 2 accepted, 1 refused, 2 bad
";
    writes(&rt, rt.alloc(), script, true, output, 2)
}

// Only the first line that is neither empty nor a comment lends; a bad one leaves the tables as they are without it.
#[test]
fn lending(rt: HostRuntime) -> Result<(), Fail> {
    let late =
        b"# first\n\nlend 1 1 1 17 table\nlend 1 1 1 17 table\nopen 2 2025 1\nopen 1 2025 1\n";
    let told = b"# first

lend 1 1 1 17 table : ok
lend 1 1 1 17 table : bad (expected, as the first line: lend ORDERS LOTS TAPE RESULTS table, or lend ORDERS LOTS TAPE RESULTS journal ENTRIES, each length at most 70000)
open 2 2025 1 : no 3 0 (a lent table is too short or too long)
open 1 2025 1 : ok
# 2 calls, 1 accepted, 1 refused, 1 bad
";
    writes(&rt, rt.alloc(), late, false, told, 1)?;
    let long = b"lend 1 1 1 70001 table\nopen 64 2025 4\n";
    let output =
        b"lend 1 1 1 70001 table : bad (expected, as the first line: lend ORDERS LOTS TAPE RESULTS table, or lend ORDERS LOTS TAPE RESULTS journal ENTRIES, each length at most 70000)
open 64 2025 4 : ok
# 1 calls, 1 accepted, 0 refused, 1 bad
";
    writes(&rt, rt.alloc(), long, false, output, 1)
}

// A table of balances is never full; a journal is.
#[test]
fn both_vaults(rt: HostRuntime) -> Result<(), Fail> {
    let table =
        b"lend 256 8192 4096 70000 table\nopen 1 2025 1\ndeposit 0 1\ndeposit 0 2\nshow balances\n";
    let kept = b"lend 256 8192 4096 70000 table : ok
open 1 2025 1 : ok
deposit 0 1 : ok
deposit 0 2 : ok
show balances : ok 1
  balance 0 3
# 3 calls, 3 accepted, 0 refused, 0 bad
";
    writes(&rt, rt.alloc(), table, false, kept, 0)?;
    let journal =
        b"lend 256 8192 4096 17 journal 1\nopen 1 2025 1\ndeposit 0 1\ndeposit 0 2\nshow balances\n";
    let full = b"lend 256 8192 4096 17 journal 1 : ok
open 1 2025 1 : ok
deposit 0 1 : ok
deposit 0 2 : no 50 0 (the vault does not take this amount, or takes no more movements)
show balances : ok 1
  balance 0 1
# 3 calls, 2 accepted, 1 refused, 0 bad
";
    writes(&rt, rt.alloc(), journal, false, full, 0)
}
