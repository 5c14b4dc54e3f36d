// Carries out each script of the list, and compares what it prints, and its fault, with what is expected.
#![tactic(auto)]

use script::perform;
use std::alloc::Global;
use std::fmt::Write;
use std::{fmt, fs};

// What a script prints, with a last line for its fault.
fn printed(heap: Global, script: &str) -> Result<String, fmt::Error> {
    let transcript = perform(heap, script);
    let mut output = transcript.output;
    if let Some(fault) = transcript.fault {
        writeln!(output, "fault: {fault}")?;
    }
    Ok(output)
}

// The first line, from 1, in which two texts differ that are not the same.
fn first_difference(left: &str, right: &str) -> usize {
    let alike = left
        .lines()
        .zip(right.lines())
        .take_while(|(a, b)| a == b)
        .count();
    alike.saturating_add(1)
}

// Whether a script prints what is expected. Where it does not, the first line that differs is said.
fn is_as_expected(rt: &HostRuntime, stem: &str) -> anyhow::Result<bool> {
    let script = fs::read_to_string(rt, format!(in rt.alloc(); "{stem}.in")?)?;
    let expected = fs::read_to_string(rt, format!(in rt.alloc(); "{stem}.out")?)?;
    let output = printed(rt.alloc(), script.as_str())?;
    if output == expected {
        return Ok(true);
    }
    let line = first_difference(output.as_str(), expected.as_str());
    println!(rt; "{stem}: line {line} differs")?;
    Ok(false)
}

fn compare_all(rt: &HostRuntime) -> anyhow::Result<()> {
    let list = fs::read_to_string(rt, "list.txt")?;
    let cases = list.lines().count();
    let as_expected = list.lines().try_fold(0, |count: usize, stem| {
        is_as_expected(rt, stem).map(|same| count.saturating_add(usize::from(same)))
    })?;
    println!(rt; "{cases} cases, {as_expected} as expected")?;
    Ok(())
}

fn main(rt: HostRuntime) -> anyhow::Result<()> {
    compare_all(&rt)
}
