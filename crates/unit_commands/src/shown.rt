// Clashes and splits, a line each.
use calls::output::Descriptor;
use std::fmt;
use std::fmt::Write;
use telling::names;
use telling::spans::Run;
use units::{Declaration, Table};

// A declaration of the table. A place in a report is below 64.
fn at(t: Table, i: usize) -> Declaration {
    t.at[i % 64]
}

// A declaration behind an opening quote: its name as it is, its words and its unit.
fn declared(mut to: Descriptor, a: Declaration) -> fmt::Result {
    let name = a.name;
    let run = Run {
        first: a.start as usize,
        length: a.length as usize,
    };
    to.put(&name)?;
    write!(to, "\" {run} of unit {}", a.unit)
}

// Which of the two kinds a clash is.
fn kind(a: Declaration, b: Declaration) -> &'static str {
    if clashes::same_name(a.name, b.name) {
        "one name, two blocks"
    } else {
        "two names, shared words"
    }
}

// The clash of two places.
fn clash(mut to: Descriptor, t: Table, pair: [u32; 2]) -> fmt::Result {
    let lower = pair[0] as usize;
    let higher = pair[1] as usize;
    let a = at(t, lower);
    let b = at(t, higher);
    write!(to, "clash {lower} {higher} \"")?;
    declared(to, a)?;
    write!(to, ", \"")?;
    declared(to, b)?;
    writeln!(to, ": {}", kind(a, b))
}

// The pairs of the report, and how many they are.
pub fn clash_lines(mut out: Descriptor, t: Table, report: &[[u32; 2]]) -> fmt::Result {
    for pair in report {
        clash(out, t, *pair)?;
    }
    writeln!(out, "clashes {}", report.len())
}

// The split of the declaration at place i, where the program has one.
fn split(mut to: Descriptor, i: usize, a: Declaration, file: &[u8]) -> fmt::Result {
    let Err(refusal) = unit_splits::split(file, a) else {
        return Ok(());
    };
    write!(to, "split {i} record {}", refusal.at)?;
    names::say_name(to, file, refusal.at)?;
    write!(to, ": partly in \"")?;
    declared(to, a)?;
    writeln!(to)
}

// A line for each declaration in whose block an operand of the program lies partly.
pub fn split_lines(out: Descriptor, list: &[Declaration], file: &[u8]) -> fmt::Result {
    for (i, a) in list.iter().enumerate() {
        split(out, i, *a, file)?;
    }
    Ok(())
}
