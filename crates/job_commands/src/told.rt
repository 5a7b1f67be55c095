// What comes of a job, in words: a line to `out`, and what a refusal means to `err`.
use calls::output::{Descriptor, Outputs};
use calls::results::{Outcome, Status};
use calls::{results, text};
use ec20::Refusal;
use jobs::JobRefusal;
use std::fmt;
use std::fmt::Write;
use telling::report;
use telling::spans::Run;

// A block of so many words from a word on.
fn run(first: u32, length: u32) -> Run {
    Run {
        first: first as usize,
        length: length as usize,
    }
}

// 15, at a line.
pub fn misspelt(path: &[u8], refusal: Refusal, to: Outputs) -> Outcome {
    let line = refusal.at;
    report::refused_by(
        path,
        refusal,
        format_args!(
            "15 at line {line}, counted from 0: not START, LENGTH and PLACE (0 to 4294967295, no zero ahead) with one blank between, or not ended"
        ),
        to,
    )
}

// 16: over 64 lines.
pub fn too_long(path: &[u8], to: Outputs) -> Outcome {
    let refusal = Refusal { number: 16, at: 0 };
    report::refused_by(path, refusal, "16: the job has over 64 lines", to)
}

// Which line of the job a move was refused at: its block and its place, D100-D109 to D300-D309, or D100 to D300; an empty block has no last word.
fn say_line(mut err: Descriptor, line: [u32; 3], i: usize) -> fmt::Result {
    let [start, length, place] = line;
    write!(err, "line {i} of the job: ")?;
    if length == 0 {
        return writeln!(err, "0 words from D{start} on to D{place}");
    }
    writeln!(err, "{} to {}", run(start, length), run(place, length))
}

// 1 to 8 as move tells them; 10 to 14 too, with the line.
fn refused_move(
    path: &[u8],
    file: &[u8],
    lines: &[[u32; 3]],
    r: JobRefusal,
    to: Outputs,
) -> Outcome {
    let refusal = Refusal {
        number: r.number,
        at: r.at,
    };
    let outcome = report::refused(path, file, refusal, to);
    if r.number > 9 {
        if let Some(line) = lines.get(r.line) {
            let _ = say_line(to.err, *line, r.line);
        }
    }
    outcome
}

// 9 as exchange tells it, of a memory file of so many bytes; 14 where two lines meet, of which `other` is the earlier.
pub fn refused(
    call: &[u8],
    file: &[u8],
    size: usize,
    lines: &[[u32; 3]],
    r: JobRefusal,
    to: Outputs,
) -> Outcome {
    let JobRefusal { line, other, .. } = r;
    if r.number == 9 {
        let refusal = Refusal {
            number: 9,
            at: r.at,
        };
        let outcome = report::refused_memory(text::word(call, 3), refusal, to);
        report::of_before(9, size, to.err);
        return outcome;
    }
    if line != other {
        return report::refused_by(
            text::word(call, 2),
            Refusal { number: 14, at: 0 },
            format_args!(
                "14: lines {other} and {line} of the job meet: two of their blocks and places have a word in common"
            ),
            to,
        );
    }
    refused_move(text::word(call, 1), file, lines, r, to)
}

// A line for each move, and how many they are.
fn say_moves(mut out: Descriptor, lines: &[[u32; 3]], moves: usize) -> fmt::Result {
    for line in lines {
        let [start, length, place] = *line;
        writeln!(
            out,
            "moved {} to {}",
            run(start, length),
            run(place, length)
        )?;
    }
    writeln!(out, "moves {moves}")
}

// All files are replaced.
pub fn done(lines: &[[u32; 3]], moves: usize, to: Outputs) -> Outcome {
    let written = say_moves(to.out, lines, moves);
    results::answered(Status::Answered, true, written, to.err)
}

// The program file is replaced, and the memory file could not be.
pub fn half(mut err: Descriptor) -> Outcome {
    let _ = writeln!(
        err,
        "ninhalto: the program file is replaced and the memory file is not: its words are still to be exchanged"
    );
    Outcome {
        status: Status::NotTried,
        replaced: true,
    }
}
