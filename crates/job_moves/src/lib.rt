// A job over a lent file, a lent D table and lent lines: several blocks, each moved to the place that its line names, and the words exchanged; or it is
// refused, and file and table are left as they are.
#![tactic(auto)]

ghost use Rattle.std.specs.Prelude.{◌<◌, length, true, Err, ◌≡◌};
ghost use Rattle.ec20.specs.Basics.{pick};
ghost use Rattle.ec20.specs.Devices.{ec20};
ghost use Rattle.job_moves.specs.Ready.{Ready, Movable, EachGranted, meetings_in, judged_by};
ghost use Rattle.jobs.specs.Job.{met_by, right_table, refused, job, job_if, job_of};
ghost use Rattle.jobs.specs.Tasks.{move_by, tasks_meet, moved_by, exchanged_by, task_of, tasks_of};

use ec20::{Frame, Refusal};
use jobs::JobRefusal;

// Block or place of the one line and block or place of the other have a word in common.
fn tasks_meet(a: [u32; 3], b: [u32; 3]) -> bool
    ensures { result ≡ tasks_meet (task_of a) (task_of b) }
{
    let s = a[0] as usize;
    let n = a[1] as usize;
    let p = a[2] as usize;
    let t = b[0] as usize;
    let m = b[1] as usize;
    let q = b[2] as usize;
    blocks::meets(s, n, t, m)
        | blocks::meets(s, n, q, m)
        | blocks::meets(p, n, t, m)
        | blocks::meets(p, n, q, m)
}

// The first line ahead of line i that it meets.
fn met_by(lines: &[[u32; 3]], i: usize) -> Option<usize>
    requires { i < length lines.now }
    ensures { result ≡ met_by (tasks_of lines.now) i }
{
    for j in 0..i {
        if tasks_meet(lines[j], lines[i]) {
            return Some(j);
        }
    }
    None
}

// 14 where a line meets one ahead of it; else the job is done, in so many moves.
fn meetings(lines: &[[u32; 3]]) -> Result<usize, JobRefusal>
    ensures { result ≡ meetings_in lines.now }
{
    for i in 0..lines.len() {
        if let Some(j) = met_by(lines, i) {
            return Err(JobRefusal {
                number: 14,
                at: 0,
                line: i,
                other: j,
            });
        }
    }
    Ok(lines.len())
}

// What the move by a line answers, of a file that the check accepts.
fn answered(f: &[u8], first: usize, count: usize, l: [u32; 3]) -> Result<usize, Refusal>
    requires { Ready f.now first count }
    ensures { result ≡ (move_by ec20 f.now (task_of l)).answer }
{
    let start = l[0] as usize;
    let n = l[1] as usize;
    let place = l[2] as usize;
    mover::judge(f, first, count, start, n, place, place + n)?;
    let Some(q) = places::place(f, first, count, start, n, place, place + n) else {
        return Err(Refusal { number: 14, at: 0 });
    };
    Ok(q)
}

// Line by line what the move by it refuses, and then 14 where two lines meet.
fn by_tasks(f: &[u8], first: usize, count: usize, lines: &[[u32; 3]]) -> Result<usize, JobRefusal>
    requires { Ready f.now first count }
    ensures { result ≡ judged_by f.now lines.now }
{
    for line in 0..lines.len() {
        if let Err(r) = answered(f, first, count, lines[line]) {
            return Err(JobRefusal {
                number: r.number,
                at: r.at,
                line,
                other: line,
            });
        }
    }
    meetings(lines)
}

// The file with the block of each line moved to its place, one after the other.
fn move_tasks(file: &mut [u8], first: usize, count: usize, lines: &[[u32; 3]])
    requires { Movable file.old first count × EachGranted lines.now }
    ensures { file.new ≡ moved_by (tasks_of lines.now) file.old }
{
    for k in 0..lines.len() {
        let l = lines[k];
        let start = l[0] as usize;
        let n = l[1] as usize;
        let place = l[2] as usize;
        rewrite::move_numbers(file, first, count, start, n, place);
    }
}

// The D table with the block of each line and its place exchanged, one after the other: each exchange is granted. A table of no words stays so.
fn exchange_tasks(d: &mut [i16], lines: &[[u32; 3]])
    requires { (right_table ec20 d.old ≡ true) × EachGranted lines.now }
    ensures { d.new ≡ exchanged_by (tasks_of lines.now) d.old }
{
    for at in 0..lines.len() {
        let l = lines[at];
        let _ = exchange::exchange(d, l[0], l[1], l[2]);
    }
}

// A refusal that is told at no line.
fn at_no_line(r: Refusal) -> JobRefusal
    ensures { Err result ≡ refused r.number r.at }
{
    JobRefusal {
        number: r.number,
        at: r.at,
        line: 0,
        other: 0,
    }
}

// The job over an accepted file, whose records begin at the byte `first`: 9, and then the rest.
fn job_accepted(
    file: &mut [u8],
    first: usize,
    count: usize,
    d: &mut [i16],
    lines: &[[u32; 3]],
) -> Result<usize, JobRefusal>
    requires { Ready file.old first count }
    ensures { job result file.new d.new ≡ job_if (pick (right_table ec20 d.old) (judged_by file.old lines.now) (refused 9 0)) file.old d.old (tasks_of lines.now) }
{
    if !((d.len() == 8000) | (d.len() == 0)) {
        return Err(at_no_line(Refusal { number: 9, at: 0 }));
    }
    let moves = by_tasks(file, first, count, lines)?;
    move_tasks(file, first, count, lines);
    exchange_tasks(d, lines);
    Ok(moves)
}

// A job, for every file, table and list of lines: each block moved to its place, in the file and, where a table is lent, in its words; or it is refused, and
// both are left as they are. A line is START, LENGTH and PLACE.
pub fn job(file: &mut [u8], d: &mut [i16], lines: &[[u32; 3]]) -> Result<usize, JobRefusal>
    ensures { job result file.new d.new ≡ job_of file.old d.old (tasks_of lines.now) }
{
    if 64 < lines.len() {
        return Err(at_no_line(Refusal { number: 16, at: 0 }));
    }
    match checker::accept(file) {
        Ok(Frame { first, count }) => job_accepted(file, first, count, d, lines),
        Err(r) => Err(at_no_line(r)),
    }
}
