// A job as text, read whole: a line for each task. What is read is defined in the crate jobs, specs/Text.antt.
#![tactic(auto)]

ghost use Rattle.std.specs.Prelude.{◌≤◌, length, set, [], ◌∷◌, ◌≡◌};
ghost use Rattle.job_texts.specs.Held.{JobLineIn, held_of};
ghost use Rattle.jobs.specs.Text.{job_line_at, job_in};
ghost use Rattle.units.specs.Kept.{kept_in};

use ec20::Refusal;
use jobs::JobLine;

// What a job has: the first line that is misspelt, if any is (15), and how many lines stand ahead of it.
#[derive(Clone, Copy)]
pub struct Lines {
    pub fault: Result<(), Refusal>,
    pub count: usize,
}

// Room for the lines that a job may have. It tells its length alone, so that no proof writes the zeros out.
pub fn room() -> [[u32; 3]; 64]
    ensures { 64 ≡ length result }
{
    [[0; 3]; 64]
}

// The line that begins at a place: start, blank, length, blank, place, line feed.
fn job_line(s: &[u8], from: usize) -> Option<JobLine>
    ensures value { result ≡ job_line_at s.now from }
    ensures job_line_in { JobLineIn (length s.now) from result }
{
    let start = spelling::ended::part(s, from, 4294967295, b' ')?;
    let length = spelling::ended::part(s, start.next, 4294967295, b' ')?;
    let place = spelling::ended::part(s, length.next, 4294967295, b'\n')?;
    Some(JobLine {
        start: start.value,
        length: length.value,
        place: place.value,
        next: place.next,
    })
}

// A line is put at a place of the room, and left out past its end.
fn put(lines: &mut [[u32; 3]], i: usize, line: JobLine)
    requires { (line.start ≤ 4294967295) × (line.length ≤ 4294967295) × (line.place ≤ 4294967295) }
    ensures { lines.new ≡ set lines.old i (line.start ∷ line.length ∷ line.place ∷ []) }
{
    if i < lines.len() {
        lines[i] = [line.start as u32, line.length as u32, line.place as u32];
    }
}

// A whole job. The room gets the lines, as many as it has places; past it the count goes on.
pub fn read(s: &[u8], lines: &mut [[u32; 3]]) -> Lines
    ensures value { result ≡ held_of (job_in s.now) }
    ensures lines_after { lines.new ≡ kept_in lines.old (job_in s.now).list }
{
    let mut count: usize = 0;
    let mut from: usize = 0;
    while from < s.len() {
        let Some(line) = job_line(s, from) else {
            return Lines {
                fault: Err(Refusal {
                    number: 15,
                    at: count,
                }),
                count,
            };
        };
        put(lines, count, line);
        count += 1;
        from = line.next;
    }
    Lines {
        fault: Ok(()),
        count,
    }
}
