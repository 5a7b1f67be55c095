// A job.
ghost use Rattle.jobs.specs.Job.{job_of, told_by_job};
ghost use Rattle.jobs.specs.Tasks.{tasks_of};
ghost use Rattle.std.specs.Prelude.{◌≡◌};

use jobs::JobRefusal;

// The number of the refusal (0: done), the record told, and the lines told.
fn told(
    a: Result<usize, JobRefusal>,
    number: &mut usize,
    at: &mut usize,
    line: &mut usize,
    other: &mut usize,
)
    ensures number_after { number.new ≡ (told_by_job a).number }
    ensures at_after { at.new ≡ (told_by_job a).at }
    ensures line_after { line.new ≡ (told_by_job a).line }
    ensures other_after { other.new ≡ (told_by_job a).other }
{
    match a {
        Err(refusal) => {
            *number = refusal.number;
            *at = refusal.at;
            *line = refusal.line;
            *other = refusal.other;
        }
        Ok(_) => {
            *number = 0;
            *at = 0;
            *line = 0;
            *other = 0;
        }
    }
}

// Every block of the lines, each of start, length and place, moved to its place in the file f, and exchanged with it in the table d, which has 8,000 words or
// none; or nothing is.
#[unsafe(no_mangle)]
pub extern "C" fn ninhalto_job(
    f: &mut [u8],
    d: &mut [i16],
    lines: &[[u32; 3]],
    number: &mut usize,
    at: &mut usize,
    line: &mut usize,
    other: &mut usize,
)
    ensures f_after { f.new ≡ (job_of f.old d.old (tasks_of lines.now)).file }
    ensures d_after { d.new ≡ (job_of f.old d.old (tasks_of lines.now)).words }
    ensures number_after { number.new ≡ (told_by_job (job_of f.old d.old (tasks_of lines.now)).answer).number }
    ensures at_after { at.new ≡ (told_by_job (job_of f.old d.old (tasks_of lines.now)).answer).at }
    ensures line_after { line.new ≡ (told_by_job (job_of f.old d.old (tasks_of lines.now)).answer).line }
    ensures other_after { other.new ≡ (told_by_job (job_of f.old d.old (tasks_of lines.now)).answer).other }
{
    told(job_moves::job(f, d, lines), number, at, line, other)
}
