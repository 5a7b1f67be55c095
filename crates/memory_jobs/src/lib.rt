// A job over a program file and the bytes of a memory file, or over a program file alone. What it makes of the memory stands in specs/Images.antt. It is
// promised of the tables and the leftovers that the bytes mean, and of the bytes.
#![tactic(auto)]

ghost use Rattle.std.specs.Prelude.{ℕ, ◌≡◌};
ghost use Rattle.image.specs.Image.{plant_of, image_of};
ghost use Rattle.jobs.specs.Job.{job_of};
ghost use Rattle.jobs.specs.Tasks.{tasks_of};
ghost use Rattle.jobs.specs.Jobbed.{Refused};
ghost use Rattle.memory_jobs.specs.Images.{job_over, no_table};

use jobs::JobRefusal;
use memories::tables;

// The job over the file and the memory of the image, which are then those after it; the leftovers stay. A refused one changes no byte.
pub fn in_image(
    file: &mut [u8],
    image: &mut [u8; 16892],
    lines: &[[u32; 3]],
) -> Result<usize, JobRefusal>
    ensures value { result ≡ (job_over file.old (plant_of image.old) (tasks_of lines.now)).answer }
    ensures file_after { file.new ≡ (job_over file.old (plant_of image.old) (tasks_of lines.now)).file }
    ensures image_after { plant_of image.new ≡ (job_over file.old (plant_of image.old) (tasks_of lines.now)).plant }
    ensures image_after_2 { image.new ≡ image_of (job_over file.old (plant_of image.old) (tasks_of lines.now)).plant }
    ensures file_unchanged { (m k i j : ℕ) → result ≡ Refused m k i j → (file.new ≡ file.old) × (image.new ≡ image.old) }
{
    let mut tables = tables::split(image);
    let moves = job_moves::job(file, &mut tables.d, lines);
    tables::join(tables, image);
    moves
}

// The job over the file alone. right: no memory file was given; else one of another size was, which is refused by 9.
pub fn alone(file: &mut [u8], right: bool, lines: &[[u32; 3]]) -> Result<usize, JobRefusal>
    ensures value { result ≡ (job_of file.old (no_table right) (tasks_of lines.now)).answer }
    ensures file_after { file.new ≡ (job_of file.old (no_table right) (tasks_of lines.now)).file }
{
    let mut d = [0i16; 1];
    if right {
        return job_moves::job(file, &mut d[..0], lines);
    }
    job_moves::job(file, &mut d, lines)
}
