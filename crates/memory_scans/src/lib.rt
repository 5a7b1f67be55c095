// A scan over the bytes of a memory file, of any file, or of one that was made ready for many. What it makes of memory and leftovers stands in
// specs/Scans.antt. It is promised of the tables and the leftovers that the bytes mean, and of the bytes. pairs: a scan of an old program and one of the
// moved one, side by side.
#![tactic(auto)]

pub mod pairs;

ghost use Rattle.std.specs.Prelude.{ℕ, ◌≤◌, eqb, ◌≡◌};
ghost use Rattle.ec20.specs.Basics.{pick};
ghost use Rattle.ec20.specs.Scanned.{Refused};
ghost use Rattle.engine.specs.Made.{Made, Goes};
ghost use Rattle.image.specs.Image.{plant_of, image_of};
ghost use Rattle.memory_scans.specs.Scans.{scan_in};

use ec20::{Refusal, Stop};
use engine::Ready;
use memories::tables;

// A memory file of another size is lent as an X table with no entry, which is refused by 9 where nothing ahead of it holds.
fn entries(size: usize) -> usize
    ensures { (result ≡ pick (eqb size 16892) 32 0) × (result ≤ 32) }
{
    if size == 16892 { 32 } else { 0 }
}

// The scan of a file that was made ready, over memory and leftovers of the image, which are then those after it. size: how many bytes the memory file
// has. A refused one changes no byte.
pub fn scan_ready(
    p: Ready,
    goes: &[usize; 2000],
    f: &[u8],
    image: &mut [u8; 16892],
    size: usize,
    elapsed: u32,
    budget: u32,
) -> Result<Stop, Refusal>
    requires made { Made f.now p }
    requires goes { Goes f.now p goes.now }
    ensures value { result ≡ (scan_in f.now size elapsed budget (plant_of image.old)).answer }
    ensures image_after { plant_of image.new ≡ (scan_in f.now size elapsed budget (plant_of image.old)).plant }
    ensures image_after_2 { image.new ≡ image_of (scan_in f.now size elapsed budget (plant_of image.old)).plant }
    ensures by_index { (m k : ℕ) → result ≡ Refused m k → image.new ≡ image.old }
{
    let mut tables = tables::split(image);
    let x = tables.x;
    let n = entries(size);
    let scanned = engine::scan_ready(
        p,
        goes,
        f,
        &x[..n],
        &mut tables.y,
        &mut tables.m,
        &mut tables.sm,
        &mut tables.t,
        &mut tables.d,
        &mut tables.tv,
        &mut tables.rest,
        elapsed,
        budget,
    );
    tables::join(tables, image);
    scanned
}

// The same of any file, which is made ready first.
pub fn scan(
    f: &[u8],
    image: &mut [u8; 16892],
    size: usize,
    elapsed: u32,
    budget: u32,
) -> Result<Stop, Refusal>
    ensures value { result ≡ (scan_in f.now size elapsed budget (plant_of image.old)).answer }
    ensures image_after { plant_of image.new ≡ (scan_in f.now size elapsed budget (plant_of image.old)).plant }
    ensures image_after_2 { image.new ≡ image_of (scan_in f.now size elapsed budget (plant_of image.old)).plant }
    ensures by_index { (m k : ℕ) → result ≡ Refused m k → image.new ≡ image.old }
{
    let p = engine::make_ready(f);
    let goes = engine::look_up(f, p);
    scan_ready(p, &goes, f, image, size, elapsed, budget)
}
