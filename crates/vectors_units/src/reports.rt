// Reports: before a call by their seed, and as they are wanted after it.
ghost use Rattle.std.specs.Prelude.{◌≡◌, length};
ghost use Rattle.vectors_units.specs.Seeded.{seeded};

use cases::reading;

fn put(r: &mut [[u32; 2]], i: usize, first: u32, second: u32) {
    if i < r.len() {
        r[i] = [first, second];
    }
}

// What stands in a report before the call.
pub fn fill(r: &mut [[u32; 2]], seed: u32)
    ensures { r.new ≡ seeded seed (length r.old) }
{
    let mut v = seed;
    for i in 0..r.len() {
        r[i] = [v, v.wrapping_add(1)];
        v = v.wrapping_add(2);
    }
}

// The next n pairs of the file are the first that the report is wanted to have. The lower place is the low half of a number there.
pub fn pairs(fd: i32, r: &mut [[u32; 2]], n: usize) {
    for i in 0..n {
        let both = reading::u32_from(fd);
        put(r, i, (both % 65536) as u32, (both / 65536) as u32);
    }
}
