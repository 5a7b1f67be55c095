// The D numbers that a move changed, counted in the bytes of both programs.
ghost use Rattle.std.specs.Prelude.{◌≡◌, ◌<◌, true, false};
ghost use Rattle.beginnings.specs.Changes.{changes_in, Other, SameAt};

// Both have a byte i, and it differs.
fn differs(old: &[u8], new: &[u8], i: usize) -> bool
    ensures { (result ≡ true → Other old.now new.now i) × (result ≡ false → SameAt old.now new.now i) }
{
    if i < old.len() {
        if i < new.len() {
            return old[i] != new[i];
        }
    }
    false
}

// How many D numbers the move changed. The bytes that it changes are the two lowest of a number, and six bytes on stands the next number at
// the earliest: four bytes after a change is past the one and not yet at the other.
pub fn changed(old: &[u8], new: &[u8]) -> usize
    ensures { result ≡ changes_in 0 old.now new.now }
{
    let n = old.len();
    let mut count: usize = 0;
    let mut i: usize = 0;
    while i < n {
        if differs(old, new, i) {
            count += 1;
            if n - i <= 4 {
                return count;
            }
            i += 4;
            continue;
        }
        i += 1;
    }
    count
}
