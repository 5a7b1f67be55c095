// Two declaration texts, and a part of one of them.
use crate::counts::Judged;
use crate::tables;
use cases::reading;

// Which text the part is of: 0 it is empty, 1 the first, 2 the second, 17 neither. Where both begin with it, it is of the one that is wanted.
fn text_of(part: &[u8], a: &[u8], b: &[u8], wanted: usize) -> usize {
    if part.is_empty() {
        return 0;
    }
    let first = a.starts_with(part);
    let second = b.starts_with(part);
    if second & ((wanted == 2) | !first) {
        return 2;
    }
    if first { 1 } else { 17 }
}

// Wanted is a part of so many bytes of this text.
fn judged<'a>(a: &'a [u8], b: &'a [u8], wanted: usize, size: usize) -> Judged {
    let part = longer::longer(a, b);
    let answer = text_of(part, a, b, wanted);
    Judged {
        agrees: (answer == wanted) & (part.len() == size),
        answer,
        list: 18,
    }
}

pub fn next(fd: i32) -> Judged {
    let mut a = io::buffer();
    let mut b = io::buffer();
    let n = tables::text(fd, &mut a);
    let m = tables::text(fd, &mut b);
    let wanted = reading::u32_from(fd);
    let size = reading::u32_from(fd);
    judged(&a[..n], &b[..m], wanted, size)
}
