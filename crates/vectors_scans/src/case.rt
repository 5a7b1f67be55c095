// A case: the file, the memory before, what is asked, what is wanted.
use crate::judge::Answer;
use crate::lent::Asked;
use crate::{before, judge, lent, tables};
use cases::{octets, reading};
use ec20::{Refusal, Stop};

// What came of a case: whether the scan gave what is wanted, what that was, and the budget.
#[derive(Clone, Copy)]
pub struct Judged {
    pub agrees: bool,
    pub want: Answer,
    pub budget: u32,
}

fn read_asked(fd: i32, table: u8, way: u8) -> Asked {
    let elapsed = reading::u32_from(fd) as u32;
    let budget = reading::u32_from(fd) as u32;
    Asked {
        table,
        way,
        elapsed,
        budget,
        plain: false,
    }
}

fn wanted(fd: i32) -> Answer {
    let number = reading::u32_from(fd);
    let told = reading::u32_from(fd);
    let kind = reading::u32_from(fd);
    let steps = reading::u32_from(fd);
    let stop = reading::u32_from(fd);
    let error = reading::u32_from(fd);
    let at = reading::u32_from(fd);
    Answer {
        number,
        told,
        kind,
        steps,
        stop,
        error,
        at,
    }
}

// The call itself, over the tables as they are lent.
fn call(
    f: &[u8],
    a: Asked,
    x: &[u8],
    y: &mut [u8],
    m: &mut [u8],
    sm: &mut [u8],
    t: &mut [u8],
    d: &mut [i16],
    tv: &mut [i16],
    rest: &mut [u8],
) -> Result<Stop, Refusal> {
    if a.plain {
        return engine::scan_unbudgeted(f, x, y, m, sm, t, d, tv, rest, a.elapsed);
    }
    engine::scan_file(f, x, y, m, sm, t, d, tv, rest, a.elapsed, a.budget)
}

// Of each table as much is lent as the case says.
fn scan(
    f: &[u8],
    a: Asked,
    x: &[u8],
    y: &mut [u8],
    m: &mut [u8],
    sm: &mut [u8],
    t: &mut [u8],
    d: &mut [i16],
    tv: &mut [i16],
    rest: &mut [u8],
) -> Result<Stop, Refusal> {
    let xs = lent::size(a, 1, 32, x.len());
    let ys = lent::size(a, 2, 32, y.len());
    let ms = lent::size(a, 3, 250, m.len());
    let sms = lent::size(a, 4, 32, sm.len());
    let ts = lent::size(a, 5, 32, t.len());
    let ds = lent::size(a, 6, 8000, d.len());
    let tvs = lent::size(a, 7, 256, tv.len());
    let rests = lent::size(a, 8, 2, rest.len());
    call(
        f,
        a,
        &x[..xs],
        &mut y[..ys],
        &mut m[..ms],
        &mut sm[..sms],
        &mut t[..ts],
        &mut d[..ds],
        &mut tv[..tvs],
        &mut rest[..rests],
    )
}

// What stands past the last entry of each table was 0 and still is.
fn past_is_zero(
    y: &[u8; 33],
    m: &[u8; 251],
    sm: &[u8; 33],
    t: &[u8; 33],
    d: &[i16; 8001],
    tv: &[i16; 257],
    rest: &[u8; 3],
) -> bool {
    (y[32] == 0)
        & (m[250] == 0)
        & (sm[32] == 0)
        & (t[32] == 0)
        & (d[8000] == 0)
        & (tv[256] == 0)
        & (rest[2] == 0)
}

// A scan of the file over the memory `image`: the answer is `want`, and the memory after it is `after`.
fn agrees(f: &[u8], a: Asked, image: &[u8; 16892], want: Answer, after: &[u8; 16892]) -> bool {
    let mut x = tables::bits();
    let mut y = tables::bits();
    let mut m = tables::m_bits();
    let mut sm = tables::bits();
    let mut t = tables::bits();
    let mut d = tables::d_words();
    let mut tv = tables::t_values();
    let mut rest = tables::rest();
    image::split(
        image, &mut x, &mut y, &mut m, &mut sm, &mut t, &mut d, &mut tv, &mut rest,
    );
    let s = scan(
        f, a, &x, &mut y, &mut m, &mut sm, &mut t, &mut d, &mut tv, &mut rest,
    );
    let mut left = tables::image();
    image::join(&x, &y, &m, &sm, &t, &d, &tv, &rest, &mut left);
    judge::agrees(s, want) & (left == *after) & past_is_zero(&y, &m, &sm, &t, &d, &tv, &rest)
}

// The scan with its budget and, where the entry that takes none answers the same, that one too.
fn both_agree(f: &[u8], a: Asked, image: &[u8; 16892], want: Answer, after: &[u8; 16892]) -> bool {
    let mut plain = a;
    plain.plain = true;
    if judge::is_plain(want, a.budget) {
        if !agrees(f, plain, image, want, after) {
            return false;
        }
    }
    agrees(f, a, image, want, after)
}

fn part_agrees(
    file: &[u8],
    n: usize,
    a: Asked,
    image: &[u8; 16892],
    want: Answer,
    after: &[u8; 16892],
) -> bool {
    if n <= file.len() {
        return both_agree(&file[..n], a, image, want, after);
    }
    false
}

// The rest of a case, whose file has n bytes. The image is the one before the case; then it is the one after it.
pub fn next(fd: i32, file: &[u8; 65536], n: usize, image: &mut [u8; 16892]) -> Judged {
    let rule = reading::u8_from(fd);
    let table = reading::u8_from(fd);
    let way = reading::u8_from(fd);
    reading::u8_from(fd);
    before::image(fd, image, rule);
    let a = read_asked(fd, table, way);
    let want = wanted(fd);
    let mut after = *image;
    before::patch(fd, &mut after);
    let told = reading::u32_from(fd) as u64;
    let same = part_agrees(file, n, a, image, want, &after);
    let summed = octets::checksum(&after) == told;
    *image = after;
    Judged {
        agrees: same & summed,
        want,
        budget: a.budget,
    }
}
