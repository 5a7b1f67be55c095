// A case: what is asked, the frame, what is wanted.
use crate::judge::Wanted;
use crate::{before, counts, judge, tables};
use cases::octets::least;
use cases::program::Judged;
use cases::{drawing, octets, reading};

// Rule and seed of the tables, own station, and how much of M, D, the reply buffer and the frame is lent.
#[derive(Clone, Copy)]
struct Asked {
    rule: u8,
    seed: u32,
    m: usize,
    d: usize,
    own: u32,
    reply: usize,
    frame: usize,
}

fn read_asked(fd: i32) -> Asked {
    let rule = reading::u8_from(fd);
    reading::u8_from(fd);
    reading::u16_from(fd);
    let seed = reading::u32_from(fd) as u32;
    let m = reading::u32_from(fd);
    let d = reading::u32_from(fd);
    let own = reading::u32_from(fd) as u32;
    let reply = reading::u32_from(fd);
    let frame = reading::u32_from(fd);
    Asked {
        rule,
        seed,
        m,
        d,
        own,
        reply,
        frame,
    }
}

// The call over what is lent: its answer, the bytes of M that were lent, and the whole reply buffer.
fn called(
    own: u32,
    seed: u32,
    w: Wanted,
    f: &[u8],
    m: &mut [u8],
    d: &mut [i16],
    reply: &mut [u8],
) -> Judged {
    drawing::fill(reply, 0, 4, seed);
    let a = requests::answer(own, f, m, d, reply);
    let sums = (octets::checksum(m) == w.m_sum) & (octets::checksum(reply) == w.reply_sum);
    Judged {
        agrees: judge::same_answer(a, w) & sums,
        number: counts::sort(a, reply),
    }
}

// No case lends more than there is.
fn part_called(a: Asked, w: Wanted, f: &[u8], m: &mut [u8], d: &mut [i16]) -> Judged {
    let mut reply = tables::bytes();
    let fs = least(a.frame, f.len());
    let ms = least(a.m, m.len());
    let ds = least(a.d, d.len());
    let rs = least(a.reply, 512);
    called(
        a.own,
        a.seed,
        w,
        &f[..fs],
        &mut m[..ms],
        &mut d[..ds],
        &mut reply[..rs],
    )
}

// All words of d are then what those of e are, also those that are not lent.
pub fn next(fd: i32, m: &mut [u8], d: &mut [i16], e: &mut [i16]) -> Judged {
    let a = read_asked(fd);
    before::anew(a.rule, a.seed, m, d, e);
    let mut f = tables::bytes();
    before::frame(fd, &mut f, a.frame);
    let w = judge::read(fd);
    judge::changes(fd, e);
    let c = part_called(a, w, &f, m, d);
    Judged {
        agrees: c.agrees & judge::same_words(d, e),
        number: c.number,
    }
}
