// What is wanted of a call, and whether it gave that.
ghost use Rattle.std.specs.Prelude.{true, ◌≡◌};
ghost use Rattle.vectors_requests.specs.Wants.{wants};

use cases::reading;
use ec20::Refusal;

// The refusal (0: none), the kind (0 refused, 1 silent, 2 reply), the bytes of the reply, and the checksums of M and the buffer after.
#[derive(Clone, Copy)]
pub struct Wanted {
    pub number: usize,
    pub kind: usize,
    pub length: usize,
    pub m_sum: u64,
    pub reply_sum: u64,
}

pub fn read(fd: i32) -> Wanted {
    let number = reading::u32_from(fd);
    let kind = reading::u32_from(fd);
    let length = reading::u32_from(fd);
    let m_sum = reading::u32_from(fd) as u64;
    let reply_sum = reading::u32_from(fd) as u64;
    Wanted {
        number,
        kind,
        length,
        m_sum,
        reply_sum,
    }
}

fn put_word(e: &mut [i16], i: usize, v: i16) {
    if i < e.len() {
        e[i] = v;
    }
}

// As many words as the file says next are what they are wanted to be after the call.
pub fn changes(fd: i32, e: &mut [i16]) {
    for _change in 0..reading::u16_from(fd) {
        let at = reading::u16_from(fd);
        let bits = reading::u16_from(fd);
        put_word(e, at, ints::of_bits16(bits as u64));
    }
}

pub fn same_words(d: &[i16], e: &[i16]) -> bool
    ensures { (result ≡ true → d.now ≡ e.now) × (d.now ≡ e.now → result ≡ true) }
{
    d == e
}

// The record told is always 0.
pub fn same_answer(a: Result<Option<usize>, Refusal>, w: Wanted) -> bool
    ensures { result ≡ wants w a }
{
    match a {
        Err(r) => (w.kind == 0) & (w.number == r.number) & (r.at == 0),
        Ok(None) => (w.kind == 1) & (w.number == 0),
        Ok(Some(length)) => (w.kind == 2) & (w.number == 0) & (w.length == length),
    }
}
