// A request by its numbers: n the function, a the first address, q the quantity (of 5 and 6: the value), c the byte count, l the frame's length.
#![tactic(auto)]

ghost use Rattle.std.specs.Prelude.{◌<◌, ◌≤◌, length, Some, ◌≡◌};
ghost use Rattle.ec20.specs.File.{byte_at};
ghost use Rattle.modbus.specs.Exceptions.{quantity_fits, is_of_coils, is_single, meant, range_fits, exception_for, exception_of};
ghost use Rattle.frames.specs.Exception.{code_of};
ghost use Rattle.modbus.specs.Frame.{number_in, is_short, is_long, length_fits, crc_fits};

// Why a request is not done: its function, its range, or its quantity or value.
#[derive(Clone, Copy, PartialEq, Eq)]
pub enum Exception {
    Function,
    Range,
    Quantity,
}

// Its number: 01, 02 and 03.
pub fn code(e: Exception) -> u8
    ensures { (result ≡ code_of (Some e)) × (result < 4) }
{
    match e {
        Exception::Function => 1,
        Exception::Range => 2,
        Exception::Quantity => 3,
    }
}

// Byte i of the frame, 0 where there is none.
pub fn byte_at(f: &[u8], i: usize) -> usize
    ensures { (result ≡ byte_at f.now i) × (result < 256) }
{
    usize::from(f.get(i).copied().unwrap_or(0))
}

// Two bytes as a number, the high byte first.
pub fn number_in(f: &[u8], i: usize) -> usize
    requires { i < 65536 }
    ensures { (result ≡ number_in f.now i) × (result < 65536) }
{
    byte_at(f, i) * 256 + byte_at(f, i + 1)
}

// The last two bytes are the CRC of those before them.
pub fn crc_fits(f: &[u8]) -> bool
    requires { 2 ≤ length f.now }
    ensures { result ≡ crc_fits f.now }
{
    let n = f.len() - 2;
    records::u16_at(f, n) == crc::crc(f, n)
}

// A function of eight bytes.
pub fn is_short(n: usize) -> bool
    ensures { result ≡ is_short n }
{
    (n == 1) | (n == 3) | (n == 5) | (n == 6)
}

// A function with a byte count.
pub fn is_long(n: usize) -> bool
    ensures { result ≡ is_long n }
{
    (n == 15) | (n == 16)
}

// Whether a frame of the function can have that length.
pub fn length_fits(n: usize, c: usize, l: usize) -> bool
    requires { c < 256 }
    ensures { result ≡ length_fits n c l }
{
    if is_long(n) {
        return l == 9 + c;
    }
    if is_short(n) {
        return l == 8;
    }
    (4 <= l) & (l <= 256)
}

// Not 03: quantity or value, and byte count.
fn quantity_fits(n: usize, q: usize, c: usize) -> bool
    requires { q < 65536 }
    ensures { result ≡ quantity_fits n q c }
{
    match n {
        1 => (1 <= q) & (q <= 2000),
        3 => (1 <= q) & (q <= 125),
        5 => (q == 0) | (q == 0xff00),
        6 => true,
        15 => ((1 <= q) & (q <= 1968)) & (c == (q + 7) / 8),
        _ => ((1 <= q) & (q <= 123)) & (c == 2 * q),
    }
}

fn is_of_coils(n: usize) -> bool
    ensures { result ≡ is_of_coils n }
{
    (n == 1) | (n == 5) | (n == 15)
}

fn is_single(n: usize) -> bool
    ensures { result ≡ is_single n }
{
    (n == 5) | (n == 6)
}

// How many coils or registers are meant.
fn meant(n: usize, q: usize) -> usize
    requires { q < 65536 }
    ensures { (result ≡ meant n q) × (result < 65536) }
{
    if is_single(n) { 1 } else { q }
}

// Not 02: the range, and WORK.
fn range_fits(n: usize, a: usize, q: usize) -> bool
    requires { (a < 65536) × (q < 65536) }
    ensures { result ≡ range_fits n a q }
{
    let k = meant(n, q);
    if is_of_coils(n) {
        return a + k <= 2000;
    }
    (a + k <= 8000) & ((n == 3) | !faults::meets_work(a, k))
}

// The exception, if there is one: 01, 03 and 02 in this order.
fn judge(n: usize, a: usize, q: usize, c: usize) -> Option<Exception>
    requires { (a < 65536) × (q < 65536) }
    ensures { code_of result ≡ exception_for n a q c }
{
    if !(is_short(n) | is_long(n)) {
        return Some(Exception::Function);
    }
    let fits = quantity_fits(n, q, c);
    let inside = range_fits(n, a, q);
    if !fits {
        return Some(Exception::Quantity);
    }
    if !inside {
        return Some(Exception::Range);
    }
    None
}

// That of a request.
pub fn exception_of(f: &[u8]) -> Option<Exception>
    ensures { code_of result ≡ exception_of f.now }
{
    let n = byte_at(f, 1);
    let a = number_in(f, 2);
    let q = number_in(f, 4);
    let c = byte_at(f, 6);
    judge(n, a, q, c)
}
