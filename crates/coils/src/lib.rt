// Coils: M bits read into a reply, and written from a request, by whole bytes: eight bits that reach over the edge of a byte are a shift of two.
#![tactic(auto)]

ghost use Rattle.std.specs.Prelude.{ℕ, ◌+◌, ◌*◌, ◌/◌, ◌%◌, ◌^◌, ◌<◌, ◌≤◌, length, List, ◌≡◌};
ghost use Rattle.coils.specs.Moved.{bytes_moved};
ghost use Rattle.ec20.specs.Bits.{packed, spread};
ghost use Rattle.ec20.specs.File.{byte_at};
ghost use Rattle.ec20.specs.Buffer.{over};
ghost use Rattle.modbus.specs.Exceptions.{bytes_of};
ghost use Rattle.modbus.specs.Replies.{coil_bytes};
ghost use Rattle.modbus.specs.Writes.{coils_taken};

// Byte i, 0 where there is none.
fn byte_at(b: &[u8], i: usize) -> u8
    ensures { result ≡ byte_at b.now i }
{
    b.get(i).copied().unwrap_or(0)
}

// The eight bits from bit s of the byte x on, which may reach into the byte y after it.
fn across(x: u8, y: u8, s: usize) -> u8
    requires { s < 8 }
    ensures { result ≡ (x + y * 256) / 2 ^ s % 256 }
{
    (((x as u16 + (y as u16) * 256) >> s) & 255) as u8
}

// The n bits from number i on, eight at most, as a number.
fn few(bits: &[u8], i: usize, n: usize) -> u8
    requires { n ≤ 8 }
    ensures { (result ≡ packed bits.now i n) × (result < 2 ^ n) }
{
    let k = i / 8;
    let v = across(byte_at(bits, k), byte_at(bits, k + 1), i % 8);
    (v as u16 & ((1 << n) - 1)) as u8
}

// The n bits from number i of one table on go to those from number at on of another, inside one byte there: what stands above them, then
// these, then what stands below.
fn move_few(to: &mut [u8], at: usize, from: &[u8], i: usize, n: usize)
    requires { (at % 8 + n ≤ 8) × (at / 8 < length to.old) }
    ensures { to.new ≡ spread to.old at n (packed from.now i n) }
{
    let v = few(from, i, n) as u16;
    let s = at % 8;
    let e = s + n;
    let k = at / 8;
    let x = to[k] as u16;
    to[k] = (((x >> e) << e) + (v << s) + (x & ((1 << s) - 1))) as u8;
}

// The bits from number i of one table on go to k whole bytes of another. There is a bit after them, so that no turn has to ask whether the next
// byte is there.
fn move_bytes(to: &mut [u8], at: usize, from: &[u8], i: usize, k: usize)
    requires { (at + k ≤ length to.old) × (i + 8 * k < 8 * length from.now) }
    ensures { to.new ≡ bytes_moved to.old at from.now i k }
{
    let first = i / 8;
    let s = i % 8;
    for j in 0..k {
        to[at + j] = across(from[first + j], from[first + j + 1], s);
    }
}

// The q coils from a on, eight to a byte, into the reply from its byte 3 on: all bytes but the last have eight.
pub fn read(m: &[u8], a: usize, q: usize, reply: &mut [u8])
    requires { (a + q ≤ 2000) × (length m.now ≡ 250) × (3 + bytes_of q ≤ length reply.old) }
    ensures { reply.new ≡ over 3 (coil_bytes m.now a q (bytes_of q)) reply.old }
{
    if q == 0 {
        return;
    }
    let k = (q - 1) / 8;
    move_bytes(reply, 3, m, a, k);
    reply[3 + k] = few(m, a + 8 * k, q - 8 * k);
}

// After the first i coils, which end at the edge of a byte of M, those up to number n: whole bytes, and those in the last.
fn write_on(m: &mut [u8], a: usize, f: &[u8], i: usize, n: usize)
    requires { (i < n) × ((a + i) % 8 ≡ 0) × (a + n ≤ 2000) × (length m.old ≡ 250) × (7 + bytes_of n ≤ length f.now) }
    ensures { (m0 : List ℕ) → m.old ≡ coils_taken m0 a f.now i → m.new ≡ coils_taken m0 a f.now n }
{
    let k = (n - i - 1) / 8;
    move_bytes(m, (a + i) / 8, f, 56 + i, k);
    let j = i + 8 * k;
    move_few(m, a + j, f, 56 + j, n - j);
}

// The n coils from a on take the bits of the request f from its byte 7 on, first those in the first byte of M.
pub fn write(m: &mut [u8], a: usize, f: &[u8], n: usize)
    requires { (a + n ≤ 2000) × (length m.old ≡ 250) × (7 + bytes_of n ≤ length f.now) }
    ensures { m.new ≡ coils_taken m.old a f.now n }
{
    if n == 0 {
        return;
    }
    let i = n.min(8 - a % 8);
    move_few(m, a, f, 56, i);
    if i < n {
        write_on(m, a, f, i, n);
    }
}
