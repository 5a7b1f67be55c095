// The bytes of a reply, at the start of the buffer. What stands after them stays.
ghost use Rattle.std.specs.Prelude.{ℕ, ◌+◌, ◌<◌, ◌≤◌, length, take, List, [], ◌∷◌, ◌++◌, ◌≡◌};
ghost use Rattle.ec20.specs.Buffer.{sent};
ghost use Rattle.modbus.specs.Crc.{with_crc};
ghost use Rattle.modbus.specs.Frame.{function_of};
ghost use Rattle.modbus.specs.Replies.{coils_reply, registers_reply, reply_to, exception_to};
ghost use Rattle.requests.specs.Fit.{Fit};

// Station and function of the request, and how many bytes follow.
fn begin(f: &[u8], k: usize, reply: &mut [u8])
    requires { (2 ≤ length f.now) × (k < 256) × (256 ≤ length reply.old) }
    ensures { reply.new ≡ sent (take 2 f.now ++ (k ∷ [])) reply.old }
{
    reply[0] = f[0];
    reply[1] = f[1];
    reply[2] = k as u8;
}

// 1: the coils. Answers how many bytes there are.
fn coils_told(f: &[u8], m: &[u8], reply: &mut [u8]) -> usize
    requires { (function_of f.now ≡ 1) × Fit f.now × (length m.now ≡ 250) × (256 ≤ length reply.old) }
    ensures { (reply.new ≡ sent (coils_reply f.now m.now) reply.old) × (result ≡ length (coils_reply f.now m.now)) × (result < 254) }
{
    let a = frames::number_in(f, 2);
    let q = frames::number_in(f, 4);
    let k = (q + 7) / 8;
    begin(f, k, reply);
    coils::read(m, a, q, reply);
    3 + k
}

// 3: the registers.
fn registers_told(f: &[u8], d: &[i16], reply: &mut [u8]) -> usize
    requires { (function_of f.now ≡ 3) × Fit f.now × (length d.now ≡ 8000) × (256 ≤ length reply.old) }
    ensures { (reply.new ≡ sent (registers_reply f.now d.now) reply.old) × (result ≡ length (registers_reply f.now d.now)) × (result < 254) }
{
    let a = frames::number_in(f, 2);
    let q = frames::number_in(f, 4);
    let k = 2 * q;
    begin(f, k, reply);
    registers::read(d, a, q, reply);
    3 + k
}

// The reply of the function n, that of the request, without its CRC.
pub fn told(n: usize, f: &[u8], m: &[u8], d: &[i16], reply: &mut [u8]) -> usize
    requires { (n ≡ function_of f.now) × Fit f.now × (length m.now ≡ 250) × (length d.now ≡ 8000) × (256 ≤ length reply.old) }
    ensures { (reply.new ≡ sent (reply_to f.now m.now d.now) reply.old) × (result ≡ length (reply_to f.now m.now d.now)) × (result < 254) }
{
    if n == 1 {
        return coils_told(f, m, reply);
    }
    if n == 3 {
        return registers_told(f, d, reply);
    }
    reply[..6].copy_from_slice(&f[..6]);
    6
}

// The exception e, without its CRC.
pub fn exception_told(f: &[u8], e: u8, reply: &mut [u8]) -> usize
    requires { (2 ≤ length f.now) × (256 ≤ length reply.old) }
    ensures { (reply.new ≡ sent (exception_to f.now e) reply.old) × (result ≡ 3) }
{
    reply[0] = f[0];
    reply[1] = f[1] % 128 + 128;
    reply[2] = e;
    3
}

// The CRC after the n bytes of a reply.
pub fn close(reply: &mut [u8], n: usize) -> usize
    requires { n + 2 ≤ length reply.old }
    ensures { (s b : List ℕ) → n ≡ length s → reply.old ≡ sent s b → (result ≡ length (with_crc s)) × (reply.new ≡ sent (with_crc s) b) }
{
    let c = crc::crc(reply, n);
    reply[n] = (c % 256) as u8;
    reply[n + 1] = (c / 256) as u8;
    n + 2
}
