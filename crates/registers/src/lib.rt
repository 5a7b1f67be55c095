// Registers: D words read into a reply, and written from a request, the high byte of each first.
#![tactic(auto)]

ghost use Rattle.std.specs.Prelude.{◌+◌, ◌*◌, ◌≤◌, length, ◌≡◌};
ghost use Rattle.ec20.specs.Buffer.{over};
ghost use Rattle.modbus.specs.Replies.{register_bytes};
ghost use Rattle.modbus.specs.Writes.{registers_taken};

// The n registers from a on, into the reply from its byte 3 on.
pub fn read(d: &[i16], a: usize, n: usize, reply: &mut [u8])
    requires { (a + n ≤ 8000) × (length d.now ≡ 8000) × (3 + 2 * n ≤ length reply.old) }
    ensures { reply.new ≡ over 3 (register_bytes d.now a n) reply.old }
{
    for i in 0..n {
        let u = ints::bits16(d[a + i]);
        reply[3 + 2 * i] = (u / 256) as u8;
        reply[4 + 2 * i] = (u % 256) as u8;
    }
}

// The n registers from a on take the numbers of the request f from its byte 7 on.
pub fn write(d: &mut [i16], a: usize, f: &[u8], n: usize)
    requires { (a + n ≤ 8000) × (length d.old ≡ 8000) × (7 + 2 * n ≤ length f.now) }
    ensures { d.new ≡ registers_taken d.old a f.now n }
{
    for i in 0..n {
        let u = u64::from(f[7 + 2 * i]) * 256 + u64::from(f[8 + 2 * i]);
        d[a + i] = ints::of_bits16(u);
    }
}
