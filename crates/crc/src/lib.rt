// The CRC of a Modbus frame: eight bytes at a time, and what is left a byte at a time.
#![tactic(auto)]

mod eights;
mod single;

ghost use Rattle.std.specs.Prelude.{◌<◌, ◌≤◌, length, take, ◌≡◌};
ghost use Rattle.modbus.specs.Crc.{crc_of};

// The CRC of all bytes.
fn all(s: &[u8]) -> usize
    ensures { (result ≡ crc_of s.now) × (result < 65536) }
{
    let mut c: usize = 0xffff;
    let mut i = 0;
    while 8 <= s.len() - i {
        c = eights::fold(c ^ eights::octet(s, i));
        i += 8;
    }
    single::rest(&s[i..], c)
}

// The CRC of the first n bytes.
pub fn crc(s: &[u8], n: usize) -> usize
    requires { n ≤ length s.now }
    ensures { (result ≡ crc_of (take n s.now)) × (result < 65536) }
{
    all(&s[..n])
}
