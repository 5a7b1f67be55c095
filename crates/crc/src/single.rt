// A byte at a time. What eight shifts make of the register's low byte comes from two tables of 16 entries, one for each half of that byte. The tables
// are matches, since the compiler makes constant data of a match and would write a constant array to the stack.
ghost use Rattle.std.specs.Prelude.{◌*◌, ◌<◌, ◌≡◌};
ghost use Rattle.modbus.specs.Crc.{crc_byte, crc_from};

// What eight shifts make of the low half of a byte.
fn low(x: usize) -> usize
    requires { x < 16 }
    ensures { result ≡ crc_byte 0 x }
{
    match x {
        0 => 0x0000,
        1 => 0xc0c1,
        2 => 0xc181,
        3 => 0x0140,
        4 => 0xc301,
        5 => 0x03c0,
        6 => 0x0280,
        7 => 0xc241,
        8 => 0xc601,
        9 => 0x06c0,
        10 => 0x0780,
        11 => 0xc741,
        12 => 0x0500,
        13 => 0xc5c1,
        14 => 0xc481,
        _ => 0x0440,
    }
}

// What eight shifts make of the high half of a byte.
fn high(x: usize) -> usize
    requires { x < 16 }
    ensures { result ≡ crc_byte 0 (x * 16) }
{
    match x {
        0 => 0x0000,
        1 => 0xcc01,
        2 => 0xd801,
        3 => 0x1400,
        4 => 0xf001,
        5 => 0x3c00,
        6 => 0x2800,
        7 => 0xe401,
        8 => 0xa001,
        9 => 0x6c00,
        10 => 0x7800,
        11 => 0xb401,
        12 => 0x5000,
        13 => 0x9c01,
        14 => 0x8801,
        _ => 0x4400,
    }
}

// The register after one more byte.
fn byte(c: usize, b: u8) -> usize
    requires { c < 65536 }
    ensures { (result ≡ crc_byte c b) × (result < 65536) }
{
    let x = (c ^ usize::from(b)) % 256;
    (c / 256) ^ (high(x / 16) ^ low(x % 16))
}

// The register after more bytes.
pub fn rest(s: &[u8], register: usize) -> usize
    requires { register < 65536 }
    ensures { (result ≡ crc_from register s.now) × (result < 65536) }
{
    let mut c = register;
    for &b in s {
        c = byte(c, b);
    }
    c
}
