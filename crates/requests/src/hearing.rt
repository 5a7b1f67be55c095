// Which frames are heard: station, length, CRC.
ghost use Rattle.modbus.specs.Frame.{is_heard};
ghost use Rattle.std.specs.Prelude.{◌≡◌};

// The frame is for this station or for all, has a length that its function can have, and its CRC is good.
pub fn is_heard(own: usize, f: &[u8]) -> bool
    ensures { result ≡ is_heard own f.now }
{
    let s = frames::byte_at(f, 0);
    let n = frames::byte_at(f, 1);
    let c = frames::byte_at(f, 6);
    let l = f.len();
    let ours = (s == own) | (s == 0);
    let fits = frames::length_fits(n, c, l);
    if !(ours & fits) {
        return false;
    }
    frames::crc_fits(f)
}
