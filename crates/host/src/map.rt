// The use map.
ghost use Rattle.ec20.specs.Answers.{told_by_map};
ghost use Rattle.ec20.specs.Devices.{ec20};
ghost use Rattle.ec20.specs.UseMap.{use_map_of};
ghost use Rattle.std.specs.Prelude.{◌≡◌};

// The use map of the file f: the number of the refusal (0: none) and the record told, and the two maps, one bit for each D word (all 0: refused).
#[unsafe(no_mangle)]
pub extern "C" fn ninhalto_map(
    f: &[u8],
    number: &mut usize,
    at: &mut usize,
    read: &mut [u8; 1000],
    written: &mut [u8; 1000],
)
    ensures number_after { number.new ≡ (told_by_map ec20 (use_map_of f.now)).number }
    ensures at_after { at.new ≡ (told_by_map ec20 (use_map_of f.now)).at }
    ensures read_after { read.new ≡ (told_by_map ec20 (use_map_of f.now)).read }
    ensures written_after { written.new ≡ (told_by_map ec20 (use_map_of f.now)).written }
{
    let m = usemap::told(usemap::use_map(f));
    *number = m.number;
    *at = m.at;
    let r = m.read;
    let w = m.written;
    *read = r;
    *written = w;
}
