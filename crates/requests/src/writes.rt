// What a request without an exception leaves in M and D.
ghost use Rattle.std.specs.Prelude.{◌+◌, ◌<◌, ◌≤◌, eqb, length, ◌≡◌};
ghost use Rattle.ec20.specs.Basics.{one_if};
ghost use Rattle.modbus.specs.Exceptions.{value_on};
ghost use Rattle.modbus.specs.Frame.{function_of};
ghost use Rattle.modbus.specs.Writes.{coils_after, registers_after};
ghost use Rattle.requests.specs.Fit.{Fit};

// The bit of function 5.
fn switched(q: usize) -> usize
    ensures { (result ≡ one_if (eqb q value_on)) × (result < 2) }
{
    if q == 0xff00 { 1 } else { 0 }
}

// M: 5 and 15.
pub fn write_coils(n: usize, f: &[u8], m: &mut [u8])
    requires { (n ≡ function_of f.now) × Fit f.now × (length m.old ≡ 250) }
    ensures { m.new ≡ coils_after f.now m.old }
{
    let a = frames::number_in(f, 2);
    let q = frames::number_in(f, 4);
    if n == 5 {
        bits::put_bit(m, a, switched(q));
        return;
    }
    if n == 15 {
        coils::write(m, a, f, q);
    }
}

// D: 6 and 16.
pub fn write_registers(n: usize, f: &[u8], d: &mut [i16])
    requires { (n ≡ function_of f.now) × Fit f.now × (length d.old ≡ 8000) }
    ensures { d.new ≡ registers_after f.now d.old }
{
    let a = frames::number_in(f, 2);
    let q = frames::number_in(f, 4);
    if n == 6 {
        words::put_word(d, a, ints::of_bits(q as u64, 32768));
        return;
    }
    if n == 16 {
        registers::write(d, a, f, q);
    }
}
