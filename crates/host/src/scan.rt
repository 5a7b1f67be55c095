// The scan, with a budget of steps and without.
ghost use Rattle.ec20.specs.Memory.{memory};
ghost use Rattle.ec20.specs.Plant.{plant};
ghost use Rattle.ec20.specs.Scan.{scan_of, plain_scan};
ghost use Rattle.host.specs.Seven.{seven_of};
ghost use Rattle.std.specs.Prelude.{◌≡◌, Ok};

use ec20::{Refusal, Stop};

// No refusal; 1 ended, 2 watchdog; the steps, the record stopped at, the first error and its record.
fn of_stop(stop: Stop) -> [usize; 7]
    ensures { result ≡ seven_of (Ok stop) }
{
    match stop {
        Stop::Ended(r) => [0, 0, 1, r.steps, r.stop, r.error, r.at],
        Stop::Watchdog(r) => [0, 0, 2, r.steps, r.stop, r.error, r.at],
    }
}

// The same, or the number of the refusal and the record told, and 0.
fn seven(scanned: Result<Stop, Refusal>) -> [usize; 7]
    ensures { result ≡ seven_of scanned }
{
    match scanned {
        Ok(stop) => of_stop(stop),
        Err(r) => [r.number, r.at, 0, 0, 0, 0, 0],
    }
}

// The scan of the file f over the tables and the leftovers; told: the seven numbers.
#[unsafe(no_mangle)]
pub extern "C" fn ninhalto_scan(
    f: &[u8],
    x: &[u8],
    y: &mut [u8],
    m: &mut [u8],
    sm: &mut [u8],
    t: &mut [u8],
    d: &mut [i16],
    tv: &mut [i16],
    rest: &mut [u8],
    elapsed: u32,
    budget: u32,
    told: &mut [usize; 7],
)
    ensures rest_after { plant (memory x.now y.new m.new sm.new t.new d.new tv.new) rest.new ≡ (scan_of f.now elapsed budget (plant (memory x.now y.old m.old sm.old t.old d.old tv.old) rest.old)).plant }
    ensures told_after { told.new ≡ seven_of (scan_of f.now elapsed budget (plant (memory x.now y.old m.old sm.old t.old d.old tv.old) rest.old)).answer }
{
    *told = seven(engine::scan_file(f, x, y, m, sm, t, d, tv, rest, elapsed, budget));
}

// The entry that takes no budget: 200,000 steps.
#[unsafe(no_mangle)]
pub extern "C" fn ninhalto_scan_unbudgeted(
    f: &[u8],
    x: &[u8],
    y: &mut [u8],
    m: &mut [u8],
    sm: &mut [u8],
    t: &mut [u8],
    d: &mut [i16],
    tv: &mut [i16],
    rest: &mut [u8],
    elapsed: u32,
    told: &mut [usize; 7],
)
    ensures rest_after { plant (memory x.now y.new m.new sm.new t.new d.new tv.new) rest.new ≡ (plain_scan f.now elapsed (plant (memory x.now y.old m.old sm.old t.old d.old tv.old) rest.old)).plant }
    ensures told_after { told.new ≡ seven_of (plain_scan f.now elapsed (plant (memory x.now y.old m.old sm.old t.old d.old tv.old) rest.old)).answer }
{
    *told = seven(engine::scan_unbudgeted(f, x, y, m, sm, t, d, tv, rest, elapsed));
}
