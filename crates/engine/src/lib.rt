// A scan: the file is checked and made ready, then its program runs over the lent memory. Who scans one file often makes it ready once.
#![tactic(auto)]

ghost use Rattle.ec20.specs.Devices.{ec20};
ghost use Rattle.ec20.specs.Memory.{memory, sized};
ghost use Rattle.ec20.specs.Plant.{plant};
ghost use Rattle.ec20.specs.Scan.{scan, scan_of, plain_scan};
ghost use Rattle.engine.specs.Made.{Made, Goes};
ghost use Rattle.std.specs.Prelude.{◌≡◌};

use ec20::{DEFAULT_BUDGET, Frame, Refusal, Stop};

// "X 32 bytes, Y 32, M 250, SM 32, T contacts 32", 8,000 D words and 256 T values.
fn sizes_fit(x: &[u8], y: &[u8], m: &[u8], sm: &[u8], t: &[u8], d: &[i16], tv: &[i16]) -> bool
    ensures { result ≡ sized ec20 (memory x.now y.now m.now sm.now t.now d.now tv.now) }
{
    (x.len() == 32)
        & (y.len() == 32)
        & (m.len() == 250)
        & (sm.len() == 32)
        & (t.len() == 32)
        & (d.len() == 8000)
        & (tv.len() == 256)
}

// What the check finds of a file, once for any number of scans of it: where its records begin and how many there are; or why it is refused.
pub type Ready = Result<Frame, Refusal>;

// The file is checked.
pub fn make_ready(f: &[u8]) -> Ready
    ensures { Made f.now result }
{
    checker::accept(f)
}

// Where FOR 0 and CJ go, looked up once for any number of scans; of a refused file nothing is.
pub fn look_up(f: &[u8], p: Ready) -> [usize; 2000]
    requires { Made f.now p }
    ensures { Goes f.now p result }
{
    match p {
        Ok(Frame { first, count }) => jumps::prepare(f, first, count),
        Err(_) => [0usize; 2000],
    }
}

// A scan of a file that was made ready, over the lent memory and leftovers, with elapsed milliseconds and a budget of steps: what a scan of the file is,
// with nothing checked or looked up again. The leftovers are set and SM0 is turned on first. A refused call changes nothing.
pub fn scan_ready(
    p: Ready,
    goes: &[usize; 2000],
    f: &[u8],
    x: &[u8],
    y: &mut [u8],
    m: &mut [u8],
    sm: &mut [u8],
    t: &mut [u8],
    d: &mut [i16],
    tv: &mut [i16],
    rest: &mut [u8],
    elapsed: u32,
    budget: u32,
) -> Result<Stop, Refusal>
    requires made { Made f.now p }
    requires goes { Goes f.now p goes.now }
    ensures { scan result (plant (memory x.now y.new m.new sm.new t.new d.new tv.new) rest.new) ≡ scan_of f.now elapsed budget (plant (memory x.now y.old m.old sm.old t.old d.old tv.old) rest.old) }
{
    let Frame { first, count } = p?;
    let e = elapsed as usize;
    if sizes_fit(x, y, m, sm, t, d, tv) & leftovers::fit(rest) & (e <= 10000) {
        let rows = instructions::table();
        let u = leftovers::share(rest, e);
        bits::put_bit(sm, 0, 1);
        let n = budget as usize;
        return Ok(runs::run(&rows, f, first, count, goes, u, n, x, y, m, sm, t, d, tv));
    }
    Err(Refusal { number: 9, at: 0 })
}

// A scan of a file over the lent memory and leftovers, with elapsed milliseconds and a budget of steps. A refused call changes nothing.
pub fn scan_file(
    f: &[u8],
    x: &[u8],
    y: &mut [u8],
    m: &mut [u8],
    sm: &mut [u8],
    t: &mut [u8],
    d: &mut [i16],
    tv: &mut [i16],
    rest: &mut [u8],
    elapsed: u32,
    budget: u32,
) -> Result<Stop, Refusal>
    ensures { scan result (plant (memory x.now y.new m.new sm.new t.new d.new tv.new) rest.new) ≡ scan_of f.now elapsed budget (plant (memory x.now y.old m.old sm.old t.old d.old tv.old) rest.old) }
{
    let p = make_ready(f);
    let goes = look_up(f, p);
    scan_ready(p, &goes, f, x, y, m, sm, t, d, tv, rest, elapsed, budget)
}

// The scan that takes no budget uses 200,000 steps.
pub fn scan_unbudgeted(
    f: &[u8],
    x: &[u8],
    y: &mut [u8],
    m: &mut [u8],
    sm: &mut [u8],
    t: &mut [u8],
    d: &mut [i16],
    tv: &mut [i16],
    rest: &mut [u8],
    elapsed: u32,
) -> Result<Stop, Refusal>
    ensures { scan result (plant (memory x.now y.new m.new sm.new t.new d.new tv.new) rest.new) ≡ plain_scan f.now elapsed (plant (memory x.now y.old m.old sm.old t.old d.old tv.old) rest.old) }
{
    scan_file(f, x, y, m, sm, t, d, tv, rest, elapsed, DEFAULT_BUDGET)
}
