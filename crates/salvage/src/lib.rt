// Salvage of a torn file: the records that are kept, with END added if there is none, and a proper trailer, in a lent output. A record is judged by the
// checker's own test and the instruction table.
#![tactic(auto)]

ghost use Rattle.std.specs.Prelude.{◌+◌, ◌*◌, ◌≤◌, length, ◌≡◌};
ghost use Rattle.ec20.specs.Buffer.{over, sent};
ghost use Rattle.ec20.specs.Devices.{ec20};
ghost use Rattle.ec20.specs.File.{record_from, records_as};
ghost use Rattle.ec20.specs.Written.{end_record};
ghost use Rattle.torn.specs.Kept.{passes as pass, kept_of};
ghost use Rattle.torn.specs.Salvage.{records_in, size_for, file_with, saved, salvage_of};

use ec20::Refusal;
use instructions::RowTable;
use torn::{Kept, Saved};

// Whether the record at byte i is refused by neither 2 nor 3: the checker's search for the first bad record, of this one alone, tells 4 only where these two
// do not hold. (The checker's test of one record, called from here too, would no longer be put into that search, and a check took 1.4 times as long.)
fn passes(rows: &RowTable, t: &[u8], i: usize) -> bool
    requires i_in_bounds { i + 20 ≤ length t.now }
    ensures { result ≡ pass ec20 (record_from t.now i) }
{
    match faults::first_bad_among(rows, t, i, 1) {
        Err(r) => r.number == 4,
        Ok(()) => true,
    }
}

// Of the first n records of the torn file those that are kept: up to the first END, or to the first that 2 or 3 refuses.
fn keep(rows: &RowTable, t: &[u8], n: usize) -> Kept
    requires n_in_bounds { (20 * n ≤ length t.now) × (n ≤ 2001) }
    ensures { (result ≡ kept_of ec20 (records_as 1 t.now 0 n)) × (result.count ≤ n) × (result.added ≤ 1) }
{
    for k in 0..n {
        if !passes(rows, t, 20 * k) {
            return Kept { count: k, added: 1 };
        }
        if t[20 * k] == 23 {
            return Kept {
                count: k + 1,
                added: 0,
            };
        }
    }
    Kept { count: n, added: 1 }
}

// These bytes in the output, from byte `at` on. A loop, since `copy_from_slice` of a length that is not fixed has the library call memmove.
fn put(out: &mut [u8], at: usize, s: &[u8])
    requires { at + length s.now ≤ length out.old }
    ensures { out.new ≡ over at s.now out.old }
{
    for k in 0..s.len() {
        out[at + k] = s[k];
    }
}

// The END record.
fn end_record() -> [u8; 20]
    ensures { result ≡ end_record }
{
    [23, 0, 0, 0, 0, 0, 0, 0, 0, 0, 0, 0, 0, 0, 0, 0, 0, 0, 0, 0]
}

// The records that are kept, END if one is added, and the trailer, as the first bytes of the output.
fn write(t: &[u8], out: &mut [u8], k: Kept)
    requires { (20 * k.count ≤ length t.now) × (k.added ≤ 1) × (records_in k ≤ 2000) × (size_for (records_in k) ≤ length out.old) }
    ensures { out.new ≡ sent (file_with t.now k) out.old }
{
    let records = k.count + k.added;
    let trailer = records::trailer(1, records);
    put(out, 0, &t[..20 * k.count]);
    put(out, 20 * k.count, &end_record()[..20 * k.added]);
    put(out, 20 * records, &trailer);
}

// The salvage of a torn file of any length: refused by 1 for more than 2,000 records, an added END included, and by 16 for an output that the file does not
// fit; else the file stands in the output, which stays as it was past it. 2,001 records are enough to look at, since more than 2,000 are refused whatever
// follows.
pub fn salvage(t: &[u8], out: &mut [u8]) -> Result<Saved, Refusal>
    ensures { saved result out.new ≡ salvage_of t.now out.old }
{
    let rows = instructions::table();
    let n = t.len();
    let k = keep(&rows, t, (n / 20).min(2001));
    let records = k.count + k.added;
    if records > 2000 {
        return Err(Refusal { number: 1, at: 0 });
    }
    if out.len() < 20 * records + 8 {
        return Err(Refusal { number: 16, at: 0 });
    }
    write(t, out, k);
    Ok(Saved {
        kept: k.count,
        added: k.added,
        rest: n - 20 * k.count,
    })
}
