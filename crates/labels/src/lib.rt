// Labels and jumps, refusal 7; and the two searches, for the NEXT of a FOR and for a label.
#![tactic(auto)]

ghost use Rattle.std.specs.Prelude.{ℕ, ◌+◌, ◌-◌, ◌<◌, ◌≤◌, ◌^◌, eqb, length, false, ◌≡◌};
ghost use Rattle.ec20.specs.Basics.{first_at, refused_at};
ghost use Rattle.ec20.specs.Code.{program_in};
ghost use Rattle.ec20.specs.Control.{controls_of, marks, found_in_body, first_label};
ghost use Rattle.ec20.specs.Walkers.{turn_of};
ghost use Rattle.ec20.specs.File.{records_from};
ghost use Rattle.ec20.specs.Labels.{same, label_fault, first_unlabelled};
ghost use Rattle.ec20.specs.declared.Control.TheVariants.{Closes, Jumps, Marks};
ghost use Rattle.labels.specs.Homes.{Homes, home_after};
ghost use Rattle.labels.specs.Places.{Places};
ghost use Rattle.labels.specs.Sound.{Sound};
ghost use Rattle.labels.specs.Want.{want_of};
ghost use Rattle.records.specs.Ranges.{Held};

use ec20::{Control, Refusal, Turn};

// What a search looks for: the NEXT that closes a loop, or the LBL of a label.
#[derive(Clone, Copy)]
pub enum Want {
    Close,
    Place(usize),
}

// Does the record set the label l?
#[tactic(auto, unfolding(ec20::specs::Control::marks))]
fn sets(i: Control, l: usize) -> bool
    ensures { result ≡ marks l i }
{
    matches!(i, Control::Marks(m) if m == l)
}

// A NEXT, d deep: it ends a loop inside the body searched, or the body, and with it the search.
#[tactic(auto, unfolding(ec20::specs::Walkers::turn_of, ec20::specs::Walkers::shift_of, ec20::specs::Control::closes, ec20::specs::Control::marks))]
fn next_turn(w: Want, d: usize) -> Turn
    ensures { result ≡ turn_of (want_of w Closes) Closes d }
{
    if d != 0 {
        return Turn::On(d - 1);
    }
    match w {
        Want::Close => Turn::Hit,
        Want::Place(_) => Turn::Stop,
    }
}

// An LBL of the label m, d deep: it counts only directly in the body, in no loop inside it.
#[tactic(auto, unfolding(ec20::specs::Walkers::turn_of, ec20::specs::Walkers::shift_of, ec20::specs::Control::closes, ec20::specs::Control::marks))]
fn label_turn(m: usize, w: Want, d: usize) -> Turn
    ensures { result ≡ turn_of (want_of w (Marks m)) (Marks m) d }
{
    if d != 0 {
        return Turn::On(d);
    }
    match w {
        Want::Close => Turn::On(d),
        Want::Place(l) => { if m == l { Turn::Hit } else { Turn::On(d) } }
    }
}

// What a record does to a search that is d deep in loops inside the body. One `match`, so that a record is told apart once.
#[tactic(auto, unfolding(ec20::specs::Walkers::turn_of, ec20::specs::Walkers::shift_of, ec20::specs::Control::closes, ec20::specs::Control::marks))]
fn turn(i: Control, w: Want, d: usize) -> Turn
    requires { d + 1 < 2 ^ 64 }
    ensures { result ≡ turn_of (want_of w i) i d }
{
    match i {
        Control::Opens(_) => Turn::On(d + 1),
        Control::Closes => next_turn(w, d),
        Control::Marks(m) => label_turn(m, w, d),
        Control::Plain | Control::Jumps(_) | Control::Ends => Turn::On(d),
    }
}

// The first wanted record from record `from` on that stands directly in the body there.
pub fn find(f: &[u8], first: usize, count: usize, from: usize, w: Want) -> Option<usize>
    requires { Held (length f.now) first count }
    ensures { result ≡ found_in_body (controls_of (program_in (records_from f.now first count))) count (want_of w) 0 from }
{
    let mut d: usize = 0;
    for k in from..count {
        match turn(decode::control_at(f, first, count, k), w, d) {
            Turn::Hit => return Some(k),
            Turn::Stop => return None,
            Turn::On(e) => d = e,
        }
    }
    None
}

// A label's place: its first LBL.
fn label(f: &[u8], first: usize, count: usize, l: usize) -> Option<usize>
    requires { Held (length f.now) first count }
    ensures { result ≡ first_label (controls_of (program_in (records_from f.now first count))) count l }
{
    for k in 0..count {
        if sets(decode::control_at(f, first, count, k), l) {
            return Some(k);
        }
    }
    None
}

// The label that record k sets, and 128, which is no label, where it sets none.
#[tactic(auto, unfolding(ec20::specs::Control::marks))]
fn slot(f: &[u8], first: usize, count: usize, k: usize) -> usize
    requires { Held (length f.now) first count }
    ensures { (l : ℕ) → l < 128 → marks l ((controls_of (program_in (records_from f.now first count))) k) ≡ eqb result l }
{
    match decode::control_at(f, first, count, k) {
        Control::Marks(l) => l,
        _ => 128,
    }
}

// One more than the place of each of the 128 labels, 0 where it has none: from the last record back, so that the first LBL stays.
pub fn places(f: &[u8], first: usize, count: usize) -> [usize; 128]
    requires { Held (length f.now) first count }
    ensures { Places (controls_of (program_in (records_from f.now first count))) count result }
{
    let mut table = [0usize; 128];
    for j in (0..count).rev() {
        let s = slot(f, first, count, j);
        if s < 128 {
            table[s] = j + 1;
        }
    }
    table
}

// A label's place: that of the first 128 is looked up, any other's is searched.
pub fn place(f: &[u8], first: usize, count: usize, table: &[usize; 128], l: usize) -> Option<usize>
    requires held { Held (length f.now) first count }
    requires places { Places (controls_of (program_in (records_from f.now first count))) count table.now }
    ensures { result ≡ first_label (controls_of (program_in (records_from f.now first count))) count l }
{
    if l < 128 {
        let t = table[l];
        if t == 0 {
            return None;
        }
        return Some(t - 1);
    }
    label(f, first, count, l)
}

// The loop body that the record after record k stands in directly: the FOR's own after a FOR, the one around it after its NEXT.
#[tactic(auto, unfolding(crate::specs::Homes::home_after, crate::specs::Homes::home_around))]
fn home_after(i: Control, k: usize, home: u16, table: &[u16; 2000]) -> u16
    requires k_bound { k < 2000 }
    requires home_bound { home ≤ 2000 }
    ensures { result ≡ home_after i k home table.now }
{
    match i {
        Control::Opens(_) => k as u16 + 1,
        Control::Closes => {
            if home == 0 {
                0
            } else {
                table[home as usize - 1]
            }
        }
        _ => home,
    }
}

// The loop body that each record stands in directly, told by its FOR: one more than the FOR's record, 0 outside all loops.
fn homes(f: &[u8], first: usize, count: usize) -> [u16; 2000]
    requires { Held (length f.now) first count }
    ensures { Homes (controls_of (program_in (records_from f.now first count))) count result }
{
    let mut table = [0u16; 2000];
    let mut home: u16 = 0;
    for k in 0..count {
        table[k] = home;
        home = home_after(decode::control_at(f, first, count, k), k, home, &table);
    }
    table
}

// A CJ's label, its first LBL, must stand later and directly in the same loop body, in no loop inside it.
fn misplaced(
    f: &[u8],
    first: usize,
    count: usize,
    table: &[usize; 128],
    homes: &[u16; 2000],
    k: usize,
    l: usize,
) -> bool
    requires held { Held (length f.now) first count }
    requires places { Places (controls_of (program_in (records_from f.now first count))) count table.now }
    requires homes { Homes (controls_of (program_in (records_from f.now first count))) count homes.now }
    requires sound { Sound (controls_of (program_in (records_from f.now first count))) count }
    requires k_lt_count { k < count }
    requires k_value { controls_of (program_in (records_from f.now first count)) k ≡ Jumps l }
    ensures { result ≡ label_fault (controls_of (program_in (records_from f.now first count))) count k (Jumps l) }
{
    match place(f, first, count, table, l) {
        Some(t) => { if k < t { homes[t] != homes[k] } else { true } }
        None => true,
    }
}

// A label set twice: the later LBL is not the first of its label.
#[tactic(auto, unfolding(ec20::specs::Labels::label_fault, ec20::specs::Labels::same))]
fn set_twice(f: &[u8], first: usize, count: usize, table: &[usize; 128], k: usize, l: usize) -> bool
    requires held { Held (length f.now) first count }
    requires places { Places (controls_of (program_in (records_from f.now first count))) count table.now }
    ensures { result ≡ label_fault (controls_of (program_in (records_from f.now first count))) count k (Marks l) }
{
    place(f, first, count, table, l) != Some(k)
}

// Does record k set a label twice, or jump to one that doesn't stand where it must?
#[tactic(auto, unfolding(ec20::specs::Labels::label_fault))]
fn label_fault(
    f: &[u8],
    first: usize,
    count: usize,
    table: &[usize; 128],
    homes: &[u16; 2000],
    k: usize,
) -> bool
    requires held { Held (length f.now) first count }
    requires places { Places (controls_of (program_in (records_from f.now first count))) count table.now }
    requires homes { Homes (controls_of (program_in (records_from f.now first count))) count homes.now }
    requires sound { Sound (controls_of (program_in (records_from f.now first count))) count }
    requires k_lt_count { k < count }
    ensures { result ≡ label_fault (controls_of (program_in (records_from f.now first count))) count k (controls_of (program_in (records_from f.now first count)) k) }
{
    match decode::control_at(f, first, count, k) {
        Control::Jumps(l) => misplaced(f, first, count, table, homes, k, l),
        Control::Marks(l) => set_twice(f, first, count, table, k, l),
        _ => false,
    }
}

// Does record k set a label or jump to one? Any other is not refused.
#[tactic(auto, unfolding(ec20::specs::Labels::label_fault))]
fn labelled(f: &[u8], first: usize, count: usize, k: usize) -> bool
    requires { Held (length f.now) first count }
    ensures { result ≡ false → false ≡ label_fault (controls_of (program_in (records_from f.now first count))) count k ((controls_of (program_in (records_from f.now first count))) k) }
{
    match decode::control_at(f, first, count, k) {
        Control::Jumps(_) | Control::Marks(_) => true,
        _ => false,
    }
}

// The first record that sets a label or jumps to one, past the program if there is none: the judgement from there is the whole judgement.
fn first_labelled(f: &[u8], first: usize, count: usize) -> usize
    requires { Held (length f.now) first count }
    ensures { first_unlabelled (controls_of (program_in (records_from f.now first count))) count ≡ refused_at 7 (first_at (λ j. label_fault (controls_of (program_in (records_from f.now first count))) count j ((controls_of (program_in (records_from f.now first count))) j)) result (count - result)) }
{
    for k in 0..count {
        if labelled(f, first, count, k) {
            return k;
        }
    }
    count
}

// The first record from `from` on that is refused, the labels' places and the records' loop bodies being known.
fn first_from(
    f: &[u8],
    first: usize,
    count: usize,
    table: &[usize; 128],
    homes: &[u16; 2000],
    from: usize,
) -> Result<(), Refusal>
    requires held { Held (length f.now) first count }
    requires places { Places (controls_of (program_in (records_from f.now first count))) count table.now }
    requires homes { Homes (controls_of (program_in (records_from f.now first count))) count homes.now }
    requires sound { Sound (controls_of (program_in (records_from f.now first count))) count }
    ensures { result ≡ refused_at 7 (first_at (λ j. label_fault (controls_of (program_in (records_from f.now first count))) count j ((controls_of (program_in (records_from f.now first count))) j)) from (count - from)) }
{
    for k in from..count {
        if label_fault(f, first, count, table, homes, k) {
            return Err(Refusal { number: 7, at: k });
        }
    }
    Ok(())
}

// The first such record, of a program that 6 does not refuse. The places of the labels, and the loop body of each record, are looked for only
// where a record sets a label or jumps to one.
pub fn first_unlabelled(f: &[u8], first: usize, count: usize) -> Result<(), Refusal>
    requires held { Held (length f.now) first count }
    requires sound { Sound (controls_of (program_in (records_from f.now first count))) count }
    ensures { result ≡ first_unlabelled (controls_of (program_in (records_from f.now first count))) count }
{
    let from = first_labelled(f, first, count);
    if from < count {
        let table = places(f, first, count);
        let bodies = homes(f, first, count);
        return first_from(f, first, count, &table, &bodies, from);
    }
    Ok(())
}
