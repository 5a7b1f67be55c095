// What the instruction table allows of a record: refusals 2, 3 and 4, and the first record that is refused by one of them.
#![tactic(auto)]

ghost use Rattle.std.specs.Prelude.{◌+◌, ◌*◌, ◌-◌, ◌<◌, ◌≤◌, ◌^◌, pos, neg_ℤ, length, ◌≡◌};
ghost use Rattle.ec20.specs.Devices.{ec20, limit_of, meets_work};
ghost use Rattle.ec20.specs.File.{records_from, record_from};
ghost use Rattle.ec20.specs.Numbers.{half, between, signed};
ghost use Rattle.ec20.specs.Operands.{in_range, one_of, constant_in, group_in, words_in, is_unused, is_bit_read, is_bit_written, is_source, is_target, allowed, in_work, operands_ok, target_in_work, fault_of, fault_in, first_bad};
ghost use Rattle.ec20.specs.Roles.{place};
ghost use Rattle.records.specs.Ranges.{Small, SmallRec, Held};

use ec20::{Operand, Place, Rec, Refusal, Role, Row};
use instructions::RowTable;

// How many numbers each kind has: none, constant, X, Y, M, SM, T, D, label. (A constant array would be made anew at each look-up.)
#[tactic(auto, unfolding(ec20::specs::Devices::limit_of))]
fn limit(kind: usize) -> usize
    ensures { result ≡ limit_of ec20 kind }
{
    match kind {
        2 | 3 | 5 | 6 => 256,
        4 => 2000,
        7 => 8000,
        8 => 128,
        _ => 0,
    }
}

// n devices from the operand's number on lie in the device's range.
fn in_range(n: usize, o: Operand) -> bool
    requires { (n < 2 ^ 32) × Small o }
    ensures { result ≡ in_range ec20 n o }
{
    o.value + n <= limit(o.kind)
}

// One device of kind k.
fn one_of(k: usize, o: Operand) -> bool
    requires { Small o }
    ensures { result ≡ one_of ec20 k o }
{
    (o.kind == k) & (o.group == 0) & in_range(1, o)
}

// The bits v, read as two's complement, are from -h to h - 1.
fn fits_signed(h: usize, v: usize) -> bool
    requires { (0 < h) × (h ≤ 2 ^ 31) × (v < 2 ^ 32) }
    ensures { result ≡ between (neg_ℤ (pos h)) (pos (h - 1)) (signed (2 ^ 31) v) }
{
    (v < h) | (4294967296 - h <= v)
}

// The bits v, read as two's complement, are from a to 32767.
fn fits_from(a: usize, v: usize) -> bool
    requires { v < 2 ^ 32 }
    ensures { result ≡ between (pos a) (pos 32767) (signed (2 ^ 31) v) }
{
    (a <= v) & (v <= 32767)
}

// A constant from -h to h - 1.
fn constant_signed(h: usize, o: Operand) -> bool
    requires { (0 < h) × (h ≤ 2 ^ 31) × Small o }
    ensures { result ≡ constant_in (neg_ℤ (pos h)) (pos (h - 1)) o }
{
    (o.kind == 1) & (o.group == 0) & fits_signed(h, o.value)
}

// A constant from a to 32767.
fn constant_from(a: usize, o: Operand) -> bool
    requires { Small o }
    ensures { result ≡ constant_in (pos a) (pos 32767) o }
{
    (o.kind == 1) & (o.group == 0) & fits_from(a, o.value)
}

// A group of X, Y or M of n = 1 to a quarter of w bits.
fn group_in(w: usize, o: Operand) -> bool
    requires { Small o }
    ensures { result ≡ group_in ec20 w o }
{
    (1 <= o.group) & (4 * o.group <= w) & in_range(4 * o.group, o)
}

// e words of D.
fn words_in(e: usize, o: Operand) -> bool
    requires { (e < 2 ^ 32) × Small o }
    ensures { result ≡ words_in ec20 e o }
{
    (o.kind == 7) & (o.group == 0) & in_range(e, o)
}

fn is_unused(o: Operand) -> bool
    ensures { result ≡ is_unused o }
{
    (o.kind == 0) & (o.group == 0) & (o.value == 0)
}

fn is_bit_read(o: Operand) -> bool
    requires { Small o }
    ensures { result ≡ is_bit_read ec20 o }
{
    one_of(2, o) | one_of(3, o) | one_of(4, o) | one_of(5, o) | one_of(6, o)
}

fn is_bit_written(o: Operand) -> bool
    requires { Small o }
    ensures { result ≡ is_bit_written ec20 o }
{
    one_of(3, o) | one_of(4, o)
}

// One more than the largest number of w bits.
fn half_of(w: usize) -> usize
    ensures { (result ≡ half w) × (0 < result) × (result ≤ 2 ^ 31) }
{
    if w == 16 { 32768 } else { 2147483648 }
}

// A source, by the kind of its operand: D, a constant, T, or a group of X, Y or M.
fn is_source(p: Place, o: Operand) -> bool
    requires { Small o }
    ensures { result ≡ is_source ec20 p o }
{
    let w = records::wide(p.width);
    let e = records::wide(p.extent);
    let k = o.kind;
    if k == 7 {
        return words_in(e, o);
    }
    if k == 1 {
        return constant_signed(half_of(w), o);
    }
    if k == 6 {
        return (w == 16) & one_of(6, o);
    }
    ((k == 2) | (k == 3) | (k == 4)) & group_in(w, o)
}

// A target: D, or a group of Y or M.
fn is_target(p: Place, o: Operand) -> bool
    requires { Small o }
    ensures { result ≡ is_target ec20 p o }
{
    let w = records::wide(p.width);
    let e = records::wide(p.extent);
    if o.kind == 7 {
        return words_in(e, o);
    }
    ((o.kind == 3) | (o.kind == 4)) & group_in(w, o)
}

// The operand is as the place's role allows: one test, by the role. Place and operand come as their parts: structs would be handed over in memory.
fn is_allowed(role: Role, width: u8, extent: u8, kind: usize, group: usize, value: usize) -> bool
    requires { Small (record { kind = kind; group = group; value = value }) }
    ensures { result ≡ allowed ec20 (place role width extent) (record { kind = kind; group = group; value = value }) }
{
    let p = Place {
        role,
        width,
        extent,
    };
    let o = Operand { kind, group, value };
    match role {
        Role::Unused => is_unused(o),
        Role::BitRead => is_bit_read(o),
        Role::BitWritten => is_bit_written(o),
        Role::Source => is_source(p, o),
        Role::Target | Role::Changed => is_target(p, o),
        Role::Quotient => words_in(records::wide(extent), o),
        Role::Timer => one_of(6, o),
        Role::Units => constant_from(1, o),
        Role::Passes => constant_from(0, o),
        Role::Label => one_of(8, o),
    }
}

// n words from a on meet WORK.
pub fn meets_work(a: usize, n: usize) -> bool
    requires { (a < 2 ^ 33) × (n < 2 ^ 33) }
    ensures { result ≡ meets_work ec20 a n }
{
    (a < 8000) & (7900 < a + n)
}

// The operand is a target whose extent meets WORK.
#[tactic(auto, unfolding(ec20::specs::Operands::in_work))]
fn in_work(p: Place, o: Operand) -> bool
    requires { Small o }
    ensures { result ≡ in_work ec20 p o }
{
    if matches!(p.role, Role::Target | Role::Changed | Role::Quotient) {
        return extents::in_d(o) & meets_work(extents::start(o), extents::length(p, o));
    }
    false
}

// Each operand is as the table allows. Most places are unused: such a one is tested where it stands, and the first operand that is not allowed
// ends it. The three are written out: into a function for one place the compiler puts is_allowed, and hands that function structs, which took
// 1.25 times as long.
#[tactic(auto, using(crate::proofs::Roles::unused), unfolding(ec20::specs::Operands::operands_ok))]
fn operands_ok(w: Row, r: Rec) -> bool
    requires { SmallRec r }
    ensures { result ≡ operands_ok ec20 w r }
{
    let p = w.first;
    let o = r.first;
    let one = match p.role {
        Role::Unused => is_unused(o),
        _ => is_allowed(p.role, p.width, p.extent, o.kind, o.group, o.value),
    };
    if !one {
        return false;
    }
    let p = w.second;
    let o = r.second;
    let two = match p.role {
        Role::Unused => is_unused(o),
        _ => is_allowed(p.role, p.width, p.extent, o.kind, o.group, o.value),
    };
    if !two {
        return false;
    }
    let p = w.third;
    let o = r.third;
    match p.role {
        Role::Unused => is_unused(o),
        _ => is_allowed(p.role, p.width, p.extent, o.kind, o.group, o.value),
    }
}

fn target_in_work(w: Row, r: Rec) -> bool
    requires { SmallRec r }
    ensures { result ≡ target_in_work ec20 w r }
{
    if in_work(w.first, r.first) {
        return true;
    }
    if in_work(w.second, r.second) {
        return true;
    }
    in_work(w.third, r.third)
}

// The number that refuses the record by its row: 2, 3, 4, or 0 for none.
#[tactic(auto, unfolding(ec20::specs::Operands::fault_of, ec20::specs::Operands::is_known))]
fn fault_of(w: Row, r: Rec) -> usize
    requires { SmallRec r }
    ensures { result ≡ fault_of ec20 w r }
{
    if w.known & (r.spare == 0) {
        if operands_ok(w, r) {
            if target_in_work(w, r) {
                return 4;
            }
            return 0;
        }
        return 3;
    }
    2
}

// The number that refuses the record.
fn fault_in(rows: &RowTable, r: Rec) -> usize
    requires small_rec { SmallRec r }
    ensures { result ≡ fault_in ec20 r }
{
    fault_of(rows.row_in(r.number), r)
}

// The first of the records that breaks 2, 3 or 4, by the table. No trailer need follow them.
pub fn first_bad_among(rows: &RowTable, f: &[u8], first: usize, count: usize) -> Result<(), Refusal>
    requires count_in_bounds { first + 20 * count ≤ length f.now }
    ensures { result ≡ first_bad ec20 (records_from f.now first count) }
{
    for k in 0..count {
        let n = fault_in(rows, records::record_from(f, first + 20 * k));
        if n != 0 {
            return Err(Refusal { number: n, at: k });
        }
    }
    Ok(())
}

// The first of the records that breaks 2, 3 or 4, by the table.
pub fn first_bad(rows: &RowTable, f: &[u8], first: usize, count: usize) -> Result<(), Refusal>
    requires held { Held (length f.now) first count }
    ensures { result ≡ first_bad ec20 (records_from f.now first count) }
{
    first_bad_among(rows, f, first, count)
}
