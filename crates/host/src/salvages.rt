// The salvage of a torn file.
ghost use Rattle.torn.specs.Salvage.{salvage_of, told_by_salvage};
ghost use Rattle.std.specs.Prelude.{◌≡◌};

// What is kept of the torn file, as a proper file in `out`: the number of the refusal (0: done) and the record told, the records kept, the END records added,
// 0 or 1, and the bytes of the torn file after those kept.
#[unsafe(no_mangle)]
pub extern "C" fn ninhalto_salvage(
    torn: &[u8],
    out: &mut [u8],
    number: &mut usize,
    at: &mut usize,
    kept: &mut usize,
    added: &mut usize,
    rest: &mut usize,
)
    ensures out_after { out.new ≡ (salvage_of torn.now out.old).out }
    ensures number_after { number.new ≡ (told_by_salvage (salvage_of torn.now out.old).answer).number }
    ensures at_after { at.new ≡ (told_by_salvage (salvage_of torn.now out.old).answer).at }
    ensures kept_after { kept.new ≡ (told_by_salvage (salvage_of torn.now out.old).answer).kept }
    ensures added_after { added.new ≡ (told_by_salvage (salvage_of torn.now out.old).answer).added }
    ensures rest_after { rest.new ≡ (told_by_salvage (salvage_of torn.now out.old).answer).rest }
{
    match salvage::salvage(torn, out) {
        Err(refusal) => {
            *number = refusal.number;
            *at = refusal.at;
            *kept = 0;
            *added = 0;
            *rest = 0;
        }
        Ok(saved) => {
            *number = 0;
            *at = 0;
            *kept = saved.kept;
            *added = saved.added;
            *rest = saved.rest;
        }
    }
}
