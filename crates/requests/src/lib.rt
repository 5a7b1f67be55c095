// The answer to a Modbus frame, over M, D and a reply buffer.
#![tactic(auto)]

ghost use Rattle.std.specs.Prelude.{◌≤◌, length, true, Ok, ◌≡◌};
ghost use Rattle.modbus.specs.Answer.{judge_answer, heard, answer_of};
ghost use Rattle.modbus.specs.Frame.{function_of, byte_count_of, length_fits, is_broadcast};
ghost use Rattle.requests.specs.Fit.{Fit};

mod hearing;
mod replies;
mod writes;

use ec20::Refusal;

// 9, then 16: by the sizes of M, D and the reply buffer, and the station.
fn judge(own: usize, m: &[u8], d: &[i16], reply: &[u8]) -> Result<(), Refusal>
    ensures { result ≡ judge_answer own m.now d.now reply.now }
{
    if !((m.len() == 250) & (d.len() == 8000)) {
        return Err(Refusal { number: 9, at: 0 });
    }
    if !((1 <= own) & (own <= 247) & (256 <= reply.len())) {
        return Err(Refusal { number: 16, at: 0 });
    }
    Ok(())
}

// A request without an exception: what it writes, and the reply, which a broadcast does not get.
fn good(
    n: usize,
    quiet: bool,
    f: &[u8],
    m: &mut [u8],
    d: &mut [i16],
    reply: &mut [u8],
) -> Option<usize>
    requires { (n ≡ function_of f.now) × (quiet ≡ is_broadcast f.now) × Fit f.now × (length m.old ≡ 250) × (length d.old ≡ 8000) × (256 ≤ length reply.old) }
    ensures { record { answer = Ok result; m = m.new; d = d.new; reply = reply.new } ≡ heard f.now m.old d.old reply.old }
{
    if quiet {
        writes::write_coils(n, f, m);
        writes::write_registers(n, f, d);
        return None;
    }
    let k = replies::told(n, f, m, d, reply);
    writes::write_coils(n, f, m);
    writes::write_registers(n, f, d);
    Some(replies::close(reply, k))
}

// A frame that is heard.
fn heard(f: &[u8], m: &mut [u8], d: &mut [i16], reply: &mut [u8]) -> Option<usize>
    requires { (length_fits (function_of f.now) (byte_count_of f.now) (length f.now) ≡ true) × (length m.old ≡ 250) × (length d.old ≡ 8000) × (256 ≤ length reply.old) }
    ensures { record { answer = Ok result; m = m.new; d = d.new; reply = reply.new } ≡ heard f.now m.old d.old reply.old }
{
    let all = frames::byte_at(f, 0) == 0;
    let n = frames::byte_at(f, 1);
    let Some(e) = frames::exception_of(f) else {
        return good(n, all, f, m, d, reply);
    };
    if all {
        return None;
    }
    let k = replies::exception_told(f, frames::code(e), reply);
    Some(replies::close(reply, k))
}

// The frame f at the station own: refused by 9 or 16, nothing sent, or a reply of so many bytes at the start of the buffer.
pub fn answer(
    own: u32,
    f: &[u8],
    m: &mut [u8],
    d: &mut [i16],
    reply: &mut [u8],
) -> Result<Option<usize>, Refusal>
    ensures { record { answer = result; m = m.new; d = d.new; reply = reply.new } ≡ answer_of own f.now m.old d.old reply.old }
{
    judge(own as usize, m, d, reply)?;
    if !hearing::is_heard(own as usize, f) {
        return Ok(None);
    }
    Ok(heard(f, m, d, reply))
}
