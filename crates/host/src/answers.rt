// The answer to a Modbus request.
ghost use Rattle.modbus.specs.Answer.{answer_of, told_by_answer};
ghost use Rattle.std.specs.Prelude.{◌≡◌};

// The frame f at a station, over M, D and a reply buffer: the number of the refusal (0: none); 0 refused, 1 silent, 2 a reply; and of how many bytes,
// from the start of the buffer on (0: there is none).
#[unsafe(no_mangle)]
pub extern "C" fn ninhalto_answer(
    station: u32,
    f: &[u8],
    m: &mut [u8],
    d: &mut [i16],
    reply: &mut [u8],
    number: &mut usize,
    kind: &mut usize,
    length: &mut usize,
)
    ensures m_after { m.new ≡ (answer_of station f.now m.old d.old reply.old).m }
    ensures d_after { d.new ≡ (answer_of station f.now m.old d.old reply.old).d }
    ensures reply_after { reply.new ≡ (answer_of station f.now m.old d.old reply.old).reply }
    ensures number_after { number.new ≡ (told_by_answer (answer_of station f.now m.old d.old reply.old).answer).number }
    ensures kind_after { kind.new ≡ (told_by_answer (answer_of station f.now m.old d.old reply.old).answer).kind }
    ensures length_after { length.new ≡ (told_by_answer (answer_of station f.now m.old d.old reply.old).answer).length }
{
    match requests::answer(station, f, m, d, reply) {
        Err(refusal) => {
            *number = refusal.number;
            *kind = 0;
            *length = 0;
        }
        Ok(None) => {
            *number = 0;
            *kind = 1;
            *length = 0;
        }
        Ok(Some(l)) => {
            *number = 0;
            *kind = 2;
            *length = l;
        }
    }
}
