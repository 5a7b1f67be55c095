// A Modbus request, answered over the bytes of a memory file.
ghost use Rattle.std.specs.Prelude.{ℕ, eqb, ◌≡◌};
ghost use Rattle.ec20.specs.Basics.{pick};
ghost use Rattle.image.specs.Image.{plant_of, image_of};
ghost use Rattle.memories.specs.Images.{answer_in};
ghost use Rattle.modbus.specs.Answer.{answer_of};
ghost use Rattle.modbus.specs.Answered.{Refused};

use crate::tables;
use ec20::Refusal;

// The request over the tables M and D of a memory file of so many bytes: one of another size is refused by 9.
fn in_tables(
    m: &mut [u8],
    d: &mut [i16],
    size: usize,
    station: u32,
    frame: &[u8],
    reply: &mut [u8],
) -> Result<Option<usize>, Refusal>
    ensures { record { answer = result; m = m.new; d = d.new; reply = reply.new } ≡ pick (eqb size 16892) (answer_of station frame.now m.old d.old reply.old) (record { answer = Refused 9 0; m = m.old; d = d.old; reply = reply.old }) }
{
    if size == 16892 {
        return requests::answer(station, frame, m, d, reply);
    }
    Err(Refusal { number: 9, at: 0 })
}

// The frame at the station, over M and D of the image, which is then the memory after it; the leftovers stay. size: how many bytes the memory file has.
// A refused call changes no byte.
pub fn in_image(
    image: &mut [u8; 16892],
    size: usize,
    station: u32,
    frame: &[u8],
    reply: &mut [u8],
) -> Result<Option<usize>, Refusal>
    ensures value { result ≡ (answer_in size station frame.now (plant_of image.old) reply.old).answer }
    ensures image_after { plant_of image.new ≡ (answer_in size station frame.now (plant_of image.old) reply.old).plant }
    ensures image_after_2 { image.new ≡ image_of (answer_in size station frame.now (plant_of image.old) reply.old).plant }
    ensures by_index { (m k : ℕ) → result ≡ Refused m k → image.new ≡ image.old }
    ensures reply_after { reply.new ≡ (answer_in size station frame.now (plant_of image.old) reply.old).reply }
{
    let mut tables = tables::split(image);
    let answer = in_tables(&mut tables.m, &mut tables.d, size, station, frame, reply);
    tables::join(tables, image);
    answer
}
