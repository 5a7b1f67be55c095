// An exchange of D words in the bytes of a memory file.
ghost use Rattle.std.specs.Prelude.{ℕ, eqb, ◌≡◌};
ghost use Rattle.ec20.specs.Basics.{pick};
ghost use Rattle.ec20.specs.Exchange.{exchange_of};
ghost use Rattle.ec20.specs.Move.{block};
ghost use Rattle.ec20.specs.Exchanged.{Refused};
ghost use Rattle.image.specs.Image.{plant_of, image_of};
ghost use Rattle.memories.specs.Images.{exchange_in};

use crate::tables;
use ec20::Refusal;

// A block of D words, by its start and length, and the start of the place that it changes places with.
#[derive(Clone, Copy)]
pub struct Way {
    pub start: u32,
    pub length: u32,
    pub place: u32,
}

// The exchange in the table D of a memory file of so many bytes: one of another size is refused by 9.
fn in_words(d: &mut [i16], size: usize, w: Way) -> Result<(), Refusal>
    ensures { record { answer = result; words = d.new } ≡ pick (eqb size 16892) (exchange_of d.old (block w.start w.length) w.place) (record { answer = Refused 9 0; words = d.old }) }
{
    if size == 16892 {
        return exchange::exchange(d, w.start, w.length, w.place);
    }
    Err(Refusal { number: 9, at: 0 })
}

// The exchange in the memory of the image, which is then the one after it; the leftovers stay. size: how many bytes the memory file has. A refused one
// changes no byte.
pub fn in_image(image: &mut [u8; 16892], size: usize, w: Way) -> Result<(), Refusal>
    ensures value { result ≡ (exchange_in size (block w.start w.length) w.place (plant_of image.old)).answer }
    ensures image_after { plant_of image.new ≡ (exchange_in size (block w.start w.length) w.place (plant_of image.old)).plant }
    ensures image_after_2 { image.new ≡ image_of (exchange_in size (block w.start w.length) w.place (plant_of image.old)).plant }
    ensures by_index { (m k : ℕ) → result ≡ Refused m k → image.new ≡ image.old }
{
    let mut tables = tables::split(image);
    let exchanged = in_words(&mut tables.d, size, w);
    tables::join(tables, image);
    exchanged
}
