// Of two declaration texts, the one that holds the longer block.
ghost use Rattle.units.specs.Text.{told_by_longer};
ghost use Rattle.std.specs.Prelude.{◌≡◌};

use longer::Part;

// The first line of whichever text holds the longer block, the first text's if equal: which text, 1 or 2 (0: either is misspelt), and how many bytes its
// first line has (0: there is none).
#[unsafe(no_mangle)]
pub extern "C" fn ninhalto_longer(one: &[u8], two: &[u8], text: &mut usize, size: &mut usize)
    ensures text_after { text.new ≡ (told_by_longer one.now two.now).text }
    ensures size_after { size.new ≡ (told_by_longer one.now two.now).size }
{
    match longer::which(one, two) {
        Some(Part::First(n)) => {
            *text = 1;
            *size = n;
        }
        Some(Part::Second(n)) => {
            *text = 2;
            *size = n;
        }
        None => {
            *text = 0;
            *size = 0;
        }
    }
}
