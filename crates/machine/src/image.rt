// The state's image: read from its bytes, and written to them.
ghost use Rattle.std.specs.Prelude.{◌≡◌, ◌^◌, ◌≤◌, ◌<◌, length};
ghost use Rattle.std.proofs.lemmas.List.Edits.{sets};
ghost use Rattle.machine.specs.Image.{image_offset, place_in, link_in, cell_in, registers_in, cell_bytes, image_of};
ghost use Rattle.machine.specs.State.{cell_of, registers_of, Sized};

use crate::{Cell, State};
use isa::Place;
use word::number::{put_word, word_at};

// Where register `r` stands in the image, and the link after the last.
pub fn offset(r: usize) -> usize
    requires { r ≤ 288 }
    ensures { result ≡ image_offset r }
{
    4 + 10 * r
}

fn register_at(image: &[u8], r: usize) -> Cell
    requires { (length image.now ≡ 2888) × (r < 288) }
    ensures { cell_of result ≡ cell_in image.now r }
{
    let at = offset(r);
    Cell {
        value: word_at(image, at),
        waiting: word_at(image, at + 4),
        busy: image[at + 8],
        landing: image[at + 9],
    }
}

// The state that an image holds.
pub fn read(image: &[u8]) -> State
    requires { length image.now ≡ 2888 }
    ensures sized { Sized result }
    ensures place_value { (result.place.0 ≡ place_in image.now) × (registers_of result ≡ registers_in image.now) × (result.link.0 ≡ link_in image.now) }
{
    let place = Place(word_at(image, 0) as usize);
    let link = Place(word_at(image, offset(288)) as usize);
    let mut s = State::still(place, link);
    for r in 0..288 {
        s.put(r, register_at(image, r));
    }
    s
}

// Over what the image holds of register `r`.
fn put_register(image: &mut [u8], r: usize, c: Cell)
    requires { (length image.old ≡ 2888) × (r < 288) }
    ensures { image.new ≡ sets image.old (image_offset r) (cell_bytes (cell_of c)) }
{
    let at = offset(r);
    put_word(image, at, c.value);
    put_word(image, at + 4, c.waiting);
    image[at + 8] = c.busy;
    image[at + 9] = c.landing;
}

// The state's image, over all that `image` held.
pub fn write(image: &mut [u8], s: &State)
    requires image_len { length image.old ≡ 2888 }
    requires sized { Sized s.now }
    requires place_bound { (s.now.place.0 < 2 ^ 32) × (s.now.link.0 < 2 ^ 32) }
    ensures { image.new ≡ image_of s.now.place.0 (registers_of s.now) s.now.link.0 }
{
    // Sized is asked, since behind a reference the type does not tell the arrays' lengths
    put_word(image, 0, s.place.0 as u32);
    for r in 0..288 {
        put_register(image, r, s.register(r));
    }
    put_word(image, offset(288), s.link.0 as u32);
}
