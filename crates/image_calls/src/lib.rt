// Loading and writing an image. Each takes any bytes, and its contract determines the whole answer on all of them.
#![tactic(auto)]

ghost use Rattle.std.specs.Prelude.{◌≡◌, length};
ghost use Rattle.image.specs.Image.{image_answer, standard, load_answer, write_answer, written};

use calls::fresh;
use check_floor::well_formed;
use floor::{Answer, Floor, Refusal, Settings};
use image::Written;
use image_read::{read_image, refused};
use image_write::{image_length, write_image};

// The settings of a blank controller: hopper 10, fill tile 4.
fn standard_settings() -> Settings
    ensures { result ≡ standard }
{
    Settings {
        columns: 4,
        rows: 4,
        hoppers: 1024,
        sources: 16,
        width: 1000,
        length: 250,
        gap: 50,
        travel: 200,
    }
}

// The floor of bytes as records; refused, the all-zero floor, which the check then looks at too. One way out: each costs a
// copy.
fn load_image(bytes: &[u8]) -> Answer
    ensures { result ≡ image_answer bytes.now }
{
    let r = read_image(bytes);
    let f = r.floor;
    let well = well_formed(f);
    let mut out = r;
    if (r.refusal == 0) & !well {
        out = refused(u8::from(Refusal::ImageMalformed));
    }
    out
}

// The floor of an image; zero bytes load the standard floor. One way out, and the fresh floor has a variable of its own:
// else every load costs a copy more.
pub fn load(bytes: &[u8]) -> Answer
    ensures { result ≡ load_answer bytes.now }
{
    let mut out = load_image(bytes);
    if bytes.len() == 0 {
        let made = fresh(standard_settings());
        out = made;
    }
    out
}

// Writes the image of a floor to the front of the buffer; refused, not a byte changes.
pub fn write(floor: Floor, buffer: &mut [u8]) -> Written
    ensures { (result ≡ write_answer floor (length buffer.old)) × (buffer.new ≡ written floor buffer.old) }
{
    let well = well_formed(floor);
    if !well {
        return Written::refused(Refusal::Malformed);
    }
    let n = image_length(floor);
    if buffer.len() < n as usize {
        return Written::refused(Refusal::ShortBuffer);
    }
    write_image(floor, buffer);
    Written {
        refusal: 0,
        length: n,
    }
}
