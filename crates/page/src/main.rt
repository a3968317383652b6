// The page program: reads an image from standard input and prints its floor as a page, or the number that it is refused by.
#![tactic(auto)]

ghost use Rattle.std.specs.Prelude.{◌≡◌, ◌≤◌, length, take};
ghost use Rattle.page.specs.Printed.{refused_text, printed};

// The line of a refusal by number n, at the front of a text; gives its length.
fn put_refused(text: &mut [u8], n: u8) -> usize
    requires { 11 ≤ length text.old }
    ensures { (result ≤ 11) × (take result text.new ≡ refused_text n) }
{
    text[..8].copy_from_slice(b"refused ");
    if n < 10 {
        text[8] = b'0' + n;
        text[9] = b'\n';
        return 10;
    }
    text[8] = b'0' + n / 10;
    text[9] = b'0' + n % 10;
    text[10] = b'\n';
    11
}

// What is printed for the bytes of an image, at the front of a text that has room for the longest page; gives its length.
fn tell(bytes: &[u8], text: &mut [u8]) -> usize
    requires { 528 ≤ length text.old }
    ensures { (result ≤ length text.new) × (take result text.new ≡ printed bytes.now) }
{
    let loaded = image_calls::load(bytes);
    if loaded.refusal != 0 {
        return put_refused(text, loaded.refusal);
    }
    let written = page_call::page(loaded.floor, text);
    written.length as usize
}

// A read that fails is no end of the input: what came before it is not taken for an image.
fn main(rt: HostRuntime) {
    let mut bytes = image_input::room();
    let mut file = rt.stdin();
    let Ok(n) = image_input::read_input(&mut file, &mut bytes) else {
        let _ = rt.eprint("page: standard input can't be read\n");
        return;
    };
    let mut text = [0; 528];
    let k = tell(&bytes[..n], &mut text);
    let _ = rt.write_all(&text[..k]);
}
