// A floor shown as its page, and kept in a file as its image: written whole and only then put in the place of an older file;
// read to its end or not at all.
#![tactic(auto)]

use floor::{Answer, Floor};
use std::fs::OpenFile;
use std::io::Write;
use std::rt::Files;
use std::{fs, io};

// The page of a floor; nothing of one that isn't well formed.
pub fn show(rt: &impl Print, floor: Floor) {
    let mut text = [0u8; 528];
    let n = page_call::page(floor, &mut text).length as usize;
    if n <= text.len() {
        let _ = rt.write_all(&text[..n]);
    }
}

// Writes a file anew; it is done when all bytes have reached its device.
fn write_new(rt: &impl Files, name: &str, bytes: &[u8]) -> io::Result<()> {
    let mut file = fs::create(rt, name)?;
    file.write_all(bytes)?;
    file.sync_all()
}

// Puts bytes in a file's place, by a new file, which has the other's name, of at most 400 bytes, and `.new`. None: they are
// not there, and the old file stays as it was.
fn replace(rt: &impl Files, path: &[u8], bytes: &[u8]) -> Option<()> {
    let n = path.len();
    if 400 < n {
        return None;
    }
    let mut name = [0u8; 404];
    name[..n].copy_from_slice(path);
    name[n..n + 4].copy_from_slice(b".new");
    let first = str::from_utf8(&name[..n + 4]).ok()?;
    let last = str::from_utf8(path).ok()?;
    write_new(rt, first, bytes).ok()?;
    fs::rename(rt, first, last).ok()
}

// Why a floor was not saved: the number that the library refuses by, or the file can't be written.
#[derive(Clone, Copy, PartialEq, Eq)]
pub enum Unsaved {
    Refused(u8),
    Unwritten,
}

// Keeps a floor in a file; gives the image's length.
pub fn save(rt: &impl Files, floor: Floor, path: &[u8]) -> Result<u32, Unsaved> {
    let mut image = [0u8; 8908];
    let written = image_calls::write(floor, &mut image);
    if written.refusal != 0 {
        return Err(Unsaved::Refused(written.refusal));
    }
    let n = written.length as usize;
    if image.len() < n {
        return Err(Unsaved::Unwritten);
    }
    match replace(rt, path, &image[..n]) {
        Some(()) => Ok(written.length),
        None => Err(Unsaved::Unwritten),
    }
}

// Opens a file to read it.
fn open_old<R: Files>(rt: &R, path: &[u8]) -> Option<R::File> {
    let name = str::from_utf8(path).ok()?;
    fs::open(rt, name).ok()
}

// The library's answer to the file's bytes. None: the file can't be opened, or not read to its end; then the library gets no
// bytes, because none would be an empty image.
pub fn load(rt: &impl Files, path: &[u8]) -> Option<Answer> {
    let mut file = open_old(rt, path)?;
    let mut bytes = image_input::room();
    let n = image_input::read_input(&mut file, &mut bytes).ok()?;
    Some(image_calls::load(&bytes[..n]))
}
