// Consulting a file site by site, through a reader that holds it and both starts.
ghost use Rattle.std.specs.Prelude.{◌≡◌};
ghost use Rattle.site.specs.Answer.{answer_of};
ghost use Rattle.site_file.specs.File.{site_of_file, start_in};
ghost use Rattle.site_file.specs.ReaderAnswer.{held_start, reader_answer};
ghost use Rattle.site_file.specs.Calls.{site_answer};

use super::{FileSite, Reader, Which, numbers, reading};
use site::Refusal;

// The held start of a list.
fn held_start(first: u32, second: u32, which: Which) -> u32
    ensures { result ≡ held_start first second which }
{
    match which {
        Which::First => first,
        Which::Second => second,
    }
}

// Consults a file through held starts: the site of a list at a place, or the refusal.
fn site_from(
    file: &[u8],
    first: u32,
    second: u32,
    which: Which,
    place: u32,
) -> Result<FileSite, Refusal>
    ensures { answer_of site_of_file result ≡ reader_answer file.now first second which place }
{
    reading::contents_refusal(file)?;
    if numbers::word_at(file, 0) != first || numbers::word_at(file, 8) != second {
        return Err(Refusal::File);
    }
    let count = reading::count_in(file, which);
    if count <= place {
        return Err(Refusal::Place);
    }
    Ok(reading::site_at(
        file,
        (held_start(first, second, which) + 12 * place) as usize,
    ))
}

// A reader of a file, accepted or not.
pub fn open<'a>(file: &'a [u8]) -> Reader<'a>
    ensures { (result.file ≡ file.entry)
        × (result.first ≡ start_in file.now Which.First)
        × (result.second ≡ start_in file.now Which.Second) }
{
    Reader {
        file,
        first: numbers::word_at(file, 0),
        second: numbers::word_at(file, 8),
    }
}

// The site of a reader's file at a place of a list, or the refusal.
pub fn site_in<'a>(r: Reader<'a>, which: Which, place: u32) -> Result<FileSite, Refusal>
    ensures { let reader = r.entry in
        answer_of site_of_file result ≡ reader_answer reader.file.now reader.first reader.second which place }
{
    site_from(r.file, r.first, r.second, which, place)
}

// Consults a file through a reader of it: the site of a list at a place, or the refusal. Only that site is copied.
pub fn consult(file: &[u8], which: Which, place: u32) -> Result<FileSite, Refusal>
    ensures { answer_of site_of_file result ≡ site_answer file.now which place }
{
    site_in(open(file), which, place)
}
