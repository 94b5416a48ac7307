// Writing two lists as a file.
ghost use Rattle.std.specs.Prelude.{◌≡◌, ◌+◌, ◌*◌, ◌≤◌, length};
ghost use mathlib.Core.List.{flat_map};
ghost use Rattle.site.specs.Answer.{afterwards, answer_of, refusal_of};
ghost use Rattle.site.specs.SiteList.{site, columns, lent_plane, sites};
ghost use Rattle.site.specs.Terms.{Level};
ghost use Rattle.column.specs.Column.{stored};
ghost use Rattle.site_file.specs.File.{site_bytes, contents_bytes};
ghost use Rattle.site_file.specs.Calls.{write_refusal, write_values, write_answer};

use super::numbers;
use site::Refusal;

// A site stored as twelve bytes.
fn put_site(buffer: &mut [u8], at: usize, x: i32, y: i32, number: u32)
    requires { at + 12 ≤ length buffer.old }
    ensures { buffer.new ≡ stored at (site_bytes (site x y number)) buffer.old }
{
    numbers::put_word(buffer, at, numbers::unsigned(x));
    numbers::put_word(buffer, at + 4, numbers::unsigned(y));
    numbers::put_word(buffer, at + 8, number);
}

// A list stored as the bytes of its sites.
fn put_sites(buffer: &mut [u8], start: usize, x: &[i32], y: &[i32], number: &[u32])
    requires x_in_bounds { start + 12 * length x.now ≤ length buffer.old }
    requires level { Level (columns x.now y.now number.now) }
    ensures { let c = (lent_plane x y number).entry in
        buffer.new ≡ stored start (flat_map site_bytes (sites c)) buffer.old }
{
    for i in 0..x.len() {
        put_site(buffer, start + 12 * i, x[i], y[i], number[i]);
    }
}

// A file's contents: for each list its start and its site count.
fn put_contents(buffer: &mut [u8], n: u32, m: u32)
    requires { (16 ≤ length buffer.old) × (n ≤ 65_535) }
    ensures { buffer.new ≡ stored 0 (contents_bytes n m) buffer.old }
{
    numbers::put_word(buffer, 0, 16);
    numbers::put_word(buffer, 4, n);
    numbers::put_word(buffer, 8, 16 + 12 * n);
    numbers::put_word(buffer, 12, m);
}

// Whether writing two lists into a buffer of `room` bytes is refused: for 1, 2, 3 or 6.
fn write_refusal(
    ax: &[i32],
    ay: &[i32],
    an: &[u32],
    bx: &[i32],
    by: &[i32],
    bn: &[u32],
    room: usize,
) -> Result<(), Refusal>
    ensures { let a = (lent_plane ax ay an).entry in
        let b = (lent_plane bx by bn).entry in
        refusal_of result ≡ write_refusal a b room }
{
    site::plane_refusal(ax, ay, an)?;
    site::plane_refusal(bx, by, bn)?;
    if room < 16 + 12 * ax.len() + 12 * bx.len() {
        return Err(Refusal::Room);
    }
    Ok(())
}

// Writes two lists as a file: its length, or the refusal.
pub fn write(
    ax: &[i32],
    ay: &[i32],
    an: &[u32],
    bx: &[i32],
    by: &[i32],
    bn: &[u32],
    buffer: &mut [u8],
) -> Result<u32, Refusal>
    ensures { let a = (lent_plane ax ay an).entry in
        let b = (lent_plane bx by bn).entry in
        let answer = write_answer a b buffer.old in
        (answer_of (write_values buffer.new) result ≡ answer)
        × (buffer.new ≡ afterwards (λ v. v.buffer) answer buffer.old) }
{
    write_refusal(ax, ay, an, bx, by, bn, buffer.len())?;
    let n = ax.len();
    let m = bx.len();
    put_contents(buffer, n as u32, m as u32);
    put_sites(buffer, 16, ax, ay, an);
    put_sites(buffer, 16 + 12 * n, bx, by, bn);
    Ok((16 + 12 * n + 12 * m) as u32)
}
