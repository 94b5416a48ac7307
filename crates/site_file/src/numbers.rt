// Numbers in four bytes, the lowest first.
ghost use Rattle.std.specs.Prelude.{◌≡◌, ◌+◌, ◌≤◌, length, get_or};
ghost use Rattle.site_file.specs.Bytes.{bytes4, word, unsigned, signed};
ghost use Rattle.column.specs.Column.{stored};

// The byte at a position, 0 past the end.
fn byte_at(file: &[u8], at: usize) -> u8
    ensures { result ≡ get_or file.now at 0 }
{
    file.get(at).copied().unwrap_or(0)
}

// The number in the four bytes at a position inside a file.
pub(super) fn whole_word(file: &[u8], at: usize) -> u32
    requires { at + 4 ≤ length file.now }
    ensures { result ≡ word file.now at }
{
    u32::from_le_bytes([file[at], file[at + 1], file[at + 2], file[at + 3]])
}

// The number in the four bytes at a position, bytes past the end being 0. A word of whole contents takes one test.
pub fn word_at(file: &[u8], at: usize) -> u32
    ensures { result ≡ word file.now at }
{
    if at <= 12 && 16 <= file.len() {
        return whole_word(file, at);
    }
    if file.len() < at {
        return 0;
    }
    let rest = &file[at..];
    u32::from_le_bytes([
        byte_at(rest, 0),
        byte_at(rest, 1),
        byte_at(rest, 2),
        byte_at(rest, 3),
    ])
}

// An unsigned number of 32 bits as a signed one.
pub(super) fn signed(n: u32) -> i32
    ensures { result ≡ signed n }
{
    n.cast_signed()
}

// A signed number of 32 bits as an unsigned one.
pub(super) fn unsigned(n: i32) -> u32
    ensures { result ≡ unsigned n }
{
    n.cast_unsigned()
}

// A number stored as four bytes.
pub(super) fn put_word(buffer: &mut [u8], at: usize, n: u32)
    requires { at + 4 ≤ length buffer.old }
    ensures { buffer.new ≡ stored at (bytes4 n) buffer.old }
{
    buffer[at..at + 4].copy_from_slice(&n.to_le_bytes());
}
