// Numbers as two bytes, the low one first.
ghost use Rattle.std.specs.Prelude.{◌≡◌, ◌+◌, ◌*◌, ◌≤◌, length};
ghost use Rattle.reading.specs.Lists.{put_from};
ghost use Rattle.stored.specs.Words.{split};

// Writes a number at an index, where the bytes are taken two by two.
pub(crate) fn put_word(bytes: &mut [u8], i: usize, number: u16)
    requires { 2 * i + 2 ≤ length bytes.old }
    ensures { bytes.new ≡ put_from (2 * i) (split number) bytes.old }
{
    // `as_chunks_mut` promises nothing of what the bytes end as.
    bytes[2 * i..2 * i + 2].copy_from_slice(&number.to_le_bytes());
}
