// A page: text that is put down in order, and only counted where the page has no room for it.
ghost use Rattle.std.specs.Prelude.{◌≡◌};
ghost use Rattle.listing.specs.Pages.{Printed};

use itoa::{Buffer, Integer};

// So a run over an empty page tells the room that the same run needs.
// A slice with a count beside it, since the library takes no memory of its own; and not the bounded list, which
// refuses what does not fit.
#[derive(Drop)]
pub(crate) struct Page<'a> {
    bytes: &'a mut [u8],
    count: usize,
}

impl<'a> Page<'a> {
    pub(crate) fn new(bytes: &'a mut [u8]) -> Page<'a>
        ensures lender { result.bytes.ghost_name ≡ bytes.entry.ghost_name }
        ensures bytes { result.bytes.now ≡ bytes.old }
        ensures count { result.count ≡ 0 }
    {
        Page { bytes, count: 0 }
    }

    // How many bytes were put down or counted.
    pub(crate) fn count(&self) -> usize
        ensures { result ≡ self.now.count }
    {
        self.count
    }

    // `Printed` is of the page before and after: a page alone does not keep what it only counts.
    pub(crate) fn put(&mut self, text: &[u8])
        ensures { Printed self.old text.now self.new }
    {
        let at = self.count;
        let to = at.saturating_add(text.len());
        self.count = to;
        if to <= self.bytes.len() {
            self.bytes[at..to].copy_from_slice(text);
        }
    }

    // A number in base ten, without leading zeros, a minus sign before one below zero.
    #[inline(always)]
    pub(crate) fn put_number<I: Integer>(&mut self, number: I)
        ensures { Printed self.old (I.text number) self.new }
    {
        // Byte by byte: a copy of a length known only when it runs would call `memcpy`, which the archive for C
        // would then want from outside.
        for byte in Buffer::new().format(number).as_bytes() {
            self.put(&[*byte]);
        }
    }
}
