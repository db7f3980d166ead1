// Numbers on a page, the listing of a sample, and its answers in plain numbers.
use crate::export::{Answer, fit_listing};
use crate::page::Page;
use crate::prints::listing;
use reading::Refusal;

// S and the reading -1 of weight 1,000.
const SAMPLE: [u8; 9] = [b'S', 1, 0, 1, 0, 0xff, 0xff, 0xe8, 0x03];

// The answer of a refusal.
fn told_to_c(number: u32, place: u64, site: u32) -> Answer {
    Answer {
        written: 0,
        place,
        number,
        site,
    }
}

#[test]
fn numbers_are_written_in_base_ten(rt: HostRuntime) {
    let mut bytes = [b'.'; 64];
    let mut page = Page::new(&mut bytes);
    for number in [0, 9, -9, 10, -30_000, 30_000, i32::MIN] {
        page.put_number(number);
        page.put(b" ");
    }
    page.put_number(u64::MAX);
    assert_eq!(rt; page.count(), 55);
    assert_eq!(rt;
        bytes,
        *b"0 9 -9 10 -30000 30000 -2147483648 18446744073709551615........."
    );
}

#[test]
fn a_page_counts_what_it_has_no_room_for(rt: HostRuntime) {
    let mut bytes = [b'.'; 4];
    let mut page = Page::new(&mut bytes);
    page.put(b"abc");
    page.put(b"de");
    page.put(b"f");
    assert_eq!(rt; page.count(), 6);
    assert_eq!(rt; bytes, *b"abc.");
}

#[test]
fn a_listing_fits_or_is_refused_whole(rt: HostRuntime) {
    let mut output = [b'.'; 22];
    assert_eq!(rt; listing(&SAMPLE, &mut output), Ok(21));
    assert_eq!(rt; output, *b"measure S readings 1\n.");
    let mut output = [b'.'; 20];
    assert_eq!(rt;
        listing(&SAMPLE, &mut output),
        Err(Refusal::TooLittleRoom { needed: 21 })
    );
    assert_eq!(rt; output, [b'.'; 20]);
}

#[test]
fn an_answer_in_numbers_tells_the_same(rt: HostRuntime) {
    let mut output = [b'.'; 22];
    assert_eq!(rt;
        fit_listing(&SAMPLE, &mut output),
        Answer {
            written: 21,
            place: 0,
            number: 0,
            site: 0,
        }
    );
    assert_eq!(rt; fit_listing(b"?", &mut output), told_to_c(8, 63, 4));
    assert_eq!(rt; fit_listing(b"A", &mut output), told_to_c(9, 0, 5));
    assert_eq!(rt; fit_listing(&SAMPLE, &mut []), told_to_c(7, 21, 3));
}
