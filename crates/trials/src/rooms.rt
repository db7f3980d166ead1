// The listing into every room, from none to more than enough: it is the same, and what is beyond it stays.
use crate::ROOM;
use listing::listing;
use reading::Refusal;
use std::io;

// What an output holds before a call.
pub(crate) const FILLER: u8 = 0xee;

pub(crate) fn untouched(bytes: &[u8]) -> bool {
    bytes.iter().all(|&byte| byte == FILLER)
}

// Whether the listing into so much room is the whole one or none, and left everything else as it was.
fn keeps(input: &[u8], whole: &[u8], room: usize) -> bool {
    let mut output = [FILLER; ROOM];
    match listing(input, &mut output[..room.min(ROOM)]) {
        Ok(count) => &output[..count] == whole && untouched(&output[count..]),
        Err(Refusal::TooLittleRoom { needed }) => needed > room && untouched(&output),
        Err(_) => false,
    }
}

pub(crate) fn each_room(rt: &impl Print, input: &[u8]) -> io::Result<()> {
    let mut text = [FILLER; ROOM];
    let Ok(length) = listing(input, &mut text) else {
        return println!(rt; "rooms: the listing was refused");
    };
    let whole = &text[..length];
    let kept = (0..=ROOM).filter(|&room| keeps(input, whole, room)).count();
    println!(rt; "rooms 0 to {ROOM}: {kept} left what they should")
}
