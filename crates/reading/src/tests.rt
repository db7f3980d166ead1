// The ends of the scale, a list that fills up, and a refusal as text.
use crate::list::Readings;
use crate::refusals::{Refusal, Site};
use crate::scale::Reading;
use crate::slots::Bounded;
use std::test::Fail;

// One line, as in other tests: no library crate has it.
fn of(value: i32, weight: u32) -> Reading {
    Reading { value, weight }
}

#[test]
fn the_scale_ends_where_it_says(rt: HostRuntime) {
    for end in [of(-30_000, 1), of(30_000, 1_000)] {
        assert_eq!(rt; end.admit(1), Ok(end));
    }
    for off in [of(-30_001, 0), of(30_001, 1)] {
        assert_eq!(rt; off.admit(4), Err(Refusal::ValueOffScale { place: 4 }));
    }
    for off in [of(0, 0), of(0, 1_001)] {
        assert_eq!(rt; off.admit(5), Err(Refusal::WeightOffScale { place: 5 }));
    }
}

#[test]
fn a_list_of_readings_stops_before_the_first_off_the_scale(rt: HostRuntime) {
    let rows = [of(3, 2), of(4, 1), of(5, 0), of(3, 2)];
    let list = Readings::of(&rows);
    assert_eq!(rt; list.len(), 2);
    assert_eq!(rt; list.at(0), None);
    assert_eq!(rt; list.at(1), Some(of(3, 2)));
    assert_eq!(rt; list.at(3), None);
    assert_eq!(rt; list.stretch(2, 9).at(1), Some(of(4, 1)));
    assert_eq!(rt; list.stretch(3, 2).len(), 0);
    assert_eq!(rt; Readings::none().len(), 0);
}

#[test]
fn a_full_list_refuses_and_stays(rt: HostRuntime) {
    let mut slots = [9u8; 3];
    let mut list = Bounded::new(&mut slots);
    assert_eq!(rt; list.push(1), Ok(1));
    assert_eq!(rt;
        list.extend(&[2, 3, 4]),
        Err(Refusal::TooLittleRoom { needed: 4 })
    );
    assert_eq!(rt; list.count(), 1);
    assert_eq!(rt; list.extend(&[2]), Ok(2));
    assert_eq!(rt; list.entries(), [1, 2].as_slice());
    assert_eq!(rt; list.push(3), Ok(3));
    assert_eq!(rt; list.push(4), Err(Refusal::TooLittleRoom { needed: 4 }));
    let back: &[u8] = list.into_slots();
    assert_eq!(rt; back, [1, 2, 3].as_slice());
}

#[test]
fn a_refusal_tells_its_number_place_and_site(rt: HostRuntime) -> Result<(), Fail> {
    let heap = rt.alloc();
    assert_eq!(rt;
        format!(in heap; "{}", Refusal::UnknownLetter { byte: 88 })?.as_str(),
        "refused 8 88"
    );
    assert_eq!(rt;
        format!(in heap; "{}", Refusal::SizesDiffer)?.as_str(),
        "refused 10 0"
    );
    assert_eq!(rt; Refusal::NothingHeld.site(), Site::AtProfile);
    assert_eq!(rt; Refusal::TooMany { size: 1_025 }.site(), Site::AtStored);
    Ok(())
}
