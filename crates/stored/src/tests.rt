// Worked bytes, each refusal at its first and last place, and the sizes at the limit.
use crate::reads::{check as check_stored, read};
use crate::writes::write;
use reading::{Reading, Readings, Refusal};
use std::alloc::{AllocError, Global};
use std::test::Fail;

const ROWS: [Reading; 2] = [
    Reading {
        value: 258,
        weight: 1,
    },
    Reading {
        value: -1,
        weight: 1_000,
    },
];

const WORKED: [u8; 12] = [
    0x02, 0x00, 0x02, 0x00, 0x02, 0x01, 0xff, 0xff, 0x01, 0x00, 0xe8, 0x03,
];

// What a caller's list holds before a call.
const BEFORE: Reading = Reading {
    value: 5,
    weight: 5,
};

// A reading that is not as the others are.
#[derive(Clone, Copy)]
struct Odd {
    place: usize,
    value: i16,
    weight: u16,
}

// Adds a column whose cells are all alike, but for the one at a place. The loop is about that place.
fn add_column(
    bytes: &mut Vec<u8>,
    count: usize,
    usual: u16,
    odd: Option<(usize, u16)>,
) -> Result<(), AllocError> {
    for place in 1..=count {
        let cell = match odd {
            Some((at, other)) if at == place => other,
            _ => usual,
        };
        bytes.extend_from_slice(&cell.to_le_bytes())?;
    }
    Ok(())
}

// Bytes that claim `size` readings and hold `count`: 0 of weight 1, but for the odd one.
fn bytes_of(
    heap: Global,
    size: u16,
    count: usize,
    odd: Option<Odd>,
) -> Result<Vec<u8>, AllocError> {
    let mut bytes = Vec::new(heap);
    bytes.extend_from_slice(&size.to_le_bytes())?;
    bytes.extend_from_slice(&size.to_le_bytes())?;
    let value = odd.map(|odd| (odd.place, odd.value.cast_unsigned()));
    let weight = odd.map(|odd| (odd.place, odd.weight));
    add_column(&mut bytes, count, 0, value)?;
    add_column(&mut bytes, count, 1, weight)?;
    Ok(bytes)
}

// The bytes of as many readings as can be stored, one of them odd.
fn bytes_with(heap: Global, odd: Odd) -> Result<Vec<u8>, AllocError> {
    bytes_of(heap, 1_024, 1_024, Some(odd))
}

#[test]
fn worked_bytes_are_written_and_read(rt: HostRuntime) {
    let mut bytes = [7u8; 14];
    assert_eq!(rt; write(Readings::of(&ROWS), &mut bytes), Ok(12));
    assert_eq!(rt; &bytes[0..12], WORKED.as_slice());
    assert_eq!(rt; &bytes[12..14], [7, 7].as_slice());
    let mut back = [BEFORE; 3];
    assert_eq!(rt; read(&WORKED, &mut back), Ok(2));
    assert_eq!(rt; &back[0..2], ROWS.as_slice());
    assert_eq!(rt; back[2], BEFORE);
}

#[test]
fn want_of_room_changes_nothing(rt: HostRuntime) {
    let mut bytes = [7u8; 11];
    assert_eq!(rt;
        write(Readings::of(&ROWS), &mut bytes),
        Err(Refusal::TooLittleRoom { needed: 12 })
    );
    assert_eq!(rt; &bytes[0..11], [7u8; 11].as_slice());
    let mut back = [BEFORE; 1];
    assert_eq!(rt;
        read(&WORKED, &mut back),
        Err(Refusal::TooLittleRoom { needed: 2 })
    );
    assert_eq!(rt; back[0], BEFORE);
}

#[test]
fn sizes_up_to_the_limit_are_granted(rt: HostRuntime) -> Result<(), Fail> {
    let heap = rt.alloc();
    assert_eq!(rt; check_stored(&bytes_of(heap, 0, 0, None)?), Ok(0));
    assert_eq!(rt; check_stored(&bytes_of(heap, 1, 1, None)?), Ok(1));
    assert_eq!(rt;
        check_stored(&bytes_of(heap, 1_024, 1_024, None)?),
        Ok(1_024)
    );
    assert_eq!(rt;
        check_stored(&bytes_of(heap, 1_025, 1_025, None)?),
        Err(Refusal::TooMany { size: 1_025 })
    );
    assert_eq!(rt;
        check_stored(&bytes_of(heap, 65_535, 0, None)?),
        Err(Refusal::TooMany { size: 65_535 })
    );
    Ok(())
}

#[test]
fn off_the_scale_is_refused_at_its_place(rt: HostRuntime) -> Result<(), Fail> {
    let heap = rt.alloc();
    for place in [1usize, 2, 1_023, 1_024] {
        for (value, weight, told) in [
            (-30_001, 0, Err(Refusal::ValueOffScale { place })),
            (30_001, 1_001, Err(Refusal::ValueOffScale { place })),
            (-30_000, 0, Err(Refusal::WeightOffScale { place })),
            (30_000, 1_001, Err(Refusal::WeightOffScale { place })),
            (-30_000, 1_000, Ok(1_024)),
        ] {
            let odd = Odd {
                place,
                value,
                weight,
            };
            assert_eq!(rt; check_stored(&bytes_with(heap, odd)?), told);
        }
    }
    Ok(())
}

#[test]
fn lengths_and_sizes_that_lie_are_refused(rt: HostRuntime) {
    assert_eq!(rt; check_stored(&[]), Err(Refusal::WrongLength { length: 0 }));
    assert_eq!(rt;
        check_stored(&WORKED[0..3]),
        Err(Refusal::WrongLength { length: 3 })
    );
    assert_eq!(rt;
        check_stored(&WORKED[0..4]),
        Err(Refusal::WrongLength { length: 4 })
    );
    assert_eq!(rt;
        check_stored(&WORKED[0..11]),
        Err(Refusal::WrongLength { length: 11 })
    );
    assert_eq!(rt; check_stored(&[2, 0, 1, 0]), Err(Refusal::SizesDiffer));
    assert_eq!(rt; check_stored(&[0, 0, 0, 1]), Err(Refusal::SizesDiffer));
    assert_eq!(rt;
        check_stored(&[1, 4, 1, 4]),
        Err(Refusal::TooMany { size: 1_025 })
    );
    assert_eq!(rt;
        check_stored(&[0, 0, 0, 0, 0]),
        Err(Refusal::WrongLength { length: 5 })
    );
}
