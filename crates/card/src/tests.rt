use crate::{Contents, Fault, load, raw_weight, store, walk};
use model::{Model, Refusal};
use std::process::Abort;
use std::test::Fail;

fn refused(rt: &impl Abort, card: &[u8], fault: Fault) {
    assert_eq!(rt; walk(card), Err(fault));
}

#[test]
fn a_card_is_its_records(rt: HostRuntime) {
    assert_eq!(rt;
        walk(b"EN"),
        Ok(Contents {
            alternatives: 0,
            rules: 0,
        })
    );
    let card = b"AL\x02\x03\0\0\0\x01\0\0\0RU\x01\x01\x02\x01\x01RU\x02\0EN";
    assert_eq!(rt;
        walk(card),
        Ok(Contents {
            alternatives: 1,
            rules: 2,
        })
    );
}

#[test]
fn a_card_that_ends_early(rt: HostRuntime) {
    refused(&rt, b"", Fault::EndsEarly { offset: 0 });
    refused(&rt, b"A", Fault::EndsEarly { offset: 0 });
    refused(&rt, b"X", Fault::EndsEarly { offset: 0 });
    refused(&rt, b"AL", Fault::EndsEarly { offset: 0 });
    refused(&rt, b"RU\x01", Fault::EndsEarly { offset: 0 });
    refused(&rt, b"RU\x02\x01\0\x01", Fault::EndsEarly { offset: 0 });
    refused(&rt, b"RU\x02\0E", Fault::EndsEarly { offset: 4 });
    refused(&rt, b"RU\x02\0", Fault::EndsEarly { offset: 4 });
}

#[test]
fn a_count_is_judged_before_the_end(rt: HostRuntime) {
    refused(&rt, b"AL\x09", Fault::NumberOfChoices { offset: 0 });
    refused(
        &rt,
        b"AL\x01\0\0\0\0EN",
        Fault::NumberOfChoices { offset: 0 },
    );
    refused(&rt, b"RU\x01\x09", Fault::NumberOfLiterals { offset: 0 });
}

#[test]
fn tags_and_what_follows_the_end(rt: HostRuntime) {
    refused(&rt, b"RU\x02\0AX", Fault::UnknownTag { offset: 4 });
    refused(&rt, b"al", Fault::UnknownTag { offset: 0 });
    refused(&rt, b"EN\0", Fault::BytesAfterEnd { offset: 2 });
    refused(&rt, b"RU\x02\0ENEN", Fault::BytesAfterEnd { offset: 6 });
}

#[test]
fn weights_are_four_bytes_lowest_first(rt: HostRuntime) {
    let weights = b"\x01\x02\x03\x04\xff\xff\xff\xff\x07";
    assert_eq!(rt; raw_weight(weights, 0), Some(67305985));
    assert_eq!(rt; raw_weight(weights, 1), Some(4294967295));
    assert_eq!(rt; raw_weight(weights, 2), None);
}

// Two alternatives, the rule {1:1} for atom 1, and a fact for atom 2.
fn board() -> &'static [u8] {
    b"AL\x02\x03\0\0\0\x01\0\0\0AL\x03\x02\0\0\0\x05\0\0\0\x07\0\0\0RU\x01\x01\x02\x01\x01RU\x02\0EN"
}

fn refused_whole(rt: &impl Abort, card: &[u8]) {
    let mut model = Model::new();
    assert!(rt; load(&mut model, board()) == Ok(()));
    assert!(rt; load(&mut model, card).is_err());
    assert!(rt; model == Model::new());
}

#[test]
fn a_card_is_its_calls(rt: HostRuntime) {
    let mut model = Model::new();
    assert!(rt; load(&mut model, board()) == Ok(()));
    let mut other = Model::new();
    assert!(rt; other.declare(&[3, 1]) == Ok(()));
    assert!(rt; other.declare(&[2, 5, 7]) == Ok(()));
    assert!(rt; other.state(2, &[]) == Ok(()));
    let first = model::Literal {
        kind: model::Kind::Choice as u8,
        first: 1,
        second: 1,
    };
    assert!(rt; other.state(1, &[first]) == Ok(()));
    assert!(rt; model == other);
}

#[test]
fn a_card_that_is_cut_leaves_nothing(rt: HostRuntime) {
    let card = board();
    for cut in 0..card.len() {
        refused_whole(&rt, &card[0..cut]);
    }
}

#[test]
fn the_model_refuses_a_record(rt: HostRuntime) {
    let mut model = Model::new();
    let refusal = Refusal::NotLower { place: 1 };
    assert!(rt;
        load(&mut model, b"RU\x02\0RU\x02\x01\0\x02\0EN")
            == Err(Fault::Refused { offset: 4, refusal })
    );
    let refusal = Refusal::NoAtom { place: 0 };
    assert!(rt; load(&mut model, b"RU\0\0XX") == Err(Fault::Refused { offset: 0, refusal }));
    let fault = load(&mut model, b"RU\x02\x02\0\x01\0\x02\x01\x01EN");
    assert!(rt;
        fault
            == Err(Fault::Refused {
                offset: 0,
                refusal: Refusal::NotDeclared { place: 2 },
            })
    );
}

#[test]
fn a_model_is_written_as_its_card(rt: HostRuntime) {
    let mut model = Model::new();
    assert!(rt;
        load(
            &mut model,
            b"RU\x02\0AL\x02\x01\x02\x03\x04\0\0\0\0RU\x01\x01\x02\x01\x01EN",
        ) == Ok(())
    );
    let card = b"AL\x02\x01\x02\x03\x04\0\0\0\0RU\x01\x01\x02\x01\x01RU\x02\0EN";
    let mut buffer = [9; 26];
    assert!(rt; store(&model, &mut buffer) == Ok(24));
    assert_eq!(rt; &buffer[0..24], card.as_slice());
    assert_eq!(rt; &buffer[24..26], [9, 9].as_slice());
    let mut copy = Model::new();
    assert!(rt; load(&mut copy, &buffer[0..24]) == Ok(()));
    assert!(rt; copy == model);
}

#[test]
fn a_buffer_that_is_too_short_stays(rt: HostRuntime) {
    let mut model = Model::new();
    assert!(rt; load(&mut model, board()) == Ok(()));
    let mut buffer = [9; 39];
    assert!(rt; store(&model, &mut buffer[0..38]) == Err(Refusal::ShortBuffer));
    assert_eq!(rt; &buffer, &[9; 39]);
    assert!(rt; store(&model, &mut buffer) == Ok(39));
    assert_eq!(rt; buffer.as_slice(), board());
}

// A refused card leaves the empty model; an accepted one is written and loaded again as the same model.
fn comes_back(rt: &impl Abort, card: &[u8]) -> Result<(), Fail> {
    let mut model = Model::new();
    if load(&mut model, card).is_err() {
        assert!(rt; model == Model::new());
        return Ok(());
    }
    let mut buffer = [0; 4146];
    let size = store(&model, &mut buffer)?;
    assert!(rt; size <= 4146);
    let mut copy = Model::new();
    assert!(rt; load(&mut copy, &buffer[0..size]) == Ok(()));
    assert!(rt; copy == model);
    Ok(())
}

fn damaged_at(rt: &impl Abort, at: usize) -> Result<(), Fail> {
    let card = board();
    assert!(rt; card.len() == 39);
    assert!(rt; at < 39);
    for value in 0..=255 {
        let mut damaged = [0; 39];
        damaged.copy_from_slice(card);
        damaged[at] = value;
        comes_back(rt, &damaged)?;
    }
    Ok(())
}

#[test]
fn each_byte_damaged_in_each_way(rt: HostRuntime) -> Result<(), Fail> {
    for at in 0..39 {
        damaged_at(&rt, at)?;
    }
    Ok(())
}
