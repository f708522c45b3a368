ghost use Rattle.std.specs.Prelude.{◌≤◌, length};

use db_model::{
    Answer, Bytes, Bytes64, FieldValues, Keys, MOST_BYTES, Name, NoMemory, Question, Row, Sequence,
    Special, Value, Word, begins_name, continues_name, is_name, is_reserved,
};
use std::alloc::Global;
use std::test::Fail;

/// Kept as a copy, as a copy of that, and taken from a vector.
fn are_kept(alloc: Global, bytes: &[u8]) -> Result<bool, NoMemory>
    requires { length bytes.now ≤ MOST_BYTES }
{
    let kept = Bytes::copy_of(alloc, bytes)?;
    let copy = kept.clone()?;
    let taken = Bytes::from_vec(Vec::from_slice(alloc, bytes)?);
    Ok(kept.as_slice() == bytes && copy == kept && taken == kept)
}

#[test]
fn bytes_keep_what_they_are_given(rt: HostRuntime) -> Result<(), Fail> {
    let alloc = rt.alloc();
    for bytes in ["\x01\x02", "", "more bytes than a value keeps in place"] {
        let bytes = bytes.as_bytes();
        if bytes.len() <= MOST_BYTES {
            let kept = are_kept(alloc, bytes)?;
            assert!(rt; kept);
        }
    }
    let few = Bytes64::from_vec(vec![in alloc; 5u8]?);
    assert!(rt; few.as_slice() == [5].as_slice());
    Ok(())
}

#[test]
fn texts_keep_what_they_are_given(rt: HostRuntime) -> Result<(), Fail> {
    let alloc = rt.alloc();
    let name = Name::copy_of(alloc, b"startproto")?;
    assert!(rt; name.as_slice() == b"startproto".as_slice());
    let word = Word::copy_of(alloc, "decode")?;
    assert!(rt; word.as_str() == "decode");
    Ok(())
}

#[test]
fn names_are_runs_that_are_not_reserved(rt: HostRuntime) {
    for text in ["a", "_", "startproto", "A9_", "ors"] {
        assert!(rt; is_name(text.as_bytes()));
    }
    for text in ["", "9a", "a-b", "or", "bitwor", "checkupdatelookuptable"] {
        assert!(rt; !is_name(text.as_bytes()));
    }
    assert!(rt; is_name(&[b'n'; 64]));
    assert!(rt; !is_name(&[b'n'; 65]));
    assert!(rt; is_reserved(b"mod") && begins_name(b'_') && continues_name(b'0'));
}

#[test]
fn special_variables_by_their_names(rt: HostRuntime) {
    for (name, special) in [
        ("packet", Some(Special::Packet)),
        ("packetlength", Some(Special::PacketLength)),
        ("currentoffset", Some(Special::CurrentOffset)),
        ("protooffset", Some(Special::ProtoOffset)),
        ("linktype", Some(Special::LinkType)),
        ("src", None),
    ] {
        assert!(rt; Special::of(name.as_bytes()) == special);
    }
}

/// A number and two bytes.
fn row(alloc: Global) -> Result<Row, NoMemory> {
    let mut row = Row::new(alloc);
    row.push(Value::Num(7))?;
    row.push(Value::Buf(Bytes::copy_of(alloc, b"ab")?))?;
    Ok(row)
}

fn is_copied(row: &Row) -> Result<bool, NoMemory> {
    let copy = row.clone()?;
    Ok(copy == *row && row.len() == 2)
}

fn is_changed(mut row: Row) -> Result<bool, NoMemory> {
    let copy = row.clone()?;
    if row.len() == 2 {
        row.set(0, Value::Proto(7));
    }
    Ok(row != copy && row.get(0) == Some(&Value::Proto(7)) && row.get(2).is_none())
}

fn is_emptied(mut row: Row) -> bool {
    row.clear();
    row.as_slice().is_empty()
}

#[test]
fn sequences_are_read_changed_copied_and_compared(rt: HostRuntime) -> Result<(), Fail> {
    let alloc = rt.alloc();
    let copied = is_copied(&row(alloc)?)?;
    let changed = is_changed(row(alloc)?)?;
    assert!(rt; copied && changed && is_emptied(row(alloc)?));
    let numbers = Sequence::from_vec(vec![in alloc; 1u8, 2]?);
    assert!(rt; numbers.into_vec().as_slice() == [1, 2].as_slice());
    Ok(())
}

fn look(alloc: Global, renew: bool) -> Result<Question, NoMemory> {
    let keys = Keys::from_vec(vec![in alloc; Bytes::copy_of(alloc, b"k")?]?);
    Ok(Question::Look {
        table: 0,
        keys,
        renew,
    })
}

fn is_unlike(plain: &Question, renewing: &Question) -> Result<bool, NoMemory> {
    let copy = plain.clone()?;
    let is_so = plain != renewing && *plain == copy;
    drop(copy);
    Ok(is_so)
}

fn differ_by_renewal(alloc: Global) -> Result<bool, NoMemory> {
    let plain = look(alloc, false);
    let renewing = look(alloc, true)?;
    let differ = match &plain {
        Ok(plain) => is_unlike(plain, &renewing),
        Err(_) => Ok(false),
    };
    drop(plain);
    drop(renewing);
    differ
}

#[test]
fn questions_and_answers_are_compared(rt: HostRuntime) -> Result<(), Fail> {
    let alloc = rt.alloc();
    let differ = differ_by_renewal(alloc)?;
    assert!(rt; differ && Answer::Miss != Answer::Hit(Row::new(alloc)));
    Ok(())
}

/// The place of the last value of a field, 9 where it has none.
fn place(values: &FieldValues, number: u32) -> usize {
    values.last(number).unwrap_or(9)
}

/// Where the last values of the fields 0, 1, 2 and 900 stand, when four were put, and then of 1 and 2 behind a clearing.
fn last_places(alloc: Global) -> Result<[usize; 6], NoMemory> {
    let mut values = FieldValues::with_room(alloc, 2);
    values.push(1, Bytes::short(b"a"))?;
    values.push(900, Bytes::short(b"b"))?;
    values.push(1, Bytes::short(b"c"))?;
    values.push(0, Bytes::short(b""))?;
    let mut places = [0, 1, 2, 900, 1, 2].map(|number| place(&values, number));
    values.clear();
    values.push(2, Bytes::short(b"d"))?;
    places[4] = place(&values, 1);
    places[5] = place(&values, 2);
    Ok(places)
}

#[test]
fn the_last_value_of_each_field_is_found(rt: HostRuntime) -> Result<(), Fail> {
    let places = last_places(rt.alloc())?;
    assert!(rt; places == [3, 2, 9, 1, 9, 0]);
    Ok(())
}
