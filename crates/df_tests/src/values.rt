//! Texts in pieces, spelled values, lists of values, and names as keys.
use df_values::bytes::Bytes;
use df_values::name::Name;
use df_values::streams::Streams;
use df_values::values::{ErrorValue, Value};
use std::collections::HashMap;
use std::test::Fail;

#[test]
fn pieces_stand_in_order(rt: HostRuntime) -> Result<(), Fail> {
    let mut text = Bytes::new(rt.alloc());
    assert!(rt; text.is_empty());
    text.push_text("run")?;
    text.push_slice(b" ")?;
    text.push_number(u64::MAX)?;
    text.push_text(" ")?;
    text.push_signed(i128::MIN)?;
    let wanted = "run 18446744073709551615 -170141183460469231731687303715884105728";
    assert_eq!(rt; text.as_slice(), wanted.as_bytes());
    assert_eq!(rt; text.len(), wanted.len());
    let same = Bytes::from_vec(text.into_vec());
    assert_eq!(rt; same.as_slice(), wanted.as_bytes());
    Ok(())
}

#[test]
fn values_are_spelled(rt: HostRuntime) -> Result<(), Fail> {
    let mut text = Bytes::new(rt.alloc());
    text.push_value(Value::Int(-7))?;
    text.push_spaced_values(&[
        Value::Int(0),
        Value::Truth(true),
        Value::Truth(false),
        Value::Error(ErrorValue::Undef),
        Value::Error(ErrorValue::MissElt),
        Value::Error(ErrorValue::PosOver),
        Value::Error(ErrorValue::NegOver),
        Value::Error(ErrorValue::Unknown),
        Value::Error(ErrorValue::ZeroDivide),
    ])?;
    let wanted = "-7 0 true false undef miss_elt pos_over neg_over unknown zero_divide";
    assert_eq!(rt; text.as_slice(), wanted.as_bytes());
    Ok(())
}

#[test]
fn values_are_added_in_order(rt: HostRuntime) -> Result<(), Fail> {
    let mut streams = Streams::new(rt.alloc());
    streams.add_stream(2)?;
    streams.add_stream(0)?;
    streams.add_value(0, Value::Int(7))?;
    streams.add_value(0, Value::Truth(true))?;
    streams.add_value(1, Value::Int(8))?;
    assert_eq!(rt; streams.count(), 2);
    assert_eq!(rt;
        streams.stream(0),
        [Value::Int(7), Value::Truth(true)].as_slice()
    );
    assert_eq!(rt; streams.stream(1), [Value::Int(8)].as_slice());
    Ok(())
}

#[test]
fn names_are_keys(rt: HostRuntime) -> Result<(), Fail> {
    let name = Name::new(b"limit");
    assert_eq!(rt; name.bytes(), b"limit".as_slice());
    let mut numbers = HashMap::new(rt.alloc());
    numbers.insert(name, 7)?;
    assert_eq!(rt; numbers.get(&Name::new(b"limit")), Some(&7));
    assert_eq!(rt; numbers.get(&Name::new(b"limits")), None);
    Ok(())
}
