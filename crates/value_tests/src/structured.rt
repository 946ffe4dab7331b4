//! Structured data: the elements of a record.

use std::alloc::Global;
use std::test::Fail;
use syslog_value::{Element, Param, PushFault, SdName, StructuredData};

fn element(alloc: Global, id: &[u8], value: &str) -> Result<Element, Fail> {
    let name = SdName::new(alloc, b"k")?;
    let param = Param::new(name, String::from_str(alloc, value)?);
    let params = vec![in alloc; param]?;
    Ok(Element::new(SdName::new(alloc, id)?, params))
}

/// Elements with these ids, pushed one by one.
fn pushed(alloc: Global, ids: &[&[u8]]) -> Result<StructuredData, Fail> {
    let mut data = StructuredData::empty(alloc);
    for id in ids {
        if data.push(element(alloc, id, "v")?).is_err() {
            return Err(Fail::from("refused"));
        }
    }
    Ok(data)
}

/// Elements with these ids, given at once; None if an id is repeated.
fn given(alloc: Global, ids: &[&[u8]]) -> Result<Option<StructuredData>, Fail> {
    let mut elements = Vec::new(alloc);
    for id in ids {
        elements.push(element(alloc, id, "v")?)?;
    }
    Ok(StructuredData::from_elements(elements))
}

/// Whether the elements have these ids, in this order.
fn has_ids(data: &StructuredData, ids: &[&[u8]]) -> bool {
    let elements = data.elements();
    let mut same = elements.len() == ids.len();
    for (element, id) in elements.iter().zip(ids) {
        same = same && element.id().bytes() == *id;
    }
    same
}

#[test]
fn elements_stand_by_id(rt: HostRuntime) -> Result<(), Fail> {
    let data = pushed(rt.alloc(), &[b"b", b"d", b"a", b"aa", b"c", b"B", b"z"])?;
    assert!(rt; has_ids(&data, &[b"B", b"a", b"aa", b"b", b"c", b"d", b"z"]));
    let data = given(rt.alloc(), &[b"c", b"a", b"b"])?.ok_or("repeated")?;
    assert!(rt; has_ids(&data, &[b"a", b"b", b"c"]));
    assert!(rt; given(rt.alloc(), &[b"c", b"a", b"c"])?.is_none());
    Ok(())
}

#[test]
fn the_order_of_elements_carries_no_meaning(rt: HostRuntime) -> Result<(), Fail> {
    let one = pushed(rt.alloc(), &[b"a", b"b", b"c"])?;
    let other = pushed(rt.alloc(), &[b"c", b"b", b"a"])?;
    assert!(rt; one == other);
    Ok(())
}

#[test]
fn a_second_element_of_an_id_comes_back(rt: HostRuntime) -> Result<(), Fail> {
    let mut data = pushed(rt.alloc(), &[b"a"])?;
    let before = data.copy(rt.alloc())?;
    let second = element(rt.alloc(), b"a", "second")?;
    let (back, fault) = data.push(second).err().ok_or("taken")?;
    assert_eq!(rt; fault, PushFault::RepeatedId);
    assert!(rt; back == element(rt.alloc(), b"a", "second")?);
    assert!(rt; data == before);
    Ok(())
}
