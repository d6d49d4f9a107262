//! Lists.
use plain_list::List;
use std::alloc::{AllocError, Global};

fn list_of(alloc: Global, items: &[u32]) -> Result<List<u32>, AllocError> {
    let mut list = List::new(alloc);
    for item in items {
        list.push(*item)?;
    }
    Ok(list)
}

fn are_in_order(list: &List<u32>) -> bool {
    !list.is_empty() && list.len() == 2 && list[1] == 7 && list.as_slice() == [5, 7].as_slice()
}

#[test]
fn a_list_is_its_items_in_order(rt: HostRuntime) -> Result<(), AllocError> {
    let list = list_of(rt.alloc(), &[5, 7])?;
    assert!(rt; are_in_order(&list));
    assert!(rt; list.try_clone()? == list);
    assert!(rt; are_in_order(&List::from_vec(list.into_vec())));
    Ok(())
}

#[test]
fn items_are_put_and_taken_at_places(rt: HostRuntime) -> Result<(), AllocError> {
    let mut list = list_of(rt.alloc(), &[4, 9])?;
    assert!(rt; list.len() == 2);
    list.insert(1, 7)?;
    list.set(0, 5);
    assert!(rt; list.remove(2) == 9);
    assert!(rt; are_in_order(&list));
    Ok(())
}
