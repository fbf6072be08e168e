//! Each call of a store and of the slots, and a call that fails and then works.
ghost use Rattle.std.specs.Prelude.{◌≡◌, ◌<◌};

use crate::{FailingStore, MemoryStore, Slots, Store, StoreFault};

// Puts a page of one byte's value in slot 0 or 1 of a store with 2 slots of 16 bytes.
fn put<S: Store>(store: &mut S, slot: u32, byte: u8) -> Result<(), StoreFault>
    requires slot { slot < 2 }
    requires count { (S.view store.old).count ≡ 2 }
    requires page { (S.view store.old).page ≡ 16 }
    ensures count { (S.view store.new).count ≡ 2 }
    ensures page { (S.view store.new).page ≡ 16 }
{
    store.put(slot, &[byte; 16])
}

// Gets the page in slot 0 or 1 of such a store, into a page of nines.
fn get<S: Store>(store: &mut S, slot: u32) -> (Result<(), StoreFault>, [u8; 16])
    requires slot { slot < 2 }
    requires count { (S.view store.old).count ≡ 2 }
    requires page { (S.view store.old).page ≡ 16 }
    ensures count { (S.view store.new).count ≡ 2 }
    ensures page { (S.view store.new).page ≡ 16 }
{
    let mut page = [9; 16];
    let got = store.get(slot, &mut page);
    (got, page)
}

#[test]
fn memory_store_keeps_pages(rt: HostRuntime) {
    let mut store = MemoryStore::new(rt.alloc());
    assert_eq!(rt; store.size(2, 16), Ok(()));
    assert_eq!(rt; put(&mut store, 0, 4), Ok(()));
    assert_eq!(rt; put(&mut store, 1, 5), Ok(()));
    assert_eq!(rt; put(&mut store, 1, 6), Ok(()));
    assert_eq!(rt; get(&mut store, 0), (Ok(()), [4; 16]));
    assert_eq!(rt; get(&mut store, 1), (Ok(()), [6; 16]));
}

// The third call fails with all slots as before, and then the same call works.
#[test]
fn a_put_fails_and_then_works(rt: HostRuntime) {
    let mut store = FailingStore::new(rt.alloc(), &[3]).expect(&rt, "memory");
    assert_eq!(rt; store.size(2, 16), Ok(()));
    assert_eq!(rt; put(&mut store, 0, 4), Ok(()));
    assert_eq!(rt; put(&mut store, 1, 5), Ok(()));
    assert_eq!(rt; put(&mut store, 1, 6), Err(StoreFault));
    assert_eq!(rt; get(&mut store, 0), (Ok(()), [4; 16]));
    assert_eq!(rt; get(&mut store, 1), (Ok(()), [5; 16]));
    assert_eq!(rt; put(&mut store, 1, 6), Ok(()));
    assert_eq!(rt; get(&mut store, 1), (Ok(()), [6; 16]));
    assert_eq!(rt; get(&mut store, 0), (Ok(()), [4; 16]));
}

// The third call fails with the buffer as before, and then the same call works.
#[test]
fn a_get_fails_and_then_works(rt: HostRuntime) {
    let mut store = FailingStore::new(rt.alloc(), &[3]).expect(&rt, "memory");
    assert_eq!(rt; store.size(2, 16), Ok(()));
    assert_eq!(rt; put(&mut store, 0, 4), Ok(()));
    assert_eq!(rt; put(&mut store, 1, 5), Ok(()));
    assert_eq!(rt; get(&mut store, 1), (Err(StoreFault), [9; 16]));
    assert_eq!(rt; get(&mut store, 1), (Ok(()), [5; 16]));
    assert_eq!(rt; get(&mut store, 0), (Ok(()), [4; 16]));
}

#[test]
fn slots_go_and_come_back(rt: HostRuntime) {
    let mut slots = Slots::new(rt.alloc(), 2).expect(&rt, "memory");
    let first = slots.take();
    let second = slots.take();
    assert!(rt; first != second);
    assert_eq!(rt; slots.free(), 0);
    slots.back(first);
    assert_eq!(rt; slots.free(), 1);
    assert_eq!(rt; slots.take(), first);
}
