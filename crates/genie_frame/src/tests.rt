//! A loan that outlives the owner, and each call once.
use crate::{Counts, Frames, Meters, Owner};

#[test]
fn a_loan_outlives_the_owner(rt: HostRuntime) {
    let mut frames = Frames::new(rt.alloc(), 4, 16).expect(&rt, "memory");
    let f = frames.take(Owner::Page(0));
    frames.write(f, 0, &[0xaa]);
    let loan = frames.lend_strong(f);
    frames.disown(f);
    assert_eq!(rt; frames.owner(f), Owner::Nobody);
    assert_eq!(rt; frames.free(), 3);
    assert_eq!(rt; frames.dma_out(&loan, 0, 1), [0xaa].as_slice());
    frames.back_out(loan);
    assert_eq!(rt; frames.owner(f), Owner::Free);
    assert_eq!(rt; frames.free(), 4);
    let meters = Meters {
        read: 0,
        written: 1,
        copied: 0,
        zeroed: 0,
        puts: 0,
        gets: 0,
        taken: 1,
    };
    assert_eq!(rt; frames.meters(), meters);
    assert_eq!(rt; frames.landed(), 0);
}

// Bytes move by each call, and each meter counts its own.
#[test]
fn bytes_move(rt: HostRuntime) {
    let mut frames = Frames::new(rt.alloc(), 2, 16).expect(&rt, "memory");
    let f = frames.take(Owner::Page(0));
    let g = frames.take(Owner::Pool(1));
    frames.give(f, Owner::Page(1));
    let loan = frames.lend_in(f);
    frames.dma_in(&loan, 14, &[1, 2]);
    frames.copy(f, 14, g, 0, 2);
    frames.copy(g, 0, g, 1, 2);
    frames.zero(g, 0, 1);
    let mut some = [9; 4];
    frames.read(g, 0, &mut some);
    assert_eq!(rt; some, [0, 1, 2, 0]);
    frames.page_in(g).fill(5);
    assert_eq!(rt; frames.page_out(g), [5; 16].as_slice());
    frames.wire(f);
    assert_eq!(rt;
        frames.counts(f),
        Counts {
            strong: 0,
            weak: 0,
            input: 1,
            wires: 1
        }
    );
    frames.unwire(f);
    let out = frames.lend_weak(f);
    assert_eq!(rt; frames.dma_out(&out, 14, 2), [1, 2].as_slice());
    frames.back_out(out);
    frames.back_in(loan);
    let meters = Meters {
        read: 4,
        written: 0,
        copied: 4,
        zeroed: 1,
        puts: 1,
        gets: 1,
        taken: 2,
    };
    assert_eq!(rt; frames.meters(), meters);
    assert_eq!(rt; frames.landed(), 2);
    assert_eq!(rt; (frames.len(), frames.page()), (2, 16));
}
