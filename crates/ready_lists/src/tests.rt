//! One table of inserts and removes.

use crate::{PieceAt, ReadyLists};
use std::process::Abort;
use std::test::Fail;

/// A piece by its program, call and number.
type Named = (u32, u64, u32);

/// What is done to a stripe, and what it has then.
#[derive(Drop)]
enum Step {
    Insert(usize, Named, &'static [Named]),
    Remove(usize, Named, &'static [Named]),
}

const STEPS: [Step; 9] = [
    Step::Insert(1, (1, 4, 0), &[(1, 4, 0)]),
    Step::Insert(1, (0, 9, 7), &[(0, 9, 7), (1, 4, 0)]),
    Step::Insert(1, (1, 3, 9), &[(0, 9, 7), (1, 3, 9), (1, 4, 0)]),
    Step::Insert(1, (1, 4, 0), &[(0, 9, 7), (1, 3, 9), (1, 4, 0)]),
    Step::Insert(2, (1, 4, 1), &[(1, 4, 1)]),
    Step::Remove(1, (1, 3, 8), &[(0, 9, 7), (1, 3, 9), (1, 4, 0)]),
    Step::Remove(1, (1, 3, 9), &[(0, 9, 7), (1, 4, 0)]),
    Step::Remove(1, (0, 9, 7), &[(1, 4, 0)]),
    Step::Remove(2, (1, 4, 1), &[]),
];

fn piece_of(named: Named) -> PieceAt {
    PieceAt {
        pe: named.0,
        call: named.1,
        piece: named.2,
    }
}

fn insert(
    rt: &impl Abort,
    lists: &mut ReadyLists,
    stripe: usize,
    named: Named,
) -> Result<(), Fail> {
    assert!(rt; stripe < lists.stripes());
    lists.insert(stripe, piece_of(named))?;
    Ok(())
}

fn remove(rt: &impl Abort, lists: &mut ReadyLists, stripe: usize, named: Named) {
    assert!(rt; stripe < lists.stripes());
    lists.remove(stripe, piece_of(named));
}

fn expect(rt: &impl Abort, lists: &ReadyLists, stripe: usize, wanted: &[Named]) {
    assert!(rt; stripe < lists.stripes());
    assert_eq!(rt; lists.count(stripe), wanted.len());
    for (k, named) in wanted.iter().enumerate() {
        assert!(rt; k < lists.count(stripe));
        assert_eq!(rt; lists.at(stripe, k), piece_of(*named));
        assert!(rt; lists.has(stripe, piece_of(*named)));
    }
}

#[test]
fn keeps_pieces_in_order(rt: HostRuntime) -> Result<(), Fail> {
    let mut lists = ReadyLists::new(rt.alloc(), 3)?;
    for step in &STEPS {
        match step {
            Step::Insert(stripe, named, wanted) => {
                insert(&rt, &mut lists, *stripe, *named)?;
                expect(&rt, &lists, *stripe, wanted);
            }
            Step::Remove(stripe, named, wanted) => {
                remove(&rt, &mut lists, *stripe, *named);
                expect(&rt, &lists, *stripe, wanted);
            }
        }
    }
    assert_eq!(&rt; lists.busy(), 1usize);
    assert!(&rt; 0 < lists.busy());
    assert_eq!(&rt; lists.busy_at(0), 1usize);
    Ok(())
}
