use crate::build::*;
use flat::{AttachedRow, Description, Flat};
use models::TimedModel;
use rows::Row;
use std::alloc::{AllocError, Global};
use std::test::Fail;

// Three locations and three edges, two clocks and two parameters.
fn three(heap: Global) -> Result<Description, AllocError> {
    let mut given = lists(heap, 3, 3)?;
    given.clocks = 2;
    given.parameters = 2;
    Ok(given)
}

// Each limit of a row, at it and past it.
fn cases() -> [(AttachedRow, bool); 15] {
    let p2 = [0, 0, 1, 0, 0, 0, 0];
    let p3 = [0, 0, 0, 1, 0, 0, 0];
    [
        (owned(2, row(1, 0, 1)), true),
        (owned(3, row(1, 0, 1)), false),
        (owned(65_535, row(1, 0, 1)), false),
        (owned(1, row(2, 0, 1)), true),
        (owned(1, row(3, 0, 1)), false),
        (owned(1, row(0, 2, 1)), true),
        (owned(1, row(0, 3, 1)), false),
        (owned(1, row(0, 0, 1)), true),
        (owned(1, row(1, 1, 1)), false),
        (owned(1, row(1, 0, 1_000_000)), true),
        (owned(1, row(1, 0, 1_000_001)), false),
        (owned(1, row(1, 0, -1_000_000)), true),
        (owned(1, row(1, 0, -1_000_001)), false),
        (owned(1, bound(p2)), true),
        (owned(1, bound(p3)), false),
    ]
}

// Whether the row, after another one and put into one of the lists, makes a model or the shut model.
fn is_right<F: FnOnce(&mut Description, Vec<AttachedRow>)>(
    heap: Global,
    put: F,
    tried: AttachedRow,
    model: bool,
) -> Result<bool, AllocError>
    requires { F.IsAlwaysCallable put }
{
    let mut given = three(heap)?;
    put(&mut given, vec![in heap; owned(0, row(1, 0, 1)), tried]?);
    gives(heap, given, model)
}

#[test]
fn limits(rt: HostRuntime) -> Result<(), Fail> {
    for (tried, model) in cases() {
        assert!(rt;
            is_right(
                rt.alloc(),
                |lists, rows| lists.invariants = rows,
                tried,
                model
            )?
        );
        assert!(rt; is_right(rt.alloc(), |lists, rows| lists.guards = rows, tried, model)?);
    }
    Ok(())
}

// Rows of owner 1, so many as invariants and so many as guards.
fn crowded(heap: Global, invariants: usize, guards: usize) -> Result<Description, AllocError> {
    let mut given = three(heap)?;
    given.invariants = vec![in heap; owned(1, row(1, 0, 7)); invariants]?;
    given.guards = vec![in heap; owned(1, row(1, 0, 7)); guards]?;
    Ok(given)
}

fn has_eight_of_one(model: &Flat) -> bool {
    model.shape().invariants == 8
        && model.shape().guards == 8
        && model.invariant_count(0) == 0
        && model.invariant_count(1) == 8
        && model.invariant_row(1, 7) == Some(row(1, 0, 7))
        && model.guard_count(1) == 8
        && model.guard_row(1, 7) == Some(row(1, 0, 7))
}

#[test]
fn eight_rows(rt: HostRuntime) -> Result<(), Fail> {
    let heap = rt.alloc();
    assert!(rt; has_eight_of_one(&flat(heap, crowded(heap, 8, 8)?)?));
    assert!(rt; gives(heap, crowded(heap, 9, 8)?, false)?);
    assert!(rt; gives(heap, crowded(heap, 8, 9)?, false)?);
    Ok(())
}

// The most locations and slots, with a row of the last location or the last slot, or of one past it.
fn with_last(heap: Global, location: u16, slot: u16) -> Result<Flat, AllocError> {
    let mut given = lists(heap, 64, 512)?;
    given.invariants = vec![in heap; owned(location, row(1, 0, 7))]?;
    given.guards = vec![in heap; owned(slot, row(1, 0, 7))]?;
    flat(heap, given)
}

fn has_its_last(model: &Flat) -> bool {
    model.invariant_row(63, 0) == Some(row(1, 0, 7))
        && model.guard_row(511, 0) == Some(row(1, 0, 7))
        && model.edge(511).is_some()
        && model.edge(512).is_none()
}

#[test]
fn last_owners(rt: HostRuntime) -> Result<(), Fail> {
    let heap = rt.alloc();
    assert!(rt; has_its_last(&with_last(heap, 63, 511)?));
    assert!(rt; is_shut(&with_last(heap, 64, 511)?));
    assert!(rt; is_shut(&with_last(heap, 63, 512)?));
    Ok(())
}

// Rows of owners 2, 0, 2, 0, as invariants and as guards.
fn mixed(heap: Global) -> Result<Description, AllocError> {
    let mut given = three(heap)?;
    let entries = [
        owned(2, row(1, 0, 1)),
        owned(0, row(1, 0, 2)),
        owned(2, row(1, 0, 3)),
        owned(0, strictly(row(1, 0, 4))),
    ];
    given.invariants = Vec::from_slice(heap, &entries)?;
    given.guards = Vec::from_slice(heap, &entries)?;
    Ok(given)
}

// Whether the rows by owner and place are those of the owners, in list order.
fn keeps_order<F: Fn(u8, u8) -> Option<Row>>(row_of: F) -> bool
    requires { F.IsAlwaysCallable row_of }
{
    row_of(0, 0) == Some(row(1, 0, 2))
        && row_of(0, 1) == Some(strictly(row(1, 0, 4)))
        && row_of(2, 0) == Some(row(1, 0, 1))
        && row_of(2, 1) == Some(row(1, 0, 3))
}

fn has_two_of_two(model: &Flat) -> bool {
    model.shape().invariants == 2
        && model.invariant_count(1) == 0
        && model.shape().guards == 2
        && model.guard_count(1) == 0
}

#[test]
fn list_order_is_kept(rt: HostRuntime) -> Result<(), Fail> {
    let model = flat(rt.alloc(), mixed(rt.alloc())?)?;
    assert!(rt; has_two_of_two(&model));
    assert!(rt; keeps_order(|q, k| model.invariant_row(q, k)));
    assert!(rt; keeps_order(|q, k| model.guard_row(u16::from(q), k)));
    Ok(())
}
