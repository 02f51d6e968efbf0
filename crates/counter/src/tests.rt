ghost use Rattle.std.specs.Prelude.{◌≡◌, ℕ, ◌+◌, ◌<◌, ◌^◌, true, length, IfSome};
ghost use Rattle.turn_cell.specs.Turn.{IsOwn};
ghost use Rattle.turn_cell.specs.Words.{IsPassOf, IsSamePass, AllHeld, AllOfEach, view_of};
ghost use Rattle.counter.specs.Counting.{gives, owner};

use crate::{Call, Counter};
use fam_base::{FamError, Stamp};
use std::alloc::Global;
use std::sync::Wait;
use std::test::Fail;
use std::thread::join;
use turn_cell::{Cell, Entry, Held, Pass, StillOut};

// Makes the call, if the turn is free and the stamp above the cell's.
fn attempt(
    cell: &Cell<Counter>,
    pass: &mut Pass<Counter>,
    call: Call,
    stamp: u64,
) -> Option<Result<u64, FamError>>
    requires pass { IsPassOf cell.now pass.old }
    requires owner { IsOwn (view_of pass.old).owners (owner call) }
    ensures same { IsPassOf cell.now pass.new × IsSamePass pass.old pass.new }
    ensures owners { (view_of pass.new).owners ≡ (view_of pass.old).owners }
{
    let mut held = pass.try_take(cell)?;
    let closes = matches!(call, Call::Close(_));
    if held.stamp().0 >= stamp || closes && held.object().booked == 0 {
        held.give_back();
        return None;
    }
    match held.reserve(&call, Stamp(stamp)) {
        Ok(copy) => Some(Ok(held.finish(call, Stamp(stamp), copy))),
        Err(error) => {
            held.give_back();
            Some(Err(error))
        }
    }
}

// Cuts the history.
fn cut(cell: &Cell<Counter>, first: &mut Pass<Counter>) -> Option<Vec<Entry<Call, u64>>>
    requires pass { IsPassOf cell.now first.old }
    requires first { (view_of first.old).leads ≡ true }
    ensures { IsPassOf cell.now first.new × IsSamePass first.old first.new }
{
    let mut held = first.try_take(cell)?;
    match held.reserve_cut() {
        Ok(()) => Some(held.cut()),
        Err(_) => {
            held.give_back();
            None
        }
    }
}

#[test]
fn two_entries_fill_a_cell_of_limit_two(rt: HostRuntime) -> Result<(), Fail> {
    let Ok((cell, mut first)) = Cell::new(rt.alloc(), at(5), 2) else {
        panic!(rt; "no memory")
    };
    assert_eq!(rt; attempt(&cell, &mut first, Call::Add(1), 1), Some(Ok(5)));
    assert_eq!(rt; attempt(&cell, &mut first, Call::Add(2), 2), Some(Ok(6)));
    let full = FamError::HistoryFull { used: 2, need: 1 };
    assert_eq!(rt; attempt(&cell, &mut first, Call::Get, 3), Some(Err(full)));
    let Some(entries) = cut(&cell, &mut first) else {
        panic!(rt; "no memory")
    };
    assert_eq!(rt; entries.len(), 2);
    assert_eq!(rt; entries[0].call, Call::Add(1));
    assert_eq!(rt; entries[1].reply, 6);
    assert_eq!(rt; cell.count(&mut first), 2);
    assert_eq!(rt; attempt(&cell, &mut first, Call::Get, 3), Some(Ok(8)));
    let Ok(passes) = Vec::from_array(rt.alloc(), [first]) else {
        panic!(rt; "no memory")
    };
    match cell.close(passes) {
        Ok((counter, entries)) => {
            assert_eq!(rt; counter.value, 8);
            assert_eq!(rt; entries.len(), 1);
            assert_eq!(rt; entries[0].stamp, Stamp(3));
        }
        Err(_) => panic!(rt; "a pass is out"),
    }
    Ok(())
}

// Whether the other pass finds the turn held while the one has it.
fn is_busy(cell: &Cell<Counter>, one: &mut Pass<Counter>, other: &mut Pass<Counter>) -> bool
    requires { IsPassOf cell.now one.old × IsPassOf cell.now other.old }
    ensures one { IsPassOf cell.now one.new × IsSamePass one.old one.new }
    ensures other { IsPassOf cell.now other.new × IsSamePass other.old other.new }
{
    let Some(held) = one.try_take(cell) else {
        return false;
    };
    let busy = match other.try_take(cell) {
        None => true,
        Some(second) => {
            second.give_back();
            false
        }
    };
    held.give_back();
    busy
}

#[test]
fn a_turn_is_held_and_a_pass_is_out(rt: HostRuntime) -> Result<(), Fail> {
    let Ok((cell, mut first)) = Cell::new(rt.alloc(), at(5), 2) else {
        panic!(rt; "no memory")
    };
    let mut second = cell.split(&mut first, 7);
    assert!(rt; is_busy(&cell, &mut first, &mut second));
    let Ok(passes) = Vec::from_array(rt.alloc(), [first]) else {
        panic!(rt; "no memory")
    };
    let Err((cell, mut passes, out)) = cell.close(passes) else {
        panic!(rt; "closed")
    };
    assert_eq!(rt; out, StillOut { made: 2, given: 1 });
    let Ok(()) = passes.push(second) else {
        panic!(rt; "no memory")
    };
    let Ok((counter, entries)) = cell.close(passes) else {
        panic!(rt; "a pass is out")
    };
    assert_eq!(rt; counter.value, 5);
    assert!(rt; entries.is_empty());
    Ok(())
}

// Adds 1 at the next stamp, once the turn is free.
fn add_one<R: Wait>(rt: &R, cell: &Cell<Counter>, pass: &mut Pass<Counter>) -> bool
    requires { IsPassOf cell.now pass.old }
    ensures { IsPassOf cell.now pass.new × IsSamePass pass.old pass.new }
{
    let mut held = pass.take(rt, cell);
    let stamp = held.stamp();
    if stamp.0 >= 1000 {
        held.give_back();
        return false;
    }
    let stamp = Stamp(stamp.0 + 1);
    match held.reserve(&Call::Add(1), stamp) {
        Ok(copy) => {
            held.finish(Call::Add(1), stamp, copy);
            true
        }
        Err(_) => {
            held.give_back();
            false
        }
    }
}

fn add_hundred<R: Wait>(
    rt: &R,
    cell: &Cell<Counter>,
    mut pass: Pass<Counter>,
) -> (Pass<Counter>, u64)
    requires { IsPassOf cell.now pass }
    ensures { IsPassOf cell.now result.0 × IsSamePass pass result.0 }
{
    let mut added = 0;
    for _ in 0..100u64 {
        if add_one(rt, cell, &mut pass) {
            added += 1;
        }
    }
    (pass, added)
}

// Whether all stamps and replies stand in order without a gap.
fn is_in_order(entries: &[Entry<Call, u64>]) -> bool {
    entries.iter().enumerate().all(|(at, entry)| entry.reply == at as u64
        && entry.stamp.0.wrapping_sub(1) == at as u64)
}

fn entries_of(entries: &[Entry<Call, u64>], number: u64) -> usize {
    entries.iter().filter(|entry| entry.pass == number).count()
}

#[test]
fn two_threads_take_turns(rt: HostRuntime) -> Result<(), Fail> {
    let Ok((cell, mut first)) = Cell::new(rt.alloc(), at(0), 1000) else {
        panic!(rt; "no memory")
    };
    let second = cell.split(&mut first, 7);
    let (first, second) = join(
        &rt,
        || -> (Pass<Counter>, u64)
            requires { IsPassOf cell first }
            ensures { IsPassOf cell result.0 × IsSamePass first result.0 }
        { add_hundred(&rt, &cell, first) },
        || -> (Pass<Counter>, u64)
            requires { IsPassOf cell second }
            ensures { IsPassOf cell result.0 × IsSamePass second result.0 }
        { add_hundred(&rt, &cell, second) },
    );
    assert_eq!(rt; (first.1, second.1), (100, 100));
    let Ok(passes) = Vec::from_array(rt.alloc(), [first.0, second.0]) else {
        panic!(rt; "no memory")
    };
    let Ok((counter, entries)) = cell.close(passes) else {
        panic!(rt; "a pass is out")
    };
    assert_eq!(rt; counter.value, 200);
    assert!(rt; is_in_order(entries.as_slice()));
    assert_eq!(rt; entries_of(entries.as_slice(), 0), 100);
    assert_eq!(rt; entries_of(entries.as_slice(), 1), 100);
    Ok(())
}

// Gives back all turns.
fn give_all(mut turns: Vec<Held<'_, '_, Counter>>)
    requires { AllHeld (λ c. c) gives (λ c. c.booked) owner turns.items }
{
    while let Some(held) = turns.pop() {
        held.give_back();
    }
    turns.destroy_empty();
}

// Takes the turns of all cells, and gives the greatest stamp and the sum of the counters.
fn survey<R: Wait>(
    rt: &R,
    alloc: Global,
    cells: &[Cell<Counter>],
    passes: &mut [Pass<Counter>],
) -> Option<u64>
    requires { AllOfEach cells.now passes.old }
{
    let Ok(mut turns) = Vec::with_capacity(alloc, passes.len()) else {
        return None;
    };
    let mut left = cells;
    let all = passes.iter_mut();
    for pass in all {
        let Some((cell, more)) = left.split_first() else {
            unreachable!()
        };
        turns.push_reserved(pass.take(rt, cell));
        left = more;
    }
    let mut top = 0;
    for held in &turns {
        top = top.max(held.stamp().0);
    }
    give_all(turns);
    Some(top)
}

#[test]
fn three_turns_are_held_at_once(rt: HostRuntime) -> Result<(), Fail> {
    let alloc: Global = rt.alloc();
    let (Ok((a, first)), Ok((b, second)), Ok((c, third))) = (
        Cell::new(alloc, at(1), 2),
        Cell::new(alloc, at(2), 2),
        Cell::new(alloc, at(3), 2),
    ) else {
        panic!(rt; "no memory")
    };
    let cells = [a, b, c];
    let mut passes = [first, second, third];
    assert_eq!(rt; add_to_all(&rt, &cells, &mut passes, 4), Some(5));
    assert_eq!(rt; survey(&rt, alloc, &cells, &mut passes), Some(5));
    Ok(())
}

#[test]
fn a_joined_pass_is_taken_out_again(rt: HostRuntime) -> Result<(), Fail> {
    let Ok((cell, mut first)) = Cell::new(rt.alloc(), at(5), 2) else {
        panic!(rt; "no memory")
    };
    let second = cell.split(&mut first, 7);
    let number = second.number();
    cell.join(&mut first, second);
    let mut second = cell.part(&mut first, number, 7);
    assert_eq!(rt; attempt(&cell, &mut second, Call::Open(7), 1), Some(Ok(5)));
    let full = FamError::HistoryFull { used: 2, need: 1 };
    assert_eq!(rt; attempt(&cell, &mut first, Call::Get, 2), Some(Err(full)));
    assert_eq!(rt; attempt(&cell, &mut second, Call::Close(7), 2), Some(Ok(5)));
    let Ok(passes) = Vec::from_array(rt.alloc(), [first, second]) else {
        panic!(rt; "no memory")
    };
    let Ok((counter, entries)) = cell.close(passes) else {
        panic!(rt; "a pass is out")
    };
    assert_eq!(rt; counter.booked, 0);
    assert_eq!(rt; entries_of(entries.as_slice(), number), 2);
    Ok(())
}

fn at(value: u64) -> Counter
    ensures { result.booked ≡ 0 }
{
    Counter { value, booked: 0 }
}

// Adds 1 to each counter at one stamp above all of theirs, or to none of them.
#[cycle(add_at_once)]
fn add_to_all<R: Wait>(
    rt: &R,
    cells: &[Cell<Counter>],
    passes: &mut [Pass<Counter>],
    stamp: u64,
) -> Option<u64>
    requires each { AllOfEach cells.now passes.old }
    requires early { stamp < 2 ^ 62 }
    ensures each { AllOfEach cells.now passes.new }
    ensures later { IfSome result (λ t. stamp < t) }
{
    let Some((pass, rest)) = passes.split_first_mut() else {
        return Some(stamp + 1);
    };
    let Some((cell, more)) = cells.split_first() else {
        unreachable!()
    };
    add_to_one(rt, cell, pass, more, rest, stamp)
}

// The same on this cell and on the others.
#[cycle(add_at_once)]
fn add_to_one<R: Wait>(
    rt: &R,
    cell: &Cell<Counter>,
    pass: &mut Pass<Counter>,
    more: &[Cell<Counter>],
    rest: &mut [Pass<Counter>],
    stamp: u64,
) -> Option<u64>
    requires one { IsPassOf cell.now pass.old }
    requires each { AllOfEach more.now rest.old }
    requires early { stamp < 2 ^ 62 }
    ensures one { IsPassOf cell.now pass.new }
    ensures each { AllOfEach more.now rest.new }
    ensures later { IfSome result (λ t. stamp < t) }
{
    let mut held = pass.take(rt, cell);
    let own = held.stamp().0;
    let Ok(copy) = held.reserve(&Call::Add(1), Stamp(stamp)) else {
        held.give_back();
        return None;
    };
    match add_to_all(rt, more, rest, stamp.max(own)) {
        Some(t) => {
            held.finish(Call::Add(1), Stamp(t), copy);
            Some(t)
        }
        None => {
            held.give_back();
            None
        }
    }
}
