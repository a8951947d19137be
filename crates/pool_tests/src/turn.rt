//! What no clause says: that turns come, and that what threads do in turns adds up.
ghost use Rattle.std.specs.Prelude.{◌≡◌, ◌+◌};
ghost use Rattle.pool_tests.specs.Shares.{IsCounted};

mod counter;
mod tally;

use counter::{Counter, Part};
use std::sync::Wait;
use std::test::Fail;
use std::thread::{Threads, join};

#[test]
fn each_seat_finds_what_the_other_gave(rt: HostRuntime) -> Result<(), Fail> {
    let (counter, mut first) = Counter::open(rt.alloc(), 40)?;
    let mut second = counter.part(&mut first, 10).into_ticket().into_part();
    assert_eq!(rt; counter.add(&rt, &mut second, 2), Some(40));
    assert_eq!(rt; counter.add(&rt, &mut first, 5), Some(42));
    assert_eq!(rt; counter.close(&rt, first), 47);
    Ok(())
}

#[test]
fn four_threads_add_up(rt: HostRuntime) -> Result<(), Fail> {
    let (counter, mut one) = Counter::open(rt.alloc(), 0)?;
    let two = counter.part(&mut one, 0);
    let three = counter.part(&mut one, 0);
    let four = counter.part(&mut one, 0);
    let (part, counted) = count_by_four(&rt, &counter, (one, two), (three, four));
    assert_eq!(rt; counted, 40_000);
    assert_eq!(rt; counter.close(&rt, part), 40_000);
    Ok(())
}

/// Takes and gives ten thousand turns, and answers how many of them added one.
fn count<R: Wait>(rt: &R, counter: &Counter, mut part: Part) -> (Part, u64)
    requires own { part.counter ≡ counter.now }
    ensures counted { IsCounted counter.now part.amount 10000 result }
{
    let mut counted = 0;
    for _round in 0..10_000u64 {
        if counter.add(rt, &mut part, 1).is_some() {
            counted += 1;
        }
    }
    (part, counted)
}

/// Two threads count at once, and one part has what both have added.
fn count_by_two<R: Threads + Wait + Sync>(
    rt: &R,
    counter: &Counter,
    parts: (Part, Part),
) -> (Part, u64)
    requires own { (parts.0.counter ≡ counter.now) × (parts.1.counter ≡ counter.now) }
    ensures counted { IsCounted counter.now (parts.0.amount + parts.1.amount) 20000 result }
{
    let (one, two) = parts;
    let ((mut part, first), (other, second)) = join(
        rt,
        move || -> (Part, u64)
            requires { one.counter ≡ counter.now }
            ensures { IsCounted counter.entry.now one.amount 10000 result }
        { count(rt, counter, one) },
        move || -> (Part, u64)
            requires { two.counter ≡ counter.now }
            ensures { IsCounted counter.entry.now two.amount 10000 result }
        { count(rt, counter, two) },
    );
    counter.merge(&mut part, other);
    (part, first + second)
}

/// Four threads count at once, and one part has what all have added.
fn count_by_four<R: Threads + Wait + Sync>(
    rt: &R,
    counter: &Counter,
    left: (Part, Part),
    right: (Part, Part),
) -> (Part, u64)
    requires left { (left.0.counter ≡ counter.now) × (left.1.counter ≡ counter.now) }
    requires right { (right.0.counter ≡ counter.now) × (right.1.counter ≡ counter.now) }
    ensures counted { IsCounted counter.now (left.0.amount + left.1.amount + (right.0.amount + right.1.amount)) 40000 result }
{
    let ((mut part, first), (other, second)) = join(
        rt,
        move || -> (Part, u64)
            requires { (left.0.counter ≡ counter.now) × (left.1.counter ≡ counter.now) }
            ensures { IsCounted counter.entry.now (left.0.amount + left.1.amount) 20000 result }
        { count_by_two(rt, counter, left) },
        move || -> (Part, u64)
            requires { (right.0.counter ≡ counter.now) × (right.1.counter ≡ counter.now) }
            ensures { IsCounted counter.entry.now (right.0.amount + right.1.amount) 20000 result }
        { count_by_two(rt, counter, right) },
    );
    counter.merge(&mut part, other);
    (part, first + second)
}
