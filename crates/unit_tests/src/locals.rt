//! What is shared.

use lk_ast::{Base, Shared, Value};
use lk_locals::Locals;
use std::test::Fail;

fn int(number: i64) -> Value {
    Value::Base(Base::Int(number))
}

/// The number that a name has, 0 where it has none.
fn number_of(locals: &Locals, name: &str) -> i64 {
    match locals.get(name) {
        Some(Value::Base(Base::Int(number))) => *number,
        _ => 0,
    }
}

#[test]
fn a_shared_scope_stays_as_it_is(rt: HostRuntime) -> Result<(), Fail> {
    let alloc = rt.alloc();
    let outer = Locals::new(alloc)?.bind(alloc, "a", int(1))?;
    let inner = outer.share()?.bind(alloc, "a", int(4))?;
    assert_eq!(rt; (number_of(&outer, "a"), number_of(&inner, "a")), (1, 4));
    Ok(())
}

#[test]
fn what_is_shared_outlives_the_first(rt: HostRuntime) -> Result<(), Fail> {
    let first = Shared::new(rt.alloc(), 7u16)?;
    let second = first.share()?;
    drop(first);
    assert_eq!(rt; *second.get(), 7);
    Ok(())
}
