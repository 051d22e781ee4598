//! Tables of values by number, with ample memory.

ghost use Rattle.std.specs.Prelude.{◌≡◌, ◌<◌, IfOk};
ghost use Rattle.nv_numbered.specs.Values.{limit_of};

use crate::checks::{check, check_at};
use nv_numbered::{Chunks, Numbered};
use std::alloc::{AllocError, Global};
use std::process::Abort;

/// Gives a number ten times itself, where room was made, if it has no value.
fn insert_new(values: &mut Numbered<u64>, number: u64) -> Result<(), AllocError>
    requires { number < limit_of values.old }
    ensures { limit_of values.new ≡ limit_of values.old }
{
    values.reserve(1)?;
    if values.get(number).is_none() {
        values.insert(number, number.wrapping_mul(10));
    }
    Ok(())
}

/// These numbers alone are listed, in this order and with these values.
fn assert_listed(rt: &impl Abort, values: &Numbered<u64>, wanted: &[(u64, u64)]) {
    check(rt, values.len() == wanted.len(), "how many have a value");
    let mut listed = values.iter();
    for (number, value) in wanted {
        let is_next = listed.next() == Some((*number, value));
        check_at(rt, is_next, "a listed value", *number);
    }
    check(rt, listed.next().is_none(), "the end of the list");
}

const FAR: [(u64, u64); 4] = [
    (4095, 40_950),
    (4096, 40_960),
    (8191, 81_910),
    (12_288, 122_880),
];

/// Numbers in four leaves. The one that is alone in its leaf goes.
fn stand_far(rt: &impl Abort, values: &mut Numbered<u64>) -> Result<(), AllocError>
    requires { limit_of values.old ≡ 12289 }
{
    insert_new(values, 12_288)?;
    insert_new(values, 8191)?;
    insert_new(values, 4095)?;
    insert_new(values, 4096)?;
    assert_listed(rt, values, &FAR);
    check(
        rt,
        values.remove(12_288) == Some(122_880),
        "the value of 12,288",
    );
    check(rt, values.get(12_288).is_none(), "no value of 12,288");
    assert_listed(rt, values, &FAR[..3]);
    Ok(())
}

#[test]
fn numbers_stand_in_leaves(rt: HostRuntime) -> Result<(), AllocError> {
    let mut values = Numbered::<u64>::new(rt.alloc(), 12_289)?;
    check(&rt, values.is_empty(), "no value");
    stand_far(&rt, &mut values)
}

/// The numbers 5 and 1, each with ten times itself.
fn given(alloc: Global) -> Result<Numbered<u64>, AllocError>
    ensures { IfOk result (λ values. limit_of values ≡ 8) }
{
    let mut values = Chunks::new(alloc);
    values.push(50)?;
    values.push(10)?;
    let numbers = vec![in alloc; 5, 1]?;
    Numbered::from_values(alloc, values, numbers, 8)
}

/// One value is set to 1, and a number that had none gets one.
fn assert_given(rt: &impl Abort, values: &mut Numbered<u64>) -> Result<(), AllocError>
    requires { limit_of values.old ≡ 8 }
{
    assert_listed(rt, values, &[(1, 10), (5, 50)]);
    match values.get_mut(5) {
        Some(value) => *value = 1,
        None => rt.panic("a value of 5"),
    }
    if values.get(7).is_none() {
        values.push(7, 70)?;
    }
    assert_listed(rt, values, &[(1, 10), (5, 1), (7, 70)]);
    Ok(())
}

#[test]
fn given_values_stand_under_their_numbers(rt: HostRuntime) -> Result<(), AllocError> {
    let mut values = given(rt.alloc())?;
    assert_given(&rt, &mut values)
}
