//! The schedules of small programs, which are all named `main`.

ghost use Rattle.std.specs.Prelude.{◌≡◌, [], OnOk, IfOk};

use super::modules::{
    assign, begin, begin_elemental, binary, compared, declare, designate, element, end_elemental,
    fill, finish, integer, leave, negated, next, section, set, to, yields,
};
use crate::schedule_text;
use assign_schedule::schedule;
use hlfir_ops::{Builder, Elem, SubKind, ValueBinary, What};
use hlfir_verify::verify;
use std::alloc::{AllocError, Global};
use std::test::Fail;
use ws_base::Name;

fn main(alloc: Global) -> Result<Builder, AllocError>
    ensures { IfOk result (λ build. build.around ≡ []) }
{
    Ok(Builder::new(alloc, Name::from_str(alloc, "main")?))
}

/// The text of what is decided for a module that is built.
fn scheduled(alloc: Global, build: Builder) -> Result<Vec<u8>, Fail>
    requires { build.around ≡ [] }
{
    match verify(alloc, build.finish()) {
        Ok(verified) => {
            let plan = schedule(alloc, &verified)?;
            Ok(schedule_text(alloc, &verified, &plan)?)
        }
        Err(_) => Err(Fail::from("no module of these rules")),
    }
}

/// `a = [1, 2, 3, 4, 5]`
fn filled(alloc: Global, build: &mut Builder) -> Result<u32, AllocError>
    ensures { OnOk result (build.new.around ≡ build.old.around) }
{
    let a = declare(alloc, build, "a", 5)?;
    fill(alloc, build, 2, a, &[1, 2, 3, 4, 5])?;
    Ok(a)
}

/// `a(2:5) = a(1:4)`
fn shifted(alloc: Global, build: &mut Builder) -> Result<(), AllocError>
    ensures { OnOk result (build.new.around ≡ build.old.around) }
{
    let a = filled(alloc, build)?;
    begin(alloc, build, What::Workshare, 3)?;
    assign(alloc, build, 4)?;
    let right = section(alloc, build, a, 1, 4, 1)?;
    yields(alloc, build, right)?;
    let left = section(alloc, build, a, 2, 5, 1)?;
    finish(alloc, build, left)?;
    leave(build);
    Ok(())
}

/// `a = a(5:1:-1)`
fn turned(alloc: Global, build: &mut Builder) -> Result<(), AllocError>
    ensures { OnOk result (build.new.around ≡ build.old.around) }
{
    let a = filled(alloc, build)?;
    begin(alloc, build, What::Workshare, 3)?;
    assign(alloc, build, 4)?;
    let right = section(alloc, build, a, 5, 1, -1)?;
    to(alloc, build, right, a)?;
    leave(build);
    Ok(())
}

/// `a = a + a(1)`
fn raised(alloc: Global, build: &mut Builder) -> Result<(), AllocError>
    ensures { OnOk result (build.new.around ≡ build.old.around) }
{
    let a = filled(alloc, build)?;
    begin(alloc, build, What::Workshare, 3)?;
    assign(alloc, build, 4)?;
    let first = element(alloc, build, a, 1)?;
    let (whole, value) = begin_elemental(alloc, build, Elem::I32, a)?;
    let sum = binary(alloc, build, ValueBinary::Add, &[value, first], Elem::I32)?;
    end_elemental(alloc, build, sum)?;
    to(alloc, build, whole, a)?;
    leave(build);
    Ok(())
}

/// `a(1:9:2) = a(2:10:2)`
fn interleaved(alloc: Global, build: &mut Builder) -> Result<(), AllocError>
    ensures { OnOk result (build.new.around ≡ build.old.around) }
{
    let a = declare(alloc, build, "a", 10)?;
    fill(alloc, build, 2, a, &[1, 2, 3, 4, 5, 6, 7, 8, 9, 10])?;
    begin(alloc, build, What::Workshare, 3)?;
    assign(alloc, build, 4)?;
    let right = section(alloc, build, a, 2, 10, 2)?;
    yields(alloc, build, right)?;
    let left = section(alloc, build, a, 1, 9, 2)?;
    finish(alloc, build, left)?;
    leave(build);
    Ok(())
}

const SAVED: &str = "schedule main
line 2 assign a rhs direct addresses direct dup no
line 4 assign a rhs saved addresses direct dup no
";

const DIRECT: &str = "schedule main
line 2 assign a rhs direct addresses direct dup no
line 4 assign a rhs direct addresses direct dup no
";

#[test]
fn a_section_that_is_shifted(rt: HostRuntime) -> Result<(), Fail> {
    let alloc = rt.alloc();
    let mut build = main(alloc)?;
    shifted(alloc, &mut build)?;
    let text = scheduled(alloc, build)?;
    assert_eq!(rt; text.as_slice(), SAVED.as_bytes());
    Ok(())
}

#[test]
fn an_array_that_is_turned(rt: HostRuntime) -> Result<(), Fail> {
    let alloc = rt.alloc();
    let mut build = main(alloc)?;
    turned(alloc, &mut build)?;
    let text = scheduled(alloc, build)?;
    assert_eq!(rt; text.as_slice(), SAVED.as_bytes());
    Ok(())
}

#[test]
fn an_element_in_a_sum(rt: HostRuntime) -> Result<(), Fail> {
    let alloc = rt.alloc();
    let mut build = main(alloc)?;
    raised(alloc, &mut build)?;
    let text = scheduled(alloc, build)?;
    assert_eq!(rt; text.as_slice(), DIRECT.as_bytes());
    Ok(())
}

#[test]
fn sections_that_are_interleaved(rt: HostRuntime) -> Result<(), Fail> {
    let alloc = rt.alloc();
    let mut build = main(alloc)?;
    interleaved(alloc, &mut build)?;
    let text = scheduled(alloc, build)?;
    assert_eq!(rt; text.as_slice(), DIRECT.as_bytes());
    Ok(())
}

/// `where (a < 0)`, `a = -a`, `b = a`, `elsewhere`, `b = 0`
fn changed_mask(alloc: Global, build: &mut Builder) -> Result<(), AllocError>
    ensures { OnOk result (build.new.around ≡ build.old.around) }
{
    let a = declare(alloc, build, "a", 3)?;
    let b = declare(alloc, build, "b", 3)?;
    fill(alloc, build, 2, a, &[-1, 2, -3])?;
    begin(alloc, build, What::Workshare, 3)?;
    begin(alloc, build, What::Masked, 4)?;
    let mask = compared(alloc, build, ValueBinary::Lt, a, 0)?;
    yields(alloc, build, mask)?;
    assign(alloc, build, 5)?;
    let right = negated(alloc, build, a)?;
    to(alloc, build, right, a)?;
    assign(alloc, build, 6)?;
    to(alloc, build, a, b)?;
    next(build)?;
    begin(alloc, build, What::Elsewhere, 7)?;
    set(alloc, build, 8, b, 0)?;
    leave(build);
    leave(build);
    leave(build);
    Ok(())
}

#[test]
fn a_mask_of_what_is_changed(rt: HostRuntime) -> Result<(), Fail> {
    const TEXT: &str = "schedule main
line 2 assign a rhs direct addresses direct dup no
line 4 mask saved
line 5 assign a rhs direct addresses direct dup no
line 6 assign b rhs direct addresses direct dup no
line 8 assign b rhs direct addresses direct dup no
";
    let alloc = rt.alloc();
    let mut build = main(alloc)?;
    changed_mask(alloc, &mut build)?;
    let text = scheduled(alloc, build)?;
    assert_eq!(rt; text.as_slice(), TEXT.as_bytes());
    Ok(())
}

/// `where (a > 2)`, `b = 10`, `elsewhere (a > 1)`, `b = 20`, `elsewhere`, `b = 30`
fn kept_masks(alloc: Global, build: &mut Builder) -> Result<(), AllocError>
    ensures { OnOk result (build.new.around ≡ build.old.around) }
{
    let a = declare(alloc, build, "a", 4)?;
    let b = declare(alloc, build, "b", 4)?;
    fill(alloc, build, 2, a, &[1, 2, 3, 4])?;
    begin(alloc, build, What::Workshare, 3)?;
    begin(alloc, build, What::Masked, 4)?;
    let first = compared(alloc, build, ValueBinary::Gt, a, 2)?;
    yields(alloc, build, first)?;
    set(alloc, build, 5, b, 10)?;
    next(build)?;
    begin(alloc, build, What::Elsewhere, 6)?;
    let second = compared(alloc, build, ValueBinary::Gt, a, 1)?;
    yields(alloc, build, second)?;
    set(alloc, build, 7, b, 20)?;
    leave(build);
    begin(alloc, build, What::Elsewhere, 8)?;
    set(alloc, build, 9, b, 30)?;
    leave(build);
    leave(build);
    leave(build);
    Ok(())
}

#[test]
fn masks_of_what_stays(rt: HostRuntime) -> Result<(), Fail> {
    const TEXT: &str = "schedule main
line 2 assign a rhs direct addresses direct dup no
line 4 mask direct
line 5 assign b rhs direct addresses direct dup no
line 6 mask direct
line 7 assign b rhs direct addresses direct dup no
line 9 assign b rhs direct addresses direct dup no
";
    let alloc = rt.alloc();
    let mut build = main(alloc)?;
    kept_masks(alloc, &mut build)?;
    let text = scheduled(alloc, build)?;
    assert_eq!(rt; text.as_slice(), TEXT.as_bytes());
    Ok(())
}

/// `1/b > 0`
fn inverse(alloc: Global, build: &mut Builder, b: u32) -> Result<u32, AllocError>
    ensures { OnOk result (build.new.around ≡ build.old.around) }
{
    let one = integer(alloc, build, 1)?;
    let (quotients, value) = begin_elemental(alloc, build, Elem::I32, b)?;
    let quotient = binary(alloc, build, ValueBinary::Div, &[one, value], Elem::I32)?;
    end_elemental(alloc, build, quotient)?;
    compared(alloc, build, ValueBinary::Gt, quotients, 0)
}

/// `where (a > 0)`, `a = -a`, `elsewhere (1/b > 0)`: nothing is assigned by the last mask.
fn mask_alone(alloc: Global, build: &mut Builder) -> Result<(), AllocError>
    ensures { OnOk result (build.new.around ≡ build.old.around) }
{
    let a = declare(alloc, build, "a", 1)?;
    let b = declare(alloc, build, "b", 1)?;
    set(alloc, build, 2, a, 1)?;
    begin(alloc, build, What::Workshare, 3)?;
    begin(alloc, build, What::Masked, 4)?;
    let mask = compared(alloc, build, ValueBinary::Gt, a, 0)?;
    yields(alloc, build, mask)?;
    assign(alloc, build, 5)?;
    let right = negated(alloc, build, a)?;
    to(alloc, build, right, a)?;
    next(build)?;
    begin(alloc, build, What::Elsewhere, 6)?;
    let alone = inverse(alloc, build, b)?;
    yields(alloc, build, alone)?;
    leave(build);
    leave(build);
    leave(build);
    Ok(())
}

#[test]
fn a_mask_without_assignment(rt: HostRuntime) -> Result<(), Fail> {
    const TEXT: &str = "schedule main
line 2 assign a rhs direct addresses direct dup no
line 4 mask saved
line 5 assign a rhs direct addresses direct dup no
line 6 mask direct
";
    let alloc = rt.alloc();
    let mut build = main(alloc)?;
    mask_alone(alloc, &mut build)?;
    let text = scheduled(alloc, build)?;
    assert_eq!(rt; text.as_slice(), TEXT.as_bytes());
    Ok(())
}

/// `b = [7, 8, 9]`, `v = [1, 2, 1]`, `a(v) = b`
fn scattered(alloc: Global, build: &mut Builder) -> Result<(), AllocError>
    ensures { OnOk result (build.new.around ≡ build.old.around) }
{
    let a = declare(alloc, build, "a", 3)?;
    let b = declare(alloc, build, "b", 3)?;
    let v = declare(alloc, build, "v", 3)?;
    fill(alloc, build, 2, b, &[7, 8, 9])?;
    fill(alloc, build, 3, v, &[1, 2, 1])?;
    begin(alloc, build, What::Workshare, 4)?;
    assign(alloc, build, 6)?;
    yields(alloc, build, b)?;
    let left = designate(alloc, build, SubKind::Vector, &[a, v])?;
    finish(alloc, build, left)?;
    leave(build);
    Ok(())
}

#[test]
fn a_vector_subscript_is_checked(rt: HostRuntime) -> Result<(), Fail> {
    const TEXT: &str = "schedule main
line 2 assign b rhs direct addresses direct dup no
line 3 assign v rhs direct addresses direct dup no
line 6 assign a rhs saved addresses saved dup yes
";
    let alloc = rt.alloc();
    let mut build = main(alloc)?;
    scattered(alloc, &mut build)?;
    let text = scheduled(alloc, build)?;
    assert_eq!(rt; text.as_slice(), TEXT.as_bytes());
    Ok(())
}
