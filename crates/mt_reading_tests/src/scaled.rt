use mt_scaled::{
    Bytes, Items, Length, MAX_DIMEN, Name, Unit, fix_scaled, half, in_range, mu_mult, mu_of_quad,
    round_decimals, round_ratio, unit_factor, x_over_n, xn_over_d,
};
use std::process::Abort;

#[test]
fn scales_a_fix_word(rt: HostRuntime) {
    assert_eq!(rt; fix_scaled(255, 248, 0, 0, 655360), Some(-327680));
    assert_eq!(rt; fix_scaled(1, 0, 0, 0, 655360), None);
}

#[test]
fn rounds_decimals(rt: HostRuntime) {
    assert_eq!(rt; round_decimals(&[2]), 13107);
}

// One of a unit, in scaled points.
fn one(rt: &impl Abort, unit: Unit) -> u64 {
    let (n, d) = unit_factor(unit).expect(rt, "a factor");
    assert!(rt; 0 < n && n < 20_000 && 0 < d && d < 20_000);
    let (n, d) = (n as u64, d as u64);
    65536 * (n / d) + 65536 * (n % d) / d
}

#[test]
fn has_units_of_length(rt: HostRuntime) {
    assert_eq!(rt; one(&rt, Unit::In), 4_736_286);
    assert_eq!(rt; one(&rt, Unit::Mm), 186_467);
    assert_eq!(rt; unit_factor(Unit::Em), None);
}

#[test]
fn multiplies_math_units(rt: HostRuntime) {
    assert_eq!(rt; mu_of_quad(655360), 36408);
    assert_eq!(rt; mu_mult(-196608, 36408), -109224);
}

#[test]
fn divides(rt: HostRuntime) {
    assert_eq!(rt; half(-3), -1);
    assert_eq!(rt; half(3), 2);
    assert_eq!(rt; x_over_n(-7, 2), -3);
    assert_eq!(rt; xn_over_d(-7, 3, 2), -10);
    assert_eq!(rt; round_ratio(-5, 1, 2), -3);
    assert!(rt; in_range(MAX_DIMEN) && !in_range(-MAX_DIMEN - 1));
}

#[test]
fn computes_with_lengths(rt: HostRuntime) {
    let (quad, space) = (Length { sp: 655360 }, Length { sp: -218453 });
    assert_eq!(rt; quad.plus(space).sp, 436907);
    assert_eq!(rt; quad.minus(space).sp, 873813);
    assert!(rt; space.at_least(quad) == quad && quad.at_least(space) == quad);
    assert!(rt; space.not_negative() == Length { sp: 0 } && quad.not_negative() == quad);
    assert!(rt; quad.is_positive() && !space.is_positive());
}

#[test]
fn keeps_lists(rt: HostRuntime) {
    let numbers = vec![in rt.alloc(); 5, 6].expect(&rt, "memory");
    let list: Items<i64> = Items::from_vec(numbers);
    assert!(rt; list.len() == 2 && !list.is_empty());
    assert!(rt; list.as_slice() == [5, 6].as_slice());
    assert!(rt; list.get(1) == Some(&6) && list.get(2).is_none());
}

#[test]
fn keeps_names(rt: HostRuntime) {
    let name = Name::from_slice(rt.alloc(), b"ab").expect(&rt, "memory");
    assert!(rt; name.len() == 2 && !name.is_empty() && name.get(0) == Some(&97));
    assert!(rt; name.as_slice() == b"ab".as_slice());
    let bytes: Bytes = Items::from_vec(name.into_vec());
    assert!(rt; bytes.into_vec().len() == 2);
}
