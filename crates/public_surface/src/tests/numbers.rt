// Fractions and residues.
use exact::{Exact, Op, OverFault, Wide};
use fraction::{Fraction, FractionFault};
use residue::{Residue, reconstruct};

// The parts of the reduced fraction.
fn parts(num: i128, den: i128) -> Result<(i64, i64), FractionFault> {
    let fraction = Fraction::new(num, den)?;
    Ok((fraction.num(), fraction.den()))
}

#[test]
fn reduced_parts(rt: HostRuntime) {
    let power = 9_223_372_036_854_775_808;
    assert!(rt; parts(6, -4) == Ok((-3, 2)));
    assert!(rt; parts(1, 0) == Err(FractionFault::Zero));
    assert!(rt; parts(power, 2) == Err(FractionFault::TooBig));
    assert!(rt; parts(power, 4) == Ok((2_305_843_009_213_693_952, 1)));
}

// One more than the greatest part is no fraction, and the operands are kept.
#[test]
fn wide_sum(rt: HostRuntime) {
    let one = Fraction::one();
    let Ok(left) = Fraction::new(4_611_686_018_427_387_903, 1) else {
        assert!(rt; false, "the greatest part");
        return;
    };
    let wide = Wide {
        op: Op::Plus,
        left,
        right: one,
    };
    assert!(rt; left.plus(one) == Err(wide));
}

#[test]
fn reconstructions(rt: HostRuntime) {
    assert!(rt;
        reconstruct(768_614_336_404_564_650, 2_305_843_009_213_693_951, 1000) == Some((-1, 3))
    );
    assert!(rt; reconstruct(8, 15, 2) == Some((1, 2)));
    assert!(rt; reconstruct(5, 15, 2) == None);
}

#[test]
fn quotients(rt: HostRuntime) {
    let third = Residue::<15>::from_value(3);
    let two = Residue::<15>::from_value(2);
    assert!(rt; two.over(third) == Err(OverFault::NoInverse(third)));
    assert!(rt; third.over(two) == Ok(Residue::from_value(9)));
    assert_eq!(rt; Residue::<15>::from_small(-1).value(), 14);
}
