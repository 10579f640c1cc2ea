// sin and cos: Horner sums in the square of the angle. The literals are the coefficients that the
// rules of specs/Series.antt give.
ghost use Rattle.std.specs.Prelude.{◌≡◌};
ghost use Rattle.maths.specs.Trig.{sin_of, cos_of};

pub fn sin(r: f64) -> f64
    ensures { result ≡ sin_of r }
{
    let z = r * r;
    let a17 = -9.677592958631893e-41;
    let a16 = a17 * z + 1.1516335620771953e-37;
    let a15 = a16 * z + -1.2161250415535183e-34;
    let a14 = a15 * z + 1.130996288644772e-31;
    let a13 = a14 * z + -9.183689863795548e-29;
    let a12 = a13 * z + 6.446950284384475e-26;
    let a11 = a12 * z + -3.868170170630685e-23;
    let a10 = a11 * z + 1.9572941063391266e-20;
    let a9 = a10 * z + -8.220635246624331e-18;
    let a8 = a9 * z + 2.811457254345521e-15;
    let a7 = a8 * z + -7.647163731819817e-13;
    let a6 = a7 * z + 1.6059043836821616e-10;
    let a5 = a6 * z + -2.505210838544172e-08;
    let a4 = a5 * z + 2.7557319223985893e-06;
    let a3 = a4 * z + -0.0001984126984126984;
    let a2 = a3 * z + 0.008333333333333333;
    let a1 = a2 * z + -0.16666666666666666;
    let a0 = a1 * z + 1.0;
    r * a0
}

pub fn cos(r: f64) -> f64
    ensures { result ≡ cos_of r }
{
    let z = r * r;
    let a18 = 2.6882202662866363e-42;
    let a17 = a18 * z + -3.387157535521162e-39;
    let a16 = a17 * z + 3.8003907548547434e-36;
    let a15 = a16 * z + -3.7699876288159054e-33;
    let a14 = a15 * z + 3.279889237069838e-30;
    let a13 = a14 * z + -2.4795962632247972e-27;
    let a12 = a13 * z + 1.6117375710961182e-24;
    let a11 = a12 * z + -8.896791392450572e-22;
    let a10 = a11 * z + 4.1103176233121644e-19;
    let a9 = a10 * z + -1.5619206968586225e-16;
    let a8 = a9 * z + 4.7794773323873846e-14;
    let a7 = a8 * z + -1.1470745597729723e-11;
    let a6 = a7 * z + 2.0876756987868096e-09;
    let a5 = a6 * z + -2.755731922398589e-07;
    let a4 = a5 * z + 2.4801587301587298e-05;
    let a3 = a4 * z + -0.0013888888888888887;
    let a2 = a3 * z + 0.041666666666666664;
    let a1 = a2 * z + -0.5;
    let a0 = a1 * z + 1.0;
    a0
}
