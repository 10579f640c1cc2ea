// The C names under which tools/oracle calls the functions that it holds beside the Rust. Each says
// no more than the function that it calls.
#![tactic(auto)]

ghost use Rattle.std.specs.Prelude.{◌≡◌};
ghost use Rattle.std.specs.Float.Ieee.{is_nan};
ghost use Rattle.ieee.specs.Number.{abs_of, max_of, clamp01_of, least_of};
ghost use Rattle.roots.specs.Root.{root_of};
ghost use Rattle.float_bits.specs.Single.{narrow_of};
ghost use Rattle.maths.specs.Trig.{sin_of, cos_of, hypot_of, radians_of, degrees_of};
ghost use Rattle.arcs.specs.Arcs.{atan_of, atan2_of, asin_of};

#[unsafe(no_mangle)]
pub extern "C" fn zebumorn_is_nan(x: f64) -> bool
    ensures { result ≡ is_nan x }
{
    ieee::is_nan(x)
}

#[unsafe(no_mangle)]
pub extern "C" fn zebumorn_abs(x: f64) -> f64
    ensures { result ≡ abs_of x }
{
    ieee::abs(x)
}

#[unsafe(no_mangle)]
pub extern "C" fn zebumorn_max_of(x: f64, k: f64) -> f64
    ensures { result ≡ max_of x k }
{
    ieee::max_of(x, k)
}

#[unsafe(no_mangle)]
pub extern "C" fn zebumorn_clamp01(x: f64) -> f64
    ensures { result ≡ clamp01_of x }
{
    ieee::clamp01(x)
}

#[unsafe(no_mangle)]
pub extern "C" fn zebumorn_least(best: f64, x: f64) -> f64
    ensures { result ≡ least_of best x }
{
    ieee::least(best, x)
}

#[unsafe(no_mangle)]
pub extern "C" fn zebumorn_root(x: f64) -> f64
    ensures { result ≡ root_of x }
{
    roots::root(x)
}

#[unsafe(no_mangle)]
pub extern "C" fn zebumorn_narrow(x: f64) -> f32
    ensures { result ≡ narrow_of x }
{
    float_bits::narrow(x)
}

#[unsafe(no_mangle)]
pub extern "C" fn zebumorn_sin(x: f64) -> f64
    ensures { result ≡ sin_of x }
{
    maths::sin(x)
}

#[unsafe(no_mangle)]
pub extern "C" fn zebumorn_cos(x: f64) -> f64
    ensures { result ≡ cos_of x }
{
    maths::cos(x)
}

#[unsafe(no_mangle)]
pub extern "C" fn zebumorn_atan(x: f64) -> f64
    ensures { result ≡ atan_of x }
{
    arcs::atan(x)
}

#[unsafe(no_mangle)]
pub extern "C" fn zebumorn_asin(x: f64) -> f64
    ensures { result ≡ asin_of x }
{
    arcs::asin(x)
}

#[unsafe(no_mangle)]
pub extern "C" fn zebumorn_radians(x: f64) -> f64
    ensures { result ≡ radians_of x }
{
    maths::radians(x)
}

#[unsafe(no_mangle)]
pub extern "C" fn zebumorn_degrees(x: f64) -> f64
    ensures { result ≡ degrees_of x }
{
    maths::degrees(x)
}

#[unsafe(no_mangle)]
pub extern "C" fn zebumorn_atan2(y: f64, x: f64) -> f64
    ensures { result ≡ atan2_of y x }
{
    arcs::atan2(y, x)
}

#[unsafe(no_mangle)]
pub extern "C" fn zebumorn_hypot(x: f64, y: f64) -> f64
    ensures { result ≡ hypot_of x y }
{
    maths::hypot(x, y)
}
