// Reals and hoop points (Manual 2.17, 2.18): two words as an f64, its words again, and the operations, each rounded once; which codes are on reals.
#![tactic(auto)]

ghost use Rattle.std.specs.Prelude.{◌≡◌, true, ◌&&◌, List, ◌⊎◌, ℕ, ◌+◌, ◌*◌, ◌/◌, ◌%◌};
ghost use Rattle.std.specs.Float.{binary64};
ghost use Rattle.std.specs.Float.Ieee.{to_bits};
ghost use Rattle.std.specs.Float.Ieee.Scale.{finite};
ghost use Rattle.model.specs.File.{ins_of};
ghost use Rattle.model.specs.Words.{bit};
ghost use Rattle.model.specs.Reals.{words_many, real_of, less_reals, scaled, shifted};
ghost use Rattle.laws_file.specs.Codes.{is_real?};
ghost use Rattle.reals.specs.Given.{Operates, as_point};

use std::ops::{Add, Mul};

// A pattern is 64 bits: above them all is the sign's, and an infinity is the greatest pattern below it that is no NaN's.
const SIGN: u64 = 1 << 63;

const INFINITY: u64 = f64::to_bits(f64::INFINITY);

// How many words there are.
const WORDS: u64 = 1 << 32;

// A hoop point: two reals.
#[derive(Clone, Copy)]
pub struct Point {
    pub across: f64,
    pub along: f64,
}

// The 64 bits of two words.
fn pattern(high: u32, low: u32) -> u64
    ensures { result ≡ high * words_many + low }
{
    u64::from(high) << 32 | u64::from(low)
}

// The real that two words are. `from_bits` is not defined at a NaN's pattern, so that the pattern is tested first, as a number: without its sign's bit
// it is above an infinity's.
pub fn real_of(high: u32, low: u32) -> f64
    ensures { result ≡ real_of high low }
{
    let bits = pattern(high, low);
    if bits % SIGN <= INFINITY {
        f64::from_bits(bits)
    } else {
        f64::NAN
    }
}

// The words of a real that is finite. That is asked, and no type has it: each result is tested once, right before its words are put.
pub fn high_word(x: f64) -> u32
    requires { finite x ≡ true }
    ensures { result ≡ to_bits binary64 x / words_many }
{
    (x.to_bits() >> 32) as u32
}

pub fn low_word(x: f64) -> u32
    requires { finite x ≡ true }
    ensures { result ≡ to_bits binary64 x % words_many }
{
    (x.to_bits() % WORDS) as u32
}

// Whether a code stands for an instruction on reals. No alternatives are neighbouring codes: for those the language tests a range first.
pub fn is_real(kind: u8) -> bool
    ensures { (f : List ℕ) (p : ℕ) → result ≡ is_real? (ins_of f p kind) }
{
    matches!(kind, 53 | 150 | 152 | 155) || matches!(kind, 151 | 153 | 156)
}

// 150 to 153: the match on the code's number, the last arm for 153.
pub fn operate(kind: u8, a: f64, b: f64) -> f64
    requires { (kind ≡ 150) ⊎ ((kind ≡ 151) ⊎ ((kind ≡ 152) ⊎ (kind ≡ 153))) }
    ensures { Operates kind a b result }
{
    match kind {
        150 => a + b,
        151 => a * b,
        152 => a - b,
        _ => a / b,
    }
}

// 155.
pub fn less(a: f64, b: f64) -> u32
    ensures { result ≡ bit (less_reals a b) }
{
    u32::from(a < b)
}

impl Point {
    // Both its reals are.
    pub fn is_finite(self) -> bool
        ensures { result ≡ (finite self.across && finite self.along) }
    {
        self.across.is_finite() && self.along.is_finite()
    }
}

// Each product is rounded once.
impl Mul<f64> for Point {
    type Output = Point;

    ghost mul_gives = { λ p by r. as_point r ≡ scaled by (as_point p) };

    fn mul(self, by: f64) -> Point {
        Point {
            across: self.across * by,
            along: self.along * by,
        }
    }
}

// Each sum is rounded once.
impl Add for Point {
    type Output = Point;

    ghost add_gives = { λ p by r. as_point r ≡ shifted (as_point by) (as_point p) };

    fn add(self, by: Point) -> Point {
        Point {
            across: self.across + by.across,
            along: self.along + by.along,
        }
    }
}
