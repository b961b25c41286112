// Arithmetic and comparisons on words, which are whole numbers in two's complement (Manual 2.1, 4.17 to 4.20, 4.29).
// A word becomes a signed number, is computed with, and becomes a word again.
#![tactic(auto)]

ghost use Rattle.std.specs.Prelude.{false, ◌≡◌, pos, ◌+ℤ◌, ◌-ℤ◌, ◌*ℤ◌};
ghost use Rattle.arithmetic.specs.Distance.{negative?};
ghost use Rattle.model.specs.Words.{signed, to_word, value_of, Op, operate, Op1, operate1};

const LEAST: u32 = 2147483648; // the word of -2^31

const MINUS_ONE: u32 = 4294967295; // the word of -1

// the whole number of a word
fn whole(w: u32) -> i32
    ensures { result ≡ signed w }
{
    w.cast_signed()
}

// the word of a whole number
fn word(z: i32) -> u32
    ensures { result ≡ to_word z }
{
    z.cast_unsigned()
}

// the word of a result, where it is in the range of a word. `i32::try_from` would test its sign too: two jumps in the place of one
pub fn narrow(z: i64) -> Option<u32>
    ensures { result ≡ value_of z }
{
    if z < i64::from(i32::MIN) {
        return None;
    }
    if i64::from(i32::MAX) < z {
        return None;
    }
    Some(word(z as i32))
}

// 64 bits hold every sum, difference and product of two words' whole numbers.
pub fn plus(a: u32, b: u32) -> i64
    ensures { result ≡ signed a +ℤ signed b }
{
    i64::from(whole(a)) + i64::from(whole(b))
}

pub fn minus(a: u32, b: u32) -> i64
    ensures { result ≡ signed a -ℤ signed b }
{
    i64::from(whole(a)) - i64::from(whole(b))
}

// whether an index lies below a lower bound
pub fn under(index: u32, bound: u32) -> bool
    ensures { result ≡ negative? (signed index -ℤ signed bound) }
{
    minus(index, bound) < 0
}

// how far it lies above the bound else. One function giving an Option would put a number for "below" between the bound and the element's address (tried)
pub fn distance(index: u32, bound: u32) -> usize
    requires { negative? (signed index -ℤ signed bound) ≡ false }
    ensures { pos result ≡ signed index -ℤ signed bound }
{
    minus(index, bound) as usize
}

pub fn times(a: u32, b: u32) -> i64
    ensures { result ≡ signed a *ℤ signed b }
{
    i64::from(whole(a)) * i64::from(whole(b))
}

// rounded towards zero; -2^31 by -1 is the one quotient outside the range. `i32::checked_div` asks for a divisor of -1 in a way that costs the loop of
// steps some sixty moves more (tried)
pub fn div(a: u32, b: u32) -> Option<u32>
    ensures { result ≡ operate Op.div a b }
{
    if b == 0 {
        return None;
    }
    if a == LEAST && b == MINUS_ONE {
        return None;
    }
    Some(word(whole(a) / whole(b)))
}

// the remainder has the dividend's sign; by -1 it is 0, of -2^31 too
pub fn rem(a: u32, b: u32) -> Option<u32>
    ensures { result ≡ operate Op.rem a b }
{
    if b == 0 {
        return None;
    }
    if b == MINUS_ONE {
        return Some(0);
    }
    Some(word(whole(a) % whole(b)))
}

// that of -2^31 alone is outside the range. Here and in div and rem the end of the range is tested first, a rule of the project, and by no method of std
pub fn neg(a: u32) -> Option<u32>
    ensures { result ≡ operate1 Op1.neg a }
{
    if a == LEAST {
        return None;
    }
    Some(word(-whole(a)))
}

pub fn not(a: u32) -> u32
    ensures { Some result ≡ operate1 Op1.not? a }
{
    u32::from(a == 0)
}

pub fn eq_w(a: u32, b: u32) -> u32
    ensures { Some result ≡ operate Op.eq_w a b }
{
    u32::from(a == b)
}

pub fn lt(a: u32, b: u32) -> u32
    ensures { Some result ≡ operate Op.lt a b }
{
    u32::from(whole(a) < whole(b))
}

pub fn le(a: u32, b: u32) -> u32
    ensures { Some result ≡ operate Op.le a b }
{
    u32::from(whole(a) <= whole(b))
}

pub fn gt(a: u32, b: u32) -> u32
    ensures { Some result ≡ operate Op.gt a b }
{
    lt(b, a)
}

pub fn ge(a: u32, b: u32) -> u32
    ensures { Some result ≡ operate Op.ge a b }
{
    le(b, a)
}
