// Every operator and conversion of numbers on every pair of a set of limits, a line for each
// value and each pair, and document 01's known points on numbers. An Int is printed in decimal, a
// Float as its bit pattern in hexadecimal, a Bool as 0 or 1, a refusal as R and its number.
#![tactic(auto)]

use ink_number::int;
use ink_number::question::Question;
use number_operators::number::Number;
use op::Op;
use test_output::{print, println};

// What a row shows: an Int, two Ints, a pattern, two Floats.
#[derive(Clone, Copy)]
enum Row {
    Int,
    Ints,
    Pattern,
    Floats,
}

// Ints by their patterns: 0, 1, -1, 2, -2, 7, -7, 46341, whose square is the first that is no Int, 2^24 and its neighbours, the
// greatest, the lowest but one and the lowest.
const INTS: [u32; 14] = [
    0,
    1,
    0xffff_ffff,
    2,
    0xffff_fffe,
    7,
    0xffff_fff9,
    46341,
    16777215,
    16777216,
    16777217,
    0x7fff_ffff,
    0x8000_0001,
    0x8000_0000,
];

// Ints on both sides of a tie, and at one: from 2^24 the Floats are 2 apart, from 2^25 4, before 2^31
// 128. Two are negative, -16777217 and -16777219.
const ROUNDED: [u32; 14] = [
    16777218,
    16777219,
    16777220,
    16777221,
    0xfeff_ffff,
    0xfeff_fffd,
    33554433,
    33554434,
    33554435,
    33554438,
    2147483520,
    2147483583,
    2147483584,
    2147483585,
];

// The zeros, the least and the greatest subnormal number, the least normal one, 0.1, 1, -1, 1 and a
// last digit, -2.5, 3, 2^24 and its neighbours, 2^31 and its lower neighbour, the greatest number, the
// infinities and NaN.
const FLOATS: [u32; 20] = [
    0x0000_0000,
    0x8000_0000,
    0x0000_0001,
    0x007f_ffff,
    0x0080_0000,
    0x3dcc_cccd,
    0x3f80_0000,
    0xbf80_0000,
    0x3f80_0001,
    0xc020_0000,
    0x4040_0000,
    0x4b7f_ffff,
    0x4b80_0000,
    0x4b80_0001,
    0x4eff_ffff,
    0x4f00_0000,
    0x7f7f_ffff,
    0x7f80_0000,
    0xff80_0000,
    0x7fc0_0000,
];

// Halves, the greatest fraction and 2^23 after it, fractions next to a whole number, -2^31 and its neighbours, and NaN patterns.
const PATTERNS: [u32; 16] = [
    0x3f00_0000,
    0xbf00_0000,
    0x4aff_ffff,
    0xcb00_0000,
    0x3f7f_ffff,
    0xbf7f_ffff,
    0x3fff_ffff,
    0xbfc0_0000,
    0xcf00_0000,
    0xceff_ffff,
    0xcf00_0001,
    0xff7f_ffff,
    0x7f80_0001,
    0x7fff_ffff,
    0xff80_0001,
    0xffff_ffff,
];

fn print_int(n: i32) {
    print(format_args!(" {n}"));
}

fn print_pattern(b: u32) {
    print(format_args!(" {b:08x}"));
}

fn print_float(x: f32) {
    print_pattern(float_conversions::float_to_bits(x));
}

fn print_bool(b: bool) {
    let digit = u8::from(b);
    print(format_args!(" {digit}"));
}

fn print_divided(d: Result<i32, Question>) {
    match d {
        Ok(z) => print_int(z),
        Err(question) => {
            let number = u8::from(question);
            print(format_args!(" R {number}"));
        }
    }
}

// The pattern of an Int, what is opposite, its truth and its Float.
fn int_value(a: i32) {
    print(format_args!("int {a}:"));
    print_pattern(int::pattern(a));
    print_int(int::wrapping_neg(a));
    print_bool(int_comparisons::truthy(a));
    print_float(float_conversions::int_to_float(a));
}

// The arithmetic of two numbers of one kind, each answer shown as that kind's are.
fn arithmetic<N: Number, F: Fn(N::Outcome)>(x: N, y: N, show: F)
    requires { F.IsAlwaysCallable show }
{
    for op in [
        Op::Add,
        Op::Subtract,
        Op::Multiply,
        Op::Divide,
        Op::Mod,
        Op::Min,
        Op::Max,
    ] {
        show(number_operators::arith(op, x, y));
    }
}

// The tests on two numbers of one kind.
fn tests<N: Number>(x: N, y: N) {
    for op in [
        Op::Equal,
        Op::NotEquals,
        Op::Less,
        Op::LessThanOrEquals,
        Op::Greater,
        Op::GreaterThanOrEquals,
    ] {
        print_bool(number_operators::test(op, x, y));
    }
}

fn int_pair(a: i32, b: i32) {
    print(format_args!("int {a} {b}:"));
    arithmetic(a, b, print_divided);
    tests(a, b);
    print_bool(int::can_divide(a, b));
}

// A Float and what is opposite, the integral values below and above, its truth and its Int.
fn float_forms(x: f32) {
    print_float(x);
    print_float(ink_float::neg(x));
    print_float(integral_float::floor(x));
    print_float(integral_float::ceiling(x));
    print_bool(ink_float::truthy(x));
    print_int(float_conversions::float_to_int(x));
}

fn pattern_value(b: u32) {
    print(format_args!("pattern {b:08x}:"));
    print_int(int::signed_of(b));
    float_forms(float_conversions::float_from_bits(b));
}

fn float_pair(x: f32, y: f32) {
    print("float");
    print_float(x);
    print_float(y);
    print(":");
    arithmetic(x, y, print_float);
    tests(x, y);
}

fn print_row(what: Row, a: u32, b: u32) {
    match what {
        Row::Int => int_value(int::signed_of(b)),
        Row::Ints => int_pair(int::signed_of(a), int::signed_of(b)),
        Row::Pattern => pattern_value(b),
        Row::Floats => float_pair(
            float_conversions::float_from_bits(a),
            float_conversions::float_from_bits(b),
        ),
    }
    println("");
}

// A row of each pattern, beside a where the row is of two.
fn rows(what: Row, a: u32, patterns: &[u32]) {
    for &b in patterns {
        print_row(what, a, b);
    }
}

// A row of each pair.
fn pairs(what: Row, patterns: &[u32]) {
    for &a in patterns {
        rows(what, a, patterns);
    }
}

fn divided_point(name: &str, d: Result<i32, Question>) {
    print(format_args!("point {name}"));
    print_divided(d);
    println("");
}

fn float_point(name: &str, n: i32) {
    print(format_args!("point {name}"));
    print_float(float_conversions::int_to_float(n));
    println("");
}

fn division_points() {
    divided_point("-7 / 2:", int::divide(-7, 2));
    divided_point("-7 % 2:", int::remainder_of(-7, 2));
    divided_point("-2147483648 / -1:", int::divide(i32::MIN, -1));
}

fn conversion_points() {
    float_point("16777216 to Float:", 16777216);
    float_point("16777217 to Float:", 16777217);
    float_point("16777219 to Float:", 16777219);
    divided_point(
        "Int of 2147483648.0:",
        Ok(float_conversions::float_to_int(2147483648.0)),
    );
}

fn ints() {
    println("# int a: pattern, -a, truthy, as Float");
    rows(Row::Int, 0, &INTS);
    rows(Row::Int, 0, &ROUNDED);
    println("# int a b: + - * / % min max == != < <= > >= can_divide");
    pairs(Row::Ints, &INTS);
}

fn floats() {
    println("# pattern b: as Int; the Float x, -x, floor, ceiling, truthy, x to Int");
    rows(Row::Pattern, 0, &FLOATS);
    rows(Row::Pattern, 0, &PATTERNS);
    println("# float x y: + - * / % min max == != < <= > >=");
    pairs(Row::Floats, &FLOATS);
}

fn main() {
    division_points();
    conversion_points();
    ints();
    floats();
}
