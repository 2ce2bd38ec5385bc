//! The prime fields of 31 bits and their extensions of degree four. The numbers were computed in
//! Python: whole numbers modulo the prime, products of polynomials of which X^4 is replaced, and of
//! the extension's inverse the power that it is.
use stark_support::{Field, JsonCodec, NeverNull, TwoAdicField, power_of};
use stark_test_cases::{apart, computed, read, read_all, shown, spelled, word_and_rest};
use std::alloc::Global;
use std::fmt::Debug;
use std::test::Fail;

// Of 2013265921, whose extension has X^4 = 11: a table's name | what is given.
pub const BABY_BEAR_CASES: &str = r#"
# An operation of the base field, and two elements, of which opposites and inverses ask the first.
base | sum | [123456789,987654321] => Some(1111111110)
base | sum | [987654321,2013265920] => Some(987654320)
base | sum | [2013265920,2013265920] => Some(2013265919)
base | sum | [0,987654321] => Some(987654321)
base | difference | [123456789,987654321] => Some(1149068389)
base | difference | [987654321,2013265920] => Some(987654322)
base | difference | [2013265920,2013265920] => Some(0)
base | difference | [0,987654321] => Some(1025611600)
base | product | [123456789,987654321] => Some(6500116)
base | product | [987654321,2013265920] => Some(1025611600)
base | product | [2013265920,2013265920] => Some(1)
base | product | [0,987654321] => Some(0)
base | negative | [123456789,0] => Some(1889809132)
base | negative | [0,0] => Some(0)
base | negative | [2013265920,0] => Some(1)
base | inverse | [123456789,0] => Some(266041062)
base | inverse | [2,0] => Some(1006632961)
base | inverse | [2013265920,0] => Some(2013265920)
base | inverse | [0,0] => None

# Of the extension.
above | sum | [[123456789,987654321,2013265920,7],[5,2013265919,11,1234567890]] => Some(Ext4 { c0: 123456794, c1: 987654319, c2: 10, c3: 1234567897 })
above | difference | [[123456789,987654321,2013265920,7],[5,2013265919,11,1234567890]] => Some(Ext4 { c0: 123456784, c1: 987654323, c2: 2013265909, c3: 778698038 })
above | product | [[123456789,987654321,2013265920,7],[5,2013265919,11,1234567890]] => Some(Ext4 { c0: 1332296430, c1: 1177441689, c2: 1834211196, c3: 1933686633 })
above | product | [[0,1,0,0],[0,0,0,1]] => Some(Ext4 { c0: 11, c1: 0, c2: 0, c3: 0 })
above | inverse | [[123456789,987654321,2013265920,7],[5,2013265919,11,1234567890]] => Some(Ext4 { c0: 591570926, c1: 901102667, c2: 2001632489, c3: 1664092955 })
above | inverse | [[0,0,1,0],[0,0,0,0]] => Some(Ext4 { c0: 0, c1: 0, c2: 549072524, c3: 0 })
above | negative | [[123456789,987654321,2013265920,7],[5,2013265919,11,1234567890]] => Some(Ext4 { c0: 1889809132, c1: 1025611600, c2: 1, c3: 2013265914 })

# An element, and a factor whose quotient is worked out first. Of the first, the third and the fourth
# the quotient of the product that the factor's tells is one less than it.
factor | [123456789,987654321] => 6500116
factor | [987654321,2013265920] => 1025611600
factor | [2013265920,2013265920] => 1
factor | [2013265919,987654321] => 37957279
factor | [0,987654321] => 0
factor | [2013265920,0] => 0
factor above | [[123456789,987654321,2013265920,7],[5,2013265919,11,1234567890]] => Ext4 { c0: 1332296430, c1: 1177441689, c2: 1834211196, c3: 1933686633 }

# An element, and to which power.
power | 31 2013265920 => 1
power | 31 1006632960 => 2013265920
power | 123456789 65537 => 1354285789
power | 31 0 => 1

# The logarithm of a group. Answered are its generators in the base field and in the extension.
generator | 27 => Some(440564289) Some(Ext4 { c0: 440564289, c1: 0, c2: 0, c3: 0 })
generator | 20 => Some(195061667) Some(Ext4 { c0: 195061667, c1: 0, c2: 0, c3: 0 })
generator | 3 => Some(1592366214) Some(Ext4 { c0: 1592366214, c1: 0, c2: 0, c3: 0 })
generator | 2 => Some(1728404513) Some(Ext4 { c0: 1728404513, c1: 0, c2: 0, c3: 0 })
generator | 1 => Some(2013265920) Some(Ext4 { c0: 2013265920, c1: 0, c2: 0, c3: 0 })
generator | 0 => Some(1) Some(Ext4 { c0: 1, c1: 0, c2: 0, c3: 0 })
generator | 28 => None None

# What is read is written the same way. A number that is not below the modulus spells no element.
json | 0 => 0 is 0
json | 2013265920 => 2013265920 is 2013265920
json | 2013265921 => Invalid: the JSON value is refused
json | 2013265922 => Invalid: the JSON value is refused
json | 4294967296 => Invalid: the JSON value is refused
json | -1 => Invalid: the JSON value is refused
json | 1.0 => Invalid: the JSON value is refused
json | null => Invalid: the JSON value is refused

# Four coordinates, each below the modulus.
json above | [0,1,2,2013265920] => [0,1,2,2013265920] is Ext4 { c0: 0, c1: 1, c2: 2, c3: 2013265920 }
json above | [1,2,3,2013265921] => Invalid: the JSON value is refused
json above | [2013265921,2,3,4] => Invalid: the JSON value is refused
json above | [1,2,3] => Invalid: the JSON value is refused
"#;

// Of 2130706433, whose extension has X^4 = 3.
pub const KOALA_BEAR_CASES: &str = r#"
base | sum | [123456789,987654321] => Some(1111111110)
base | sum | [987654321,2130706432] => Some(987654320)
base | sum | [2130706432,2130706432] => Some(2130706431)
base | sum | [0,987654321] => Some(987654321)
base | difference | [123456789,987654321] => Some(1266508901)
base | difference | [987654321,2130706432] => Some(987654322)
base | difference | [2130706432,2130706432] => Some(0)
base | difference | [0,987654321] => Some(1143052112)
base | product | [123456789,987654321] => Some(194387698)
base | product | [987654321,2130706432] => Some(1143052112)
base | product | [2130706432,2130706432] => Some(1)
base | product | [0,987654321] => Some(0)
base | negative | [123456789,0] => Some(2007249644)
base | negative | [0,0] => Some(0)
base | negative | [2130706432,0] => Some(1)
base | inverse | [123456789,0] => Some(730830915)
base | inverse | [2,0] => Some(1065353217)
base | inverse | [2130706432,0] => Some(2130706432)
base | inverse | [0,0] => None
above | sum | [[123456789,987654321,2130706432,7],[5,2130706431,11,1234567890]] => Some(Ext4 { c0: 123456794, c1: 987654319, c2: 10, c3: 1234567897 })
above | difference | [[123456789,987654321,2130706432,7],[5,2130706431,11,1234567890]] => Some(Ext4 { c0: 123456784, c1: 987654323, c2: 2130706421, c3: 896138550 })
above | product | [[123456789,987654321,2130706432,7],[5,2130706431,11,1234567890]] => Some(Ext4 { c0: 56795511, c1: 987654588, c2: 1870870959, c3: 662790974 })
above | product | [[0,1,0,0],[0,0,0,1]] => Some(Ext4 { c0: 3, c1: 0, c2: 0, c3: 0 })
above | inverse | [[123456789,987654321,2130706432,7],[5,2130706431,11,1234567890]] => Some(Ext4 { c0: 1011303690, c1: 735410100, c2: 106863573, c3: 887104786 })
above | inverse | [[0,0,1,0],[0,0,0,0]] => Some(Ext4 { c0: 0, c1: 0, c2: 710235478, c3: 0 })
above | negative | [[123456789,987654321,2130706432,7],[5,2130706431,11,1234567890]] => Some(Ext4 { c0: 2007249644, c1: 1143052112, c2: 1, c3: 2130706426 })
factor | [123456789,987654321] => 194387698
factor | [2130706432,2130706432] => 1
factor | [2130706431,987654321] => 155397791
factor above | [[123456789,987654321,2130706432,7],[5,2130706431,11,1234567890]] => Ext4 { c0: 56795511, c1: 987654588, c2: 1870870959, c3: 662790974 }
power | 3 2130706432 => 1
power | 3 1065353216 => 2130706432
power | 123456789 65537 => 20963830
power | 3 0 => 1
generator | 24 => Some(1791270792) Some(Ext4 { c0: 1791270792, c1: 0, c2: 0, c3: 0 })
generator | 20 => Some(1364057261) Some(Ext4 { c0: 1364057261, c1: 0, c2: 0, c3: 0 })
generator | 3 => Some(1748172362) Some(Ext4 { c0: 1748172362, c1: 0, c2: 0, c3: 0 })
generator | 2 => Some(2113994754) Some(Ext4 { c0: 2113994754, c1: 0, c2: 0, c3: 0 })
generator | 1 => Some(2130706432) Some(Ext4 { c0: 2130706432, c1: 0, c2: 0, c3: 0 })
generator | 0 => Some(1) Some(Ext4 { c0: 1, c1: 0, c2: 0, c3: 0 })
generator | 25 => None None
json | 0 => 0 is 0
json | 2130706432 => 2130706432 is 2130706432
json | 2130706433 => Invalid: the JSON value is refused
json | 2130706434 => Invalid: the JSON value is refused
json | 4294967296 => Invalid: the JSON value is refused
json | -1 => Invalid: the JSON value is refused
json | 1.0 => Invalid: the JSON value is refused
json | null => Invalid: the JSON value is refused
json above | [0,1,2,2130706432] => [0,1,2,2130706432] is Ext4 { c0: 0, c1: 1, c2: 2, c3: 2130706432 }
json above | [1,2,3,2130706433] => Invalid: the JSON value is refused
json above | [2130706433,2,3,4] => Invalid: the JSON value is refused
json above | [1,2,3] => Invalid: the JSON value is refused
"#;

pub fn operation<F: Field + JsonCodec + Debug>(alloc: Global, text: &str) -> Result<String, Fail> {
    let (name, elements) = apart(text)?;
    let elements: Vec<F> = read_all(alloc, elements)?;
    let [x, y] = elements.as_slice() else {
        return Err(Fail::new("no two elements"));
    };
    shown(alloc, &computed::<F>(name, *x, *y))
}

/// The product with a factor whose quotient is worked out first.
pub fn factor<F: TwoAdicField + JsonCodec + Debug>(
    alloc: Global,
    text: &str,
) -> Result<String, Fail> {
    let elements: Vec<F> = read_all(alloc, text)?;
    let [x, factor] = elements.as_slice() else {
        return Err(Fail::new("no two elements"));
    };
    shown(alloc, &x.times_factor(*factor, factor.factor_quotient()))
}

pub fn power<F: Field + JsonCodec + Debug>(alloc: Global, text: &str) -> Result<String, Fail> {
    let (x, exponent) = word_and_rest(text)?;
    let x: F = read(alloc, x)?;
    shown(alloc, &power_of(x, exponent.parse::<u64>()?))
}

/// The generator of the group of `2^bits` elements; none where there is no such group.
fn generator_of<F: TwoAdicField>(bits: usize) -> Option<F> {
    if bits <= F::TWO_ADICITY {
        Some(F::two_adic_generator(bits))
    } else {
        None
    }
}

pub fn generator<F, EF>(alloc: Global, text: &str) -> Result<String, Fail>
where
    F: TwoAdicField + Debug,
    EF: TwoAdicField + Debug,
{
    let bits = text.parse::<usize>()?;
    let (base, above) = (generator_of::<F>(bits), generator_of::<EF>(bits));
    Ok(format!(in alloc; "{base:?} {above:?}")?)
}

pub fn json<T: NeverNull + Debug + Drop>(alloc: Global, text: &str) -> Result<String, Fail> {
    match spelled::<T>(alloc, text) {
        Ok(x) => {
            let written = x.to_json(alloc)?.to_string(alloc)?;
            Ok(format!(in alloc; "{written} is {x:?}")?)
        }
        Err(fault) => Ok(format!(in alloc; "{fault:?}: {fault}")?),
    }
}
