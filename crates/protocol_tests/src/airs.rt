//! The sample AIRs: what they declare, and their constraints folded at 3 over the subgroup of two
//! points with alpha 4. The selectors there are 4 for the first row, 2 for the last and 4 for the
//! transition.
ghost use Rattle.std.specs.Prelude.{◌≡◌, IfOk, IsTrue};
ghost use Rattle.stark_air.specs.Declaration.{next_width};
ghost use Rattle.stark_air.specs.Layout.{Covers};
ghost use Rattle.protocol_tests.specs.Reads.{layout_read};

use crate::calls::{self, reads_of_a_part, selectors_at};
use crate::kinds::{NamedAir, ReadRows};
use crate::named_air::named_air;
use stark_air::{Air, BaseAir, every_column};
use stark_bench::{ClearCommitment, S12289};
use stark_samples::PreprocessedAir;
use stark_support::{
    CanObserve, ExtensionChallenger, ExtensionField, FieldChallenger, PrimeField64, RowMajorMatrix,
    TwoAdicField,
};
use stark_test_cases::{above, apart, elements_in, list_in, numbers_in, shown};
use std::alloc::{AllocError, Global};
use std::fmt::Debug;
use std::test::Fail;

// A table's name | what is given.
pub const CASES: &str = r#"
# The AIR | the main row | the one after it | the preprocessed row | the periodic values | the public values: the folded sum. The
# counter: 4 * (4 * (4 - 5)) + 4 * (7 - 4 - 1) is -8. Of the mixed constraints 16 * (5 - 1) + 4 * (5 - 2) + (5 - 3): in their
# order, base and extension ones alike. Then the first row's selector less one; the column alone, under an author's bound; and
# nothing.
folded | counter | 4 | 7 | empty | empty | 5 => Ext4 { c0: 12281, c1: 0, c2: 0, c3: 0 }
folded | counter | 5 | 7 | empty | empty | 5 => Ext4 { c0: 4, c1: 0, c2: 0, c3: 0 }
folded | mixed | 5 | empty | empty | empty | empty => Ext4 { c0: 78, c1: 0, c2: 0, c3: 0 }
folded | first row | 5 | empty | empty | empty | empty => Ext4 { c0: 3, c1: 0, c2: 0, c3: 0 }
folded | zeros | 5 | empty | empty | empty | empty => Ext4 { c0: 5, c1: 0, c2: 0, c3: 0 }
folded | nothing | 5 | empty | empty | empty | empty => Ext4 { c0: 0, c1: 0, c2: 0, c3: 0 }

# Each half of a pair has 4 * (4 - 5) and 4 * (7 - 4 - 1): 64 * -4 + 16 * 8 + 4 * -4 + 8 is -136. Where the columns differ:
# 64 * (4 * (1 - 5)) + 16 * (4 * (3 - 1 - 1)) + 4 * (4 * (2 - 5)) + 4 * (9 - 2 - 1) is -984.
folded | pair | 4 4 | 7 7 | empty | empty | 5 => Ext4 { c0: 12153, c1: 0, c2: 0, c3: 0 }
folded | pair | 1 2 | 3 9 | empty | empty | 5 => Ext4 { c0: 11305, c1: 0, c2: 0, c3: 0 }

# Fibonacci: 4 * (1 - 5), 4 * (2 - 6), 4 * (3 - 2), 4 * (4 - (1 + 2)) and 2 * (2 - 7), times 256, 64, 16, 4 and 1: -5050. The
# cube of 3. The preprocessed column: 5 - 3. The periodic column of zero and one takes the value -1 at 3.
folded | fibonacci | 1 2 | 3 4 | empty | empty | 5 6 7 => Ext4 { c0: 7239, c1: 0, c2: 0, c3: 0 }
folded | cubic | 3 | empty | empty | empty | empty => Ext4 { c0: 27, c1: 0, c2: 0, c3: 0 }
folded | preprocessed | 5 | empty | 3 | empty | empty => Ext4 { c0: 2, c1: 0, c2: 0, c3: 0 }
folded | periodic | 12288 | empty | empty | 12288 | empty => Ext4 { c0: 0, c1: 0, c2: 0, c3: 0 }
folded | periodic | 5 | empty | empty | 12288 | empty => Ext4 { c0: 6, c1: 0, c2: 0, c3: 0 }

# The AIR: its main and preprocessed columns, public values and periodic columns; how many main and preprocessed columns' next rows
# are read; what the author says of the degree, of the number of constraints, and of the public values at the ends; the periodic
# columns and the preprocessed trace.
declared | counter => [1, 0, 1, 0] [1, 0] None None 0 [] None
declared | cubic => [1, 0, 0, 0] [0, 0] None None 0 [] None
declared | fibonacci => [2, 0, 3, 0] [2, 0] None None 0 [] None
declared | preprocessed => [1, 1, 0, 0] [0, 0] None None 0 [] Some(RowMajorMatrix { values: [1, 2, 3, 4], width: 1 })
declared | pair => [2, 0, 1, 0] [2, 0] None None 0 [] None
declared | hinted => [1, 0, 0, 0] [0, 0] Some(5) None 0 [] None
declared | zeros without a bound => [1, 0, 0, 0] [0, 0] None None 0 [] None
declared | periodic => [1, 0, 0, 1] [0, 0] None None 0 [[0, 1]] None

# The start of a part of two of three columns | the row | the next one. Of the current row the columns 0 and 2 of the part are read, of
# the next one 1 and 2. A part sees the first two columns, or the last two, and no third.
part | 0 | 1 2 3 | 4 5 6 => Some(((Some(Ext4 { c0: 1, c1: 0, c2: 0, c3: 0 }), None), (Some(Ext4 { c0: 5, c1: 0, c2: 0, c3: 0 }), None)))
part | 1 | 1 2 3 | 4 5 6 => Some(((Some(Ext4 { c0: 2, c1: 0, c2: 0, c3: 0 }), None), (Some(Ext4 { c0: 6, c1: 0, c2: 0, c3: 0 }), None)))
"#;

// Over 2013265921, with numbers past 12289, computed in Python: the selectors as sums over
// the subgroup's points, each constraint as it is written, the sum by powers of 4.
pub const OVER_BABY_BEAR: &str = r#"
folded | counter | 1234567890 | 987654321 | empty | empty | 2013265920 => Ext4 { c0: 646038687, c1: 0, c2: 0, c3: 0 }
folded | mixed | 2000000000 | empty | empty | empty | empty => Ext4 { c0: 1734681553, c1: 0, c2: 0, c3: 0 }
folded | pair | 1234567890 987654321 | 2000000000 1789456123 | empty | empty | 16777216 => Ext4 { c0: 989315256, c1: 0, c2: 0, c3: 0 }
folded | fibonacci | 1234567890 987654321 | 2000000000 1789456123 | empty | empty | 2013265920 16777216 1073741824 => Ext4 { c0: 88331926, c1: 0, c2: 0, c3: 0 }
folded | cubic | 1234567890 | empty | empty | empty | empty => Ext4 { c0: 1323332739, c1: 0, c2: 0, c3: 0 }
folded | preprocessed | 5 | empty | 1234567890 | empty | empty => Ext4 { c0: 778698036, c1: 0, c2: 0, c3: 0 }
folded | periodic | 987654321 | empty | empty | 2013265920 | empty => Ext4 { c0: 987654322, c1: 0, c2: 0, c3: 0 }
"#;

/// The answer to a case of these tables.
pub fn answer<F, EF, C>(alloc: Global, case: &str) -> Result<String, Fail>
where
    F: PrimeField64 + TwoAdicField + Debug,
    EF: ExtensionField<F> + Debug,
    C: FieldChallenger<F> + CanObserve<ClearCommitment<F>> + ExtensionChallenger<F, EF> + Clone,
{
    let (table, text) = apart(case)?;
    match table {
        "folded" => folded_by_name::<F, EF, C>(alloc, text),
        "declared" => declared_by_name::<F>(alloc, text),
        "part" => part::<F, EF, C>(alloc, text),
        _ => Err(Fail::new("no such table")),
    }
}

/// Numbers, as elements of the extension.
pub fn row_in<F: PrimeField64, EF: ExtensionField<F>>(
    alloc: Global,
    text: &str,
) -> Result<Vec<EF>, Fail> {
    let mut list = Vec::new(alloc);
    for number in list_in(alloc, text)? {
        list.push(above::<F, EF>(number))?;
    }
    Ok(list)
}

/// How much of a next row is read: nothing, or the whole row.
fn next_width(columns: &[usize], width: usize) -> usize
    ensures { result ≡ next_width columns.now width }
{
    match columns {
        [] => 0,
        _ => width,
    }
}

/// How much an AIR reads of the main row after the current one, and of the preprocessed one.
fn next_widths<F, A: BaseAir<F>>(alloc: Global, air: &A) -> Result<(usize, usize), AllocError>
    ensures main { IfOk result (λ widths. widths.0 ≡ (A.layout air.now).main_next) }
    ensures preprocessed { IfOk result (λ widths. widths.1 ≡ (A.layout air.now).preprocessed_next) }
{
    let columns = air.main_next_row_columns(alloc)?;
    let preprocessed_columns = air.preprocessed_next_row_columns(alloc)?;
    let main = next_width(&columns, air.width());
    let preprocessed = next_width(&preprocessed_columns, air.preprocessed_width());
    Ok((main, preprocessed))
}

/// Whether rows have at least what an AIR reads of them that reads so much of the next ones, and
/// nothing of the preprocessed next one.
fn are_covered<F, EF, A: BaseAir<F>>(
    air: &A,
    next_widths: (usize, usize),
    read: &ReadRows<'_, F, EF>,
) -> bool
    requires main { next_widths.0 ≡ (A.layout air.now).main_next }
    requires preprocessed { next_widths.1 ≡ (A.layout air.now).preprocessed_next }
    ensures { IsTrue result → Covers (layout_read read.now) (A.layout air.now) }
{
    let (main_next, preprocessed_next) = next_widths;
    read.local.len() >= air.width()
        && read.next.len() >= main_next
        && read.preprocessed.len() >= air.preprocessed_width()
        && preprocessed_next == 0
        && read.public_values.len() >= air.num_public_values()
        && read.periodic.len() >= air.num_periodic_columns()
}

/// Whether rows have at least what an AIR reads of them, and it reads nothing of a preprocessed row
/// after the current one.
fn covers<F, EF, A: BaseAir<F>>(
    alloc: Global,
    air: &A,
    read: &ReadRows<'_, F, EF>,
) -> Result<bool, AllocError>
    ensures { IfOk result (λ covers. IsTrue covers
        → Covers (layout_read read.now) (A.layout air.now)) }
{
    let widths = next_widths(alloc, air)?;
    Ok(are_covered(air, widths, read))
}

/// The folded sum: the main row | the one after it | the preprocessed row | the periodic values |
/// the public values.
pub fn folded<F, EF, C, A>(alloc: Global, air: &A, text: &str) -> Result<String, Fail>
where
    F: PrimeField64 + TwoAdicField,
    EF: ExtensionField<F> + Debug,
    C: FieldChallenger<F> + CanObserve<ClearCommitment<F>> + ExtensionChallenger<F, EF> + Clone,
    A: Air<F>,
{
    let (local, rest) = apart(text)?;
    let (next, rest) = apart(rest)?;
    let (preprocessed, rest) = apart(rest)?;
    let (periodic, public_values) = apart(rest)?;
    let local = row_in::<F, EF>(alloc, local)?;
    let next = row_in::<F, EF>(alloc, next)?;
    let preprocessed = row_in::<F, EF>(alloc, preprocessed)?;
    let periodic = row_in::<F, EF>(alloc, periodic)?;
    let public_values = elements_in::<F>(alloc, public_values)?;
    let read = ReadRows {
        local: &local,
        next: &next,
        preprocessed: &preprocessed,
        periodic: &periodic,
        public_values: &public_values,
    };
    let sum = folded_of::<F, EF, C, A>(alloc, air, &read)?;
    shown(alloc, &sum)
}

fn folded_of<F, EF, C, A>(alloc: Global, air: &A, read: &ReadRows<'_, F, EF>) -> Result<EF, Fail>
where
    F: PrimeField64 + TwoAdicField,
    EF: ExtensionField<F>,
    C: FieldChallenger<F> + CanObserve<ClearCommitment<F>> + ExtensionChallenger<F, EF> + Clone,
    A: Air<F>,
{
    if !covers(alloc, air, read)? {
        return Err(Fail::new("a short row"));
    }
    let (zeta, alpha) = (above::<F, EF>(3), above::<F, EF>(4));
    let selectors = selectors_at::<F, EF>(1, zeta).ok_or("3 lies in the domain")?;
    Ok(calls::folded::<F, EF, C, A>(air, read, selectors, alpha)?)
}

fn folded_by_name<F, EF, C>(alloc: Global, text: &str) -> Result<String, Fail>
where
    F: PrimeField64 + TwoAdicField,
    EF: ExtensionField<F> + Debug,
    C: FieldChallenger<F> + CanObserve<ClearCommitment<F>> + ExtensionChallenger<F, EF> + Clone,
{
    let (name, rest) = apart(text)?;
    let air = named_air::<F>(alloc, name)?;
    folded::<F, EF, C, NamedAir<F>>(alloc, &air, rest)
}

fn declared<F: Debug + Drop, A: BaseAir<F>>(alloc: Global, air: &A) -> Result<String, Fail> {
    let columns = [
        air.width(),
        air.preprocessed_width(),
        air.num_public_values(),
        air.num_periodic_columns(),
    ];
    let next = [
        air.main_next_row_columns(alloc)?.len(),
        air.preprocessed_next_row_columns(alloc)?.len(),
    ];
    let trace = air.preprocessed_trace(alloc)?;
    let (degree, count) = (air.max_constraint_degree(), air.num_constraints());
    let boundary = air.public_boundary_io().len();
    let periodic = air.periodic_columns();
    Ok(format!(in alloc;
        "{columns:?} {next:?} {degree:?} {count:?} {boundary} {periodic:?} {trace:?}"
    )?)
}

fn declared_by_name<F: PrimeField64 + Debug>(alloc: Global, name: &str) -> Result<String, Fail> {
    let air = named_air::<F>(alloc, name)?;
    declared::<F, NamedAir<F>>(alloc, &air)
}

fn part<F, EF, C>(alloc: Global, text: &str) -> Result<String, Fail>
where
    F: PrimeField64 + TwoAdicField,
    EF: ExtensionField<F> + Debug,
    C: FieldChallenger<F> + CanObserve<ClearCommitment<F>> + ExtensionChallenger<F, EF> + Clone,
{
    let (start, rest) = apart(text)?;
    let (local, next) = apart(rest)?;
    let [start] = numbers_in::<1>(start)?;
    let local = row_in::<F, EF>(alloc, local)?;
    let next = row_in::<F, EF>(alloc, next)?;
    let none = elements_in::<F>(alloc, "empty")?;
    let reads = reads_of_a_part::<F, EF, C>(start as usize, &local, &next, &none)?;
    shown(alloc, &reads)
}

#[test]
fn columns_and_traces(rt: HostRuntime) -> Result<(), Fail> {
    let alloc = rt.alloc();
    let trace: Option<RowMajorMatrix<S12289>> = PreprocessedAir.preprocessed_trace(alloc)?;
    let columns = [every_column(alloc, 3)?, every_column(alloc, 0)?];
    assert_eq!(rt;
        format!(in alloc; "{trace:?} {columns:?}")?.as_str(),
        "Some(RowMajorMatrix { values: [1, 2, 3, 4], width: 1 }) [[0, 1, 2], []]"
    );
    Ok(())
}
