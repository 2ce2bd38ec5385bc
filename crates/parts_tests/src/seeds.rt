//! Steps and seeds of shapes: their lengths were counted by hand, from the labels and the numbers'
//! 8 bytes.
ghost use Rattle.std.specs.Prelude.{◌≡◌, [], IfOk, None, Some, length, map, refl};
ghost use Rattle.stark_air.specs.Declaration.{next_width, read_columns};

use stark_air::{BaseAir, every_column};
use stark_support::{DomainSeparator, ExtensionField, Field, RowMajorMatrix};
use stark_test_cases::{apart, numbers_in, shown};
use stark_transcript::StarkShape;
use std::alloc::{AllocError, Global};
use std::test::Fail;

// A table's name | a shape by its fields in their order, 1 for what it has or opens.
pub const CASES: &str = r#"
# The number of steps, the seed's length and its first 29 bytes.
seed | 1 1 1 0 1 0 1 1 0 0 0 0 => 7 steps, 443 bytes: Some([1, 0, 0, 0, 0, 0, 0, 0, 12, 112, 51, 45, 117, 110, 105, 45, 115, 116, 97, 114, 107, 0, 0, 0, 0, 0, 0, 0, 7])
seed | 1 1 1 0 1 0 1 1 0 0 0 3 => 8 steps, 479 bytes: Some([1, 0, 0, 0, 0, 0, 0, 0, 12, 112, 51, 45, 117, 110, 105, 45, 115, 116, 97, 114, 107, 0, 0, 0, 0, 0, 0, 0, 8])

# The seed's length, with work before zeta, also with work before alpha, with randomization and with preprocessed columns.
length | 1 1 1 0 1 0 1 1 0 0 6 0 => 477
length | 1 1 1 0 1 0 1 1 0 0 6 3 => 513
length | 1 1 1 0 1 0 1 1 0 1 0 0 => 487
length | 1 1 1 3 1 0 1 1 0 0 0 0 => 493

# A shape, and the same with one field changed: no two have one seed.
different | 5 5 2 0 1 0 2 1 0 0 0 0, 6 5 2 0 1 0 2 1 0 0 0 0, 5 6 2 0 1 0 2 1 0 0 0 0, 5 5 3 0 1 0 2 1 0 0 0 0, 5 5 2 1 1 0 2 1 0 0 0 0, 5 5 2 0 2 0 2 1 0 0 0 0, 5 5 2 0 1 1 2 1 0 0 0 0, 5 5 2 0 1 0 3 1 0 0 0 0, 5 5 2 0 1 0 2 0 0 0 0 0, 5 5 2 0 1 0 2 1 1 0 0 0, 5 5 2 0 1 0 2 1 0 1 0 0, 5 5 2 0 1 0 2 1 0 0 1 0, 5 5 2 0 1 0 2 1 0 0 0 1 => 13 seeds

# An AIR's widths, public values and periodic columns, and whether it reads each next row | the
# key's width, both heights' logarithms, chunks, random commitment, work before zeta, before alpha.
shape of an air | 7 3 5 2 1 1 | 3 9 8 4 1 6 5 => StarkShape { log_ext_degree: 9, log_degree: 8, main_width: 7, preprocessed_width: 3, num_public_values: 5, num_periodic_columns: 2, num_quotient_chunks: 4, opens_main_next_row: true, opens_preprocessed_next_row: true, has_randomization: true, ood_pow_bits: 6, constraint_pow_bits: 5 }
shape of an air | 7 3 5 2 1 1 | 3 9 8 4 1 6 0 => StarkShape { log_ext_degree: 9, log_degree: 8, main_width: 7, preprocessed_width: 3, num_public_values: 5, num_periodic_columns: 2, num_quotient_chunks: 4, opens_main_next_row: true, opens_preprocessed_next_row: true, has_randomization: true, ood_pow_bits: 6, constraint_pow_bits: 0 }
shape of an air | 5 0 3 1 0 0 | 0 5 5 2 0 0 0 => StarkShape { log_ext_degree: 5, log_degree: 5, main_width: 5, preprocessed_width: 0, num_public_values: 3, num_periodic_columns: 1, num_quotient_chunks: 2, opens_main_next_row: false, opens_preprocessed_next_row: false, has_randomization: false, ood_pow_bits: 0, constraint_pow_bits: 0 }

# The length of such a shape's seed, and its bytes as digits of base 257 modulo 2^64: computed in
# Python from the layout of a seed that docs/FORMATS.md tells.
seed of an air | 7 3 5 2 1 1 | 3 9 8 4 1 6 5 => 607 bytes, 8379380302961924998
seed of an air | 7 3 5 2 1 1 | 3 9 8 4 1 6 0 => 571 bytes, 14077582107553920183
seed of an air | 4 0 2 0 1 0 | 0 5 5 1 0 0 0 => 443 bytes, 8560190014397801379
seed of an air | 5 0 3 1 1 0 | 0 5 5 2 0 0 0 => 443 bytes, 4060782654063367847
seed of an air | 5 0 3 1 0 0 | 0 5 5 2 0 0 0 => 443 bytes, 7566528070564955814
seed of an air | 4 2 0 1 1 0 | 2 6 5 2 1 0 3 => 573 bytes, 11407991838644381287
seed of an air | 4 2 0 1 1 1 | 2 6 5 2 1 0 3 => 573 bytes, 11407991838644381288
seed of an air | 1 0 0 0 0 0 | 0 0 0 1 0 0 0 => 443 bytes, 17590433122777902483
"#;

/// The answer to a case of these tables.
pub fn answer<F: Field, EF: ExtensionField<F>>(
    alloc: Global,
    table: &str,
    text: &str,
) -> Result<String, Fail> {
    match table {
        "seed" => first_bytes::<F, EF>(alloc, text),
        "length" => length::<F, EF>(alloc, text),
        "different" => different::<F, EF>(alloc, text),
        "shape of an air" => shown(alloc, &shape_of_air::<F>(alloc, text)?),
        "seed of an air" => seed_of_air::<F, EF>(alloc, text),
        _ => Err(Fail::new("no such table")),
    }
}

fn shape_in(text: &str) -> Result<StarkShape, Fail> {
    let [
        log_ext_degree,
        log_degree,
        main_width,
        preprocessed_width,
        num_public_values,
        num_periodic_columns,
        num_quotient_chunks,
        opens_main,
        opens_preprocessed,
        randomization,
        ood_pow_bits,
        constraint_pow_bits,
    ] = numbers_in::<12>(text)?;
    Ok(StarkShape {
        log_ext_degree: log_ext_degree as usize,
        log_degree: log_degree as usize,
        main_width: main_width as usize,
        preprocessed_width: preprocessed_width as usize,
        num_public_values: num_public_values as usize,
        num_periodic_columns: num_periodic_columns as usize,
        num_quotient_chunks: num_quotient_chunks as usize,
        opens_main_next_row: opens_main == 1,
        opens_preprocessed_next_row: opens_preprocessed == 1,
        has_randomization: randomization == 1,
        ood_pow_bits: ood_pow_bits as usize,
        constraint_pow_bits: constraint_pow_bits as usize,
    })
}

fn separator<F: Field, EF: ExtensionField<F>>(
    alloc: Global,
    text: &str,
) -> Result<DomainSeparator, Fail> {
    Ok(shape_in(text)?.domain_separator::<F, EF>(alloc)?)
}

fn first_bytes<F: Field, EF: ExtensionField<F>>(alloc: Global, text: &str) -> Result<String, Fail> {
    let pattern = shape_in(text)?.pattern::<F, EF>(alloc)?;
    let steps = pattern.steps().len();
    let separator = separator::<F, EF>(alloc, text)?;
    let (length, front) = (separator.seed().len(), separator.seed().get(..29));
    Ok(format!(in alloc; "{steps} steps, {length} bytes: {front:?}")?)
}

fn length<F: Field, EF: ExtensionField<F>>(alloc: Global, text: &str) -> Result<String, Fail> {
    let separator = separator::<F, EF>(alloc, text)?;
    Ok(format!(in alloc; "{}", separator.seed().len())?)
}

/// How many seeds of the shapes there are, where no two are the same; else the shape whose seed
/// another one has.
fn different<F: Field, EF: ExtensionField<F>>(alloc: Global, text: &str) -> Result<String, Fail> {
    let mut value: Vec<DomainSeparator> = Vec::new(alloc);
    for shape in text.split(", ") {
        let next = separator::<F, EF>(alloc, shape)?;
        if value.iter().any(|other| other.seed() == next.seed()) {
            return Ok(format!(in alloc; "{shape} has another's")?);
        }
        value.push(next)?;
    }
    Ok(format!(in alloc; "{} seeds", value.len())?)
}

/// An AIR by its counts, and by whether each next row is read; `fixed` are preprocessed columns.
#[derive(Drop)]
struct CountedAir<F> {
    main: usize,
    preprocessed: usize,
    public_values: usize,
    periodic: Vec<Vec<F>>,
    reads_next: bool,
    reads_next_preprocessed: bool,
}

/// All columns of a row where the next row is read, none where it isn't.
fn read_columns(alloc: Global, width: usize, read: bool) -> Result<Vec<usize>, AllocError>
    ensures { IfOk result (λ columns. columns.items ≡ read_columns read width) }
{
    if read {
        every_column(alloc, width)
    } else {
        Ok(Vec::new(alloc))
    }
}

impl<F> BaseAir<F> for CountedAir<F> {
    ghost layout = { λ air. record {
      main = air.main;
      main_next = next_width (read_columns air.reads_next air.main) air.main;
      preprocessed = air.preprocessed;
      preprocessed_next = next_width (read_columns air.reads_next_preprocessed
          air.preprocessed) air.preprocessed;
      public_values = air.public_values;
      periodics = length (map (λ column. column.items) air.periodic.items);
    } };

    ghost preprocessed_trace = { λ air. Some (record { width = air.preprocessed; values = [] }) };

    ghost periodic_columns = { λ air. map (λ column. column.items) air.periodic.items };

    ghost main_next_row_columns = { λ air. read_columns air.reads_next air.main };

    ghost preprocessed_next_row_columns = { λ air.
        read_columns air.reads_next_preprocessed air.preprocessed };

    ghost degree_hint = { λ _. None };

    ghost as_declared = { λ _. record {
      preprocessed_width = refl;
      periodic_columns = refl;
      main_next_row = refl;
      preprocessed_next_row = refl;
    } };

    fn width(&self) -> usize {
        self.main
    }

    fn preprocessed_width(&self) -> usize {
        self.preprocessed
    }

    fn preprocessed_trace(&self, alloc: Global) -> Result<Option<RowMajorMatrix<F>>, AllocError> {
        Ok(Some(RowMajorMatrix {
            values: Vec::new(alloc),
            width: self.preprocessed,
        }))
    }

    fn num_public_values(&self) -> usize {
        self.public_values
    }

    fn periodic_columns(&self) -> &[Vec<F>] {
        &self.periodic
    }

    fn main_next_row_columns(&self, alloc: Global) -> Result<Vec<usize>, AllocError> {
        read_columns(alloc, self.main, self.reads_next)
    }

    fn preprocessed_next_row_columns(&self, alloc: Global) -> Result<Vec<usize>, AllocError> {
        read_columns(alloc, self.preprocessed, self.reads_next_preprocessed)
    }

    fn max_constraint_degree(&self) -> Option<usize> {
        None
    }

    fn num_constraints(&self) -> Option<usize> {
        None
    }

    fn public_boundary_io(&self) -> &[usize] {
        &[]
    }
}

/// A column of one row.
fn short_column<F: Field>(alloc: Global) -> Result<Vec<F>, AllocError> {
    let mut column = Vec::new(alloc);
    column.push(F::ONE)?;
    Ok(column)
}

fn periodic_columns<F: Field>(alloc: Global, count: u32) -> Result<Vec<Vec<F>>, AllocError> {
    let mut columns = Vec::new(alloc);
    for _column in 0..count {
        columns.push(short_column(alloc)?)?;
    }
    Ok(columns)
}

fn counted_air<F: Field>(alloc: Global, text: &str) -> Result<CountedAir<F>, Fail> {
    let [
        main,
        preprocessed,
        public_values,
        periodics,
        next,
        next_preprocessed,
    ] = numbers_in::<6>(text)?;
    let periodic = periodic_columns(alloc, periodics)?;
    Ok(CountedAir {
        main: main as usize,
        preprocessed: preprocessed as usize,
        public_values: public_values as usize,
        periodic,
        reads_next: next == 1,
        reads_next_preprocessed: next_preprocessed == 1,
    })
}

/// The shape of a proof of an AIR: the key's width, both heights' logarithms, the chunks, whether
/// there is a random commitment, and both works.
fn shape_of_air<F: Field>(alloc: Global, text: &str) -> Result<StarkShape, Fail> {
    let (counts, numbers) = apart(text)?;
    let air = counted_air::<F>(alloc, counts)?;
    let [
        key_width,
        log_ext,
        log_degree,
        chunks,
        randomization,
        ood,
        alpha,
    ] = numbers_in::<7>(numbers)?;
    Ok(StarkShape::new::<F, CountedAir<F>>(
        alloc,
        &air,
        key_width as usize,
        log_ext as usize,
        log_degree as usize,
        chunks as usize,
        randomization == 1,
        ood as usize,
        alpha as usize,
    )?)
}

/// The bytes as digits of base 257, modulo 2^64.
fn sum_of_digits(bytes: &[u8]) -> u64 {
    let mut sum: u64 = 0;
    for byte in bytes {
        sum = sum.wrapping_mul(257).wrapping_add(u64::from(*byte));
    }
    sum
}

fn seed_of_air<F: Field, EF: ExtensionField<F>>(alloc: Global, text: &str) -> Result<String, Fail> {
    let separator = shape_of_air::<F>(alloc, text)?.domain_separator::<F, EF>(alloc)?;
    let (length, sum) = (separator.seed().len(), sum_of_digits(separator.seed()));
    Ok(format!(in alloc; "{length} bytes, {sum}")?)
}
