//! The AIRs of the cases, and what one reads, as types.
use stark_samples::{AnySampleAir, SmallAir};
use stark_tree_air::TreeAir;

/// What an AIR asks of its columns: four of them, whose next row is read, where nothing else is
/// said.
#[derive(Clone, Copy)]
pub enum Kind {
    Nothing,
    /// That column 0 is zero.
    Column,
    /// That column 0, and the next row's columns 1 and 2, are zero.
    Columns,
    /// That the cube of column 0 is zero.
    Cube,
    /// That the square of column 0 is zero on each row but the last.
    SteppedSquare,
    /// That the first three of eight columns are zero; with or without a next row.
    Wide(bool),
}

/// An AIR without preprocessed and periodic columns and public values; with the author's own bound
/// on the degree.
#[derive(Drop)]
pub struct SizedAir {
    pub kind: Kind,
    pub hint: Option<usize>,
}

/// The cubic, with a bound of its own on the degree multiple.
#[derive(Drop)]
pub struct BoundedCubic {
    pub hint: Option<usize>,
}

/// The counter with what else an AIR may declare: its constraints read no more than the counter's.
/// Where it doesn't read the next row it has none.
#[derive(Drop)]
pub struct DeclaringAir<F> {
    /// Whether the next row is read.
    pub reads_next: bool,
    /// The width of the preprocessed trace, which has no rows; none without one.
    pub preprocessed: Option<usize>,
    /// Whether the preprocessed column's next row is read.
    pub reads_preprocessed_next: bool,
    /// The periodic columns.
    pub periodic: Vec<Vec<F>>,
    /// The bound on the degree multiple.
    pub hint: Option<usize>,
}

/// Any AIR that a case names, or that is made of what stands in one. What a table asks of them is
/// asked of this type alone.
#[derive(Drop)]
pub enum NamedAir<F> {
    Sample(AnySampleAir<F>),
    Small(SmallAir),
    Bounded(BoundedCubic),
    Declaring(DeclaringAir<F>),
    Tree(TreeAir<F>),
}

/// A main row and the one after it, a preprocessed row, periodic values and public values.
#[derive(Clone, Copy)]
pub struct ReadRows<'a, F, EF> {
    pub local: &'a [EF],
    pub next: &'a [EF],
    pub preprocessed: &'a [EF],
    pub periodic: &'a [EF],
    pub public_values: &'a [F],
}
