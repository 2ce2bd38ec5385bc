//! Rows of values, owned and borrowed.
ghost use Rattle.std.specs.Prelude.{◌≡◌, ◌<◌, ◌≤◌, ◌+◌, ◌*◌, ◌/◌, ◌%◌, ◌^◌, ◌++◌, ℕ, Some, length, IfOk, OnOk, OnErr, vec_capacity};
ghost use Rattle.std.specs.List.{flat_map, slice_get, slice_range};
ghost use Rattle.stark_support.specs.MatrixRows.{HasEntriesDown, HaveEntriesDown, entry_round};

use crate::field::{ExtensionField, Field};
use crate::packed::{PackedValue, packed_from_fn};
use std::alloc::{AllocError, Global};

/// Rows of a matrix, one after the other.
#[derive(Debug, Drop)]
pub struct RowMajorMatrix<T> {
    pub values: Vec<T>,
    pub width: usize,
    /// Each row is whole; a matrix of width 0 has no value.
    pub ghost whole_rows: { length values.items % width ≡ 0 },
}

impl<T> RowMajorMatrix<T> {
    /// The matrix of rows of `width` values each.
    pub fn new(values: Vec<T>, width: usize) -> RowMajorMatrix<T>
        requires { length values.items % width ≡ 0 }
        ensures values { result.values ≡ values }
        ensures width { result.width ≡ width }
    {
        RowMajorMatrix { values, width }
    }

    /// The matrix of one column.
    pub fn new_col(values: Vec<T>) -> RowMajorMatrix<T>
        ensures values { result.values ≡ values }
        ensures width { result.width ≡ 1 }
    {
        RowMajorMatrix { values, width: 1 }
    }

    /// The number of the values in a row.
    pub fn width(&self) -> usize
        ensures { result ≡ self.now.width }
    {
        self.width
    }

    /// The number of the rows: 0 at width 0.
    pub fn height(&self) -> usize
        ensures { result ≡ length self.now.values.items / self.now.width }
    {
        if self.width == 0 {
            0
        } else {
            self.values.len() / self.width
        }
    }

    /// The row of this index.
    pub fn row(&self, r: usize) -> &[T]
        requires { r < length self.now.values.items / self.now.width }
        ensures { result.now ≡ slice_range self.now.values.items (r * self.now.width)
            (r * self.now.width + self.now.width) }
    {
        let start = r * self.width;
        &self.values[start..start + self.width]
    }
}

/// The row that `r` is among `height` rows, taken round the end.
fn row_within(r: usize, height: usize) -> usize
    requires { 0 < height }
    ensures within { result < height }
    ensures same { (i : ℕ) → (result + i) % height ≡ (r + i) % height }
{
    r % height
}

/// The row that lies `further` after row `r` of `height` rows, taken round the end.
fn row_after(r: usize, further: usize, height: usize) -> usize
    requires { 0 < height }
    ensures { result ≡ (r + further) % height }
{
    let first = r % height;
    let more = further % height;
    if more < height - first {
        first + more
    } else {
        more - (height - first)
    }
}

impl<T: Copy> RowMajorMatrix<T> {
    /// The value of a column in the row that lies `further` after row `r`, taken round the end.
    fn cell_down(&self, r: usize, further: usize, column: usize) -> T
        requires rows { 0 < length self.now.values.items / self.now.width }
        requires column { column < self.now.width }
        ensures { entry_round self.now.values.items self.now.width (r + further) column
            ≡ Some result }
    {
        self.values[row_after(r, further, self.height()) * self.width + column]
    }

    /// The packed values of a column in the rows `r`, `r + 1`, .., a row a lane, taken round the
    /// end.
    fn packed_round<P: PackedValue<Value = T>>(&self, r: usize, column: usize) -> P
        requires rows { 0 < length self.now.values.items / self.now.width }
        requires column { column < self.now.width }
        ensures { HasEntriesDown P.lanes P.WIDTH self.now.values.items self.now.width r column
            result }
    {
        packed_from_fn(
            |lane| -> T
                requires rows { 0 < length self.now.values.items / self.now.width }
                requires column { column < self.now.width }
                ensures { entry_round self.entry.now.values.items self.entry.now.width (r + lane)
                    column ≡ Some result }
            { self.cell_down(r, lane, column) },
        )
    }

    /// The packed values of a column in the rows `r`, `r + 1`, .. where none lies past the end:
    /// then no row's number has to be divided.
    fn packed_straight<P: PackedValue<Value = T>>(&self, r: usize, column: usize) -> P
        requires rows { r + P.WIDTH ≤ length self.now.values.items / self.now.width }
        requires column { column < self.now.width }
        ensures { (i : ℕ) → i < P.WIDTH → slice_get (P.lanes result) i
            ≡ slice_get self.now.values.items ((r + i) * self.now.width + column) }
    {
        let mut place = r * self.width + column;
        let mut packed = P::from(self.values[place]);
        for lane in 1..P::WIDTH {
            place += self.width;
            packed = packed.with_lane(lane, self.values[place]);
        }
        packed
    }

    /// The packed values of a column in row `r` and those after it, a row a lane, taken round the
    /// end; `left` rows begin there.
    fn packed_down<P: PackedValue<Value = T>>(&self, r: usize, left: usize, column: usize) -> P
        requires some { 0 < left }
        requires rows { r + left ≡ length self.now.values.items / self.now.width }
        requires column { column < self.now.width }
        ensures { HasEntriesDown P.lanes P.WIDTH self.now.values.items self.now.width r column
            result }
    {
        if P::WIDTH <= left {
            self.packed_straight(r, column)
        } else {
            self.packed_round(r, column)
        }
    }

    /// Puts `vertically_packed_row` in a lent buffer, in place of what it has. Err only where the
    /// buffer has no room for it and memory was refused.
    pub fn vertically_packed_row_into<P: PackedValue<Value = T>>(
        &self,
        r: usize,
        packed: &mut Vec<P>,
    ) -> Result<(), AllocError>
        requires { 0 < length self.now.values.items / self.now.width }
        ensures room { OnErr result (vec_capacity packed.old < self.now.width) }
        ensures kept_room { vec_capacity packed.old ≤ vec_capacity packed.new }
        ensures number { OnOk result (length packed.new.items ≡ self.now.width) }
        ensures lanes { OnOk result (HaveEntriesDown P.lanes P.WIDTH self.now.values.items
            self.now.width r packed.new.items) }
    {
        packed.clear();
        let height = self.height();
        let first = row_within(r, height);
        for column in 0..self.width {
            packed.push(self.packed_down(first, height - first, column))?;
        }
        Ok(())
    }

    /// For each column the packed values of the rows `r`, `r + 1`, .., a row a lane, taken round
    /// the end. Err only where memory was refused.
    pub fn vertically_packed_row<P: PackedValue<Value = T>>(
        &self,
        alloc: Global,
        r: usize,
    ) -> Result<Vec<P>, AllocError>
        requires { 0 < length self.now.values.items / self.now.width }
        ensures number { IfOk result (λ packed. length packed.items ≡ self.now.width) }
        ensures lanes { IfOk result (λ packed.
            HaveEntriesDown P.lanes P.WIDTH self.now.values.items self.now.width r packed.items) }
    {
        let mut packed = Vec::new(alloc);
        self.vertically_packed_row_into(r, &mut packed)?;
        Ok(packed)
    }
}

fn push_coordinates<F: Field, EF: ExtensionField<F>>(
    values: &mut Vec<F>,
    x: EF,
) -> Result<(), AllocError>
    ensures { OnOk result (values.new.items ≡ values.old.items ++ EF.coordinates x) }
{
    for index in 0..EF::DIMENSION {
        values.push(x.coordinate(index))?;
    }
    Ok(())
}

impl<EF> RowMajorMatrix<EF> {
    /// Each element replaced by its coordinates, coordinate 0 first.
    pub fn flatten_to_base<F: Field>(self, alloc: Global) -> Result<RowMajorMatrix<F>, AllocError>
    where
        EF: ExtensionField<F>,
        requires { self.width * EF.DIMENSION < 2 ^ 64 }
        ensures values { IfOk result (λ flat. flat.values.items
            ≡ flat_map EF.coordinates self.values.items) }
        ensures width { IfOk result (λ flat. flat.width ≡ self.width * EF.DIMENSION) }
    {
        let mut values = Vec::new(alloc);
        for x in &self.values {
            push_coordinates(&mut values, *x)?;
        }
        Ok(RowMajorMatrix {
            values,
            width: self.width * EF::DIMENSION,
        })
    }
}

/// Rows of a matrix, one after the other, borrowed.
#[derive(Clone, Copy, Debug)]
pub struct RowMajorMatrixView<'a, T> {
    pub values: &'a [T],
    pub width: usize,
}

impl<'a, T> RowMajorMatrixView<'a, T> {
    /// The view of rows of `width` values each.
    pub fn new(values: &'a [T], width: usize) -> RowMajorMatrixView<'a, T>
        ensures values { result.values.now ≡ values.now }
        ensures width { result.width ≡ width }
    {
        RowMajorMatrixView { values, width }
    }

    /// The view of one row.
    pub fn new_row(values: &'a [T]) -> RowMajorMatrixView<'a, T>
        ensures values { result.values.now ≡ values.now }
        ensures width { result.width ≡ length values.now }
    {
        RowMajorMatrixView {
            values,
            width: values.len(),
        }
    }
}

/// Two matrices, one above the other.
#[derive(Clone, Copy, Debug)]
pub struct VerticalPair<Top, Bottom> {
    pub top: Top,
    pub bottom: Bottom,
}

impl<Top, Bottom> VerticalPair<Top, Bottom> {
    /// The first matrix above the second.
    pub fn new(top: Top, bottom: Bottom) -> VerticalPair<Top, Bottom>
        ensures { result ≡ record { top = top; bottom = bottom } }
    {
        VerticalPair { top, bottom }
    }
}

/// Two borrowed matrices, one above the other: two rows of a trace.
pub type ViewPair<'a, T> = VerticalPair<RowMajorMatrixView<'a, T>, RowMajorMatrixView<'a, T>>;
