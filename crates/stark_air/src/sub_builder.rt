//! Builders for an AIR that is a part of another: it sees some of the main columns.
ghost use Rattle.std.specs.Prelude.{◌≡◌, ◌⊎◌, ◌+◌, ◌≤◌, ℕ, refl, map, Some, None, if◌then◌else◌, nat_lt, IfOk, OnErr};
ghost use Rattle.std.specs.List.{slice_get};
ghost use Rattle.std.proofs.Common.{◌∙◌};
ghost use Rattle.stark_air.specs.Emission.{Asserted};
ghost use Rattle.stark_air.specs.Layout.{Covers};
ghost use Rattle.stark_air.specs.Shift.{shifted_environment, shifted_layout, columns_at, shift, shift_both, shift_environment, shift_layout};

use crate::air::{Air, BaseAir};
use crate::builder::{BaseAirBuilder, ExtensionBuilder, ShownRows};
use crate::window::WindowAccess;
use stark_support::Field;
use std::alloc::AllocError;
use std::marker::PhantomData;
use std::ops::Range;

/// A window of the columns of another one in a range: column `c` is column `start + c`. Nothing is
/// copied. Columns that the other window doesn't have aren't there.
#[derive(Clone, Drop)]
pub struct SubSliced<W, T> {
    window: W,
    range: Range<usize>,
    marker: PhantomData<T>,
}

/// The columns of a row in a range.
fn columns_of<'a, T>(row: &'a [T], range: &Range<usize>) -> &'a [T]
    ensures { (c : ℕ) → slice_get result.now c
        ≡ columns_at range.now.start range.now.end (slice_get row.now) c }
{
    let end = range.end.min(row.len());
    let start = range.start.min(end);
    &row[start..end]
}

/// The column of this number in a range, None past its end.
fn column_of(range: &Range<usize>, number: usize) -> Option<usize>
    ensures { result ≡ (if nat_lt (range.now.start + number) range.now.end then Some
        (range.now.start + number) else None) }
{
    if number < range.end.saturating_sub(range.start) {
        Some(range.start + number)
    } else {
        None
    }
}

impl<T, W: WindowAccess<T>> WindowAccess<T> for SubSliced<W, T> {
    ghost current_at = { λ w. columns_at w.range.start w.range.end (W.current_at w.window) };

    ghost next_at = { λ w. columns_at w.range.start w.range.end (W.next_at w.window) };

    fn current_slice(&self) -> &[T] {
        columns_of(self.window.current_slice(), &self.range)
    }

    fn next_slice(&self) -> &[T] {
        columns_of(self.window.next_slice(), &self.range)
    }

    fn current(&self, i: usize) -> Option<T> {
        let column = column_of(&self.range, i)?;
        self.window.current(column)
    }

    fn next(&self, i: usize) -> Option<T> {
        let column = column_of(&self.range, i)?;
        self.window.next(column)
    }
}

/// A builder that lends another one to an AIR of its own: main column `c` is column `start + c` of
/// the parent, all else is the parent's, and what is asserted goes to the parent, in order.
pub struct SubAirBuilder<'a, AB: BaseAirBuilder, SubAir: BaseAir<AB::F>, T> {
    inner: &'a mut AB,
    column_range: Range<usize>,
    marker: PhantomData<(SubAir, T)>,
}

impl<'a, AB: BaseAirBuilder, SubAir: BaseAir<AB::F>, T> SubAirBuilder<'a, AB, SubAir, T> {
    /// A builder over the main columns in the range, which lies in both rows of the parent's main
    /// window.
    pub fn new(inner: &'a mut AB, column_range: Range<usize>) -> Self
        requires ordered { column_range.start ≤ column_range.end }
        requires current { column_range.end ≤ (AB.layout inner.old).main }
        requires next { column_range.end ≤ (AB.layout inner.old).main_next }
        ensures same_builder { result.inner.ghost_name ≡ inner.entry.ghost_name }
        ensures same_value { result.inner.now ≡ inner.old }
        ensures same_columns { result.column_range ≡ column_range }
    {
        SubAirBuilder {
            inner,
            column_range,
            marker: PhantomData,
        }
    }
}

impl<AB: BaseAirBuilder, SubAir: BaseAir<AB::F>, T> Drop for SubAirBuilder<'_, AB, SubAir, T> {
    fn drop(self)
        ensures { self.exit.0.now ≡ self.entry.inner.now }
    {
        let SubAirBuilder {
            inner: _,
            column_range: _,
            marker: _,
        } = self;
    }
}

impl<AB: BaseAirBuilder, SubAir: BaseAir<AB::F>, T> BaseAirBuilder
    for SubAirBuilder<'_, AB, SubAir, T> {
    type F = AB::F;

    type Expr = AB::Expr;

    type Var = AB::Var;

    type PublicVar = AB::PublicVar;

    type PeriodicVar = AB::PeriodicVar;

    type MainWindow = SubSliced<AB::MainWindow, AB::Var>;

    type PreprocessedWindow = AB::PreprocessedWindow;

    ghost environment = { λ s. shifted_environment s.column_range.start
        (AB.environment s.inner.now) };

    ghost layout = { λ s. shifted_layout s.column_range.start s.column_range.end
        (AB.layout s.inner.now) };

    ghost keeps = { λ s t. (t.inner.ghost_name ≡ s.inner.ghost_name)
        × (t.column_range.start ≡ s.column_range.start)
        × (t.column_range.end ≡ s.column_range.end) };

    ghost may_refuse = { AB.may_refuse };

    ghost after = { λ s cs t. (t.inner.ghost_name ≡ s.inner.ghost_name)
        × (t.column_range.start ≡ s.column_range.start) × (t.column_range.end ≡ s.column_range.end)
        × AB.after s.inner.now (map (shift s.column_range.start) cs) t.inner.now };

    ghost emission_laws = { record {
      nothing = λ s. (refl, refl, refl, AB.emission_laws.nothing s.inner.now);
      both = λ s t u cs ds h k. (
        k.0 ∙ h.0,
        k.1 ∙ h.1,
        k.2
            ∙ h.2,
        shift_both AB.emission_laws s.column_range.start t.column_range.start s.inner.now
            t.inner.now cs h.1 h.3 u.inner.now ds k.3,
      );
      same_environment = λ s t cs h. shift_environment AB.emission_laws s.column_range.start
          t.column_range.start s.inner.now t.inner.now cs h.1 h.3;
      same_layout = λ s t cs h. shift_layout AB.emission_laws s.column_range.start
          t.column_range.start s.inner.now t.inner.now cs h.1 h.3 t.column_range.end
          s.column_range.end h.2;
    } };

    /// The parent's window, in the range of columns.
    fn main(&self) -> Result<SubSliced<AB::MainWindow, AB::Var>, AllocError>
        ensures rows { IfOk result (⟦<Self as ShownRows>⟧.shows_main self.now) }
        ensures memory { OnErr result AB.may_refuse }
        ensures range { IfOk result (λ w. (w.range.start ≡ self.now.column_range.start)
            × (w.range.end ≡ self.now.column_range.end)) }
    {
        let window = self.inner.main()?;
        Ok(SubSliced {
            window,
            range: self.column_range.start..self.column_range.end,
            marker: PhantomData,
        })
    }

    fn preprocessed(&self) -> Result<AB::PreprocessedWindow, AllocError> {
        self.inner.preprocessed()
    }

    fn is_first_row(&self) -> AB::Expr {
        self.inner.is_first_row()
    }

    fn is_last_row(&self) -> AB::Expr {
        self.inner.is_last_row()
    }

    fn is_transition(&self) -> AB::Expr {
        self.inner.is_transition()
    }

    fn public_values(&self) -> &[AB::PublicVar] {
        self.inner.public_values()
    }

    fn periodic_values(&self) -> &[AB::PeriodicVar] {
        self.inner.periodic_values()
    }

    fn is_refused(&self, x: &AB::Expr) -> bool {
        self.inner.is_refused(x)
    }

    fn assert_zero(&mut self, x: AB::Expr) -> Result<(), AllocError> {
        self.inner.assert_zero(x)
    }
}

impl<AB: ExtensionBuilder, SubAir: BaseAir<AB::F>, T> ExtensionBuilder
    for SubAirBuilder<'_, AB, SubAir, T> {
    type EF = AB::EF;

    type ExprEF = AB::ExprEF;

    ghost stands_above = { AB.stands_above };

    ghost may_multiply = { AB.may_multiply };

    ghost from_stands = { AB.from_stands };

    ghost times_above = { AB.times_above };

    fn assert_zero_ext(&mut self, x: AB::ExprEF) -> Result<(), AllocError> {
        self.inner.assert_zero_ext(x)
    }
}

/// Asserts an AIR's constraints over the main columns in the range, which lies in both rows of the
/// builder's main window: main column `c` of the AIR is column `start + c`. As `eval`, an Ok
/// asserts all of them in their order, an Err a beginning.
pub fn eval_on_columns<F: Field, A: Air<F>, AB: ExtensionBuilder<F = F>>(
    air: &A,
    builder: &mut AB,
    columns: Range<usize>,
) -> Result<(), AllocError>
    requires ordered { columns.start ≤ columns.end }
    requires current { columns.end ≤ (AB.layout builder.old).main }
    requires next { columns.end ≤ (AB.layout builder.old).main_next }
    requires covered { Covers (shifted_layout columns.start columns.end (AB.layout builder.old))
        (A.layout air.now) }
    ensures asserted { Asserted AB.after result builder.old
        (map (shift columns.start) (A.constraints air.now)) builder.new }
    ensures memory { OnErr result (AB.may_refuse ⊎ A.takes_memory air.now) }
{
    let mut part: SubAirBuilder<'_, AB, A, AB::Var> = SubAirBuilder::new(builder, columns);
    air.eval(&mut part)
}
