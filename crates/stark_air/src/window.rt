//! Two rows of variables, one after the other.
ghost use Rattle.std.specs.Prelude.{◌≡◌, ℕ, ◌*◌, Option, length, take, drop};
ghost use Rattle.std.specs.List.{slice_get};

use stark_support::RowMajorMatrixView;
use std::marker::PhantomData;

/// The current row of variables, and the next one.
pub trait WindowAccess<T> {
    /// The variable of a column in the current row.
    ghost current_at: { Self → ℕ → Option T };

    /// The variable of a column in the next row.
    ghost next_at: { Self → ℕ → Option T };

    /// The current row.
    fn current_slice(&self) -> &[T]
        ensures { (c : ℕ) → slice_get result.now c ≡ current_at self.now c };

    /// The next row.
    fn next_slice(&self) -> &[T]
        ensures { (c : ℕ) → slice_get result.now c ≡ next_at self.now c };

    /// The variable of column `i` in the current row; None where the row has no such column.
    fn current(&self, i: usize) -> Option<T>
        ensures { result ≡ current_at self.now i };

    /// The variable of column `i` in the next row; None where the row has no such column.
    fn next(&self, i: usize) -> Option<T>
        ensures { result ≡ next_at self.now i };
}

/// Two borrowed rows. A builder's window has to name every type whose values the builder borrows:
/// `F` is the one that isn't `T`.
#[derive(Clone, Copy, Debug)]
pub struct RowWindow<'a, T, F = ()> {
    pub current: &'a [T],
    pub next: &'a [T],
    pub of: PhantomData<&'a F>,
}

impl<'a, T> RowWindow<'a, T> {
    /// The two rows of a view of two rows.
    pub fn from_view(view: &RowMajorMatrixView<'a, T>) -> RowWindow<'a, T>
        requires { length view.now.values.now ≡ 2 * view.now.width }
        ensures current { result.current.now ≡ take view.now.width view.now.values.now }
        ensures next { result.next.now ≡ drop view.now.width view.now.values.now }
    {
        let (current, next) = view.values.split_at(view.width);
        RowWindow {
            current,
            next,
            of: PhantomData,
        }
    }

    /// Two rows from two slices.
    pub fn from_two_rows(current: &'a [T], next: &'a [T]) -> RowWindow<'a, T>
        ensures current { result.current.now ≡ current.now }
        ensures next { result.next.now ≡ next.now }
    {
        RowWindow {
            current,
            next,
            of: PhantomData,
        }
    }

    /// The window of these rows that names `F`.
    pub fn over<F>(self) -> RowWindow<'a, T, F>
        ensures current { result.current.now ≡ self.entry.current.now }
        ensures next { result.next.now ≡ self.entry.next.now }
    {
        RowWindow {
            current: self.current,
            next: self.next,
            of: PhantomData,
        }
    }
}

impl<T: Copy, F> WindowAccess<T> for RowWindow<'_, T, F> {
    ghost current_at = { λ w i. slice_get w.current.now i };

    ghost next_at = { λ w i. slice_get w.next.now i };

    fn current_slice(&self) -> &[T] {
        self.current
    }

    fn next_slice(&self) -> &[T] {
        self.next
    }

    fn current(&self, i: usize) -> Option<T> {
        self.current.get(i).copied()
    }

    fn next(&self, i: usize) -> Option<T> {
        self.next.get(i).copied()
    }
}
