//! Tables of periodic columns' values on a domain.
ghost use Rattle.std.specs.Prelude.{◌≡◌, ◌≤◌, ◌<◌, ◌+◌, ◌*◌, ◌==◌, Some, length};
ghost use Rattle.stark_support.specs.PeriodicTable.{table_at, BeginsAgain};

/// Values of columns at the points of a domain, a row a point. The rows begin again after `period`
/// of them, and no more are kept.
#[derive(Debug, Drop)]
pub struct PeriodicLdeTable<F> {
    pub values: Vec<F>,
    pub width: usize,
    pub period: usize,
    pub ghost whole_rows: { length values.items ≡ period * width },
    pub ghost some_row: { 1 ≤ period },
}

impl<F> PeriodicLdeTable<F> {
    /// The table of `period` rows of `width` values each.
    pub fn new(values: Vec<F>, width: usize, period: usize) -> PeriodicLdeTable<F>
        requires whole_rows { length values.items ≡ period * width }
        requires some_row { 1 ≤ period }
        ensures values { result.values ≡ values }
        ensures width { result.width ≡ width }
        ensures period { result.period ≡ period }
    {
        PeriodicLdeTable {
            values,
            width,
            period,
        }
    }

    /// The number of the columns.
    pub fn width(&self) -> usize
        ensures { result ≡ self.now.width }
    {
        self.width
    }

    /// Whether there is no column.
    pub fn is_empty(&self) -> bool
        ensures { result ≡ (self.now.width == 0) }
    {
        self.width == 0
    }

    /// After how many groups of `group` rows the values begin again: at least one, and a row so
    /// many groups further on has the same values.
    pub fn packed_group_period(&self, group: usize) -> usize
        ensures at_least_one { 1 ≤ result }
        ensures begins_again { BeginsAgain self.now.values.items self.now.width self.now.period
            (result * group) }
    {
        if group % self.period == 0 {
            return 1;
        }
        if self.period % group == 0 {
            return self.period / group;
        }
        self.period
    }
}

impl<F: Copy> PeriodicLdeTable<F> {
    /// The value of a column at a point.
    pub fn get(&self, row: usize, column: usize) -> F
        requires { column < self.now.width }
        ensures { table_at self.now.values.items self.now.width self.now.period row column
            ≡ Some result }
    {
        self.values[row % self.period * self.width + column]
    }
}
