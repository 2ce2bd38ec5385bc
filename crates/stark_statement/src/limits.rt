//! How large an AIR may be.
ghost use Rattle.std.specs.Prelude.{◌≡◌, ◌+◌, ◌<◌, IfErr, IfOk, IfSome, IsNone, nat_lt};
ghost use Rattle.stark_statement.specs.Limits.{IsWithin, Tells, cells_extended, cells_of, columns_passed, first_passed, items_of, lengths_of, limits_under, list_passed, passed_if, view_of};
ghost use Rattle.stark_statement.specs.Configuration.{scheme_numbers};
ghost use Rattle.stark_tree_air.specs.TreeJson.{columns_view, list_view};

use crate::configuration::SchemeChoice;
use stark_tree_air::{TreeAir, TreeColumns, TreeList};
use thiserror::Error;

/// How much of each kind an AIR may have.
#[derive(Clone, Copy, Debug, PartialEq, Eq)]
pub struct AirLimits {
    /// Main and preprocessed columns together.
    pub columns: usize,
    /// Public values.
    pub public_values: usize,
    /// Values of the periodic and the preprocessed columns together.
    pub cells: usize,
    /// Constants.
    pub constants: usize,
    /// Nodes.
    pub nodes: usize,
    /// Constraints.
    pub constraints: usize,
}

/// The first limit that an AIR passes, and by what.
#[derive(Clone, Copy, Debug, PartialEq, Eq, Error)]
pub enum AirTooLarge {
    /// There are too many main and preprocessed columns.
    #[error("it has {main} main and {preprocessed} preprocessed columns, more than {limit}")]
    Columns {
        main: usize,
        preprocessed: usize,
        limit: usize,
    },
    /// There are too many public values.
    #[error("it has {got} public values, more than {limit}")]
    PublicValues {
        got: usize,
        limit: usize,
    },
    /// The periodic and the preprocessed columns have too many values.
    #[error("its periodic and preprocessed columns have more than {limit} values")]
    Cells {
        limit: usize,
    },
    /// There are too many constants.
    #[error("it has {got} constants, more than {limit}")]
    Constants {
        got: usize,
        limit: usize,
    },
    /// There are too many nodes.
    #[error("it has {got} nodes, more than {limit}")]
    Nodes {
        got: usize,
        limit: usize,
    },
    /// There are too many constraints.
    #[error("it has {got} constraints, more than {limit}")]
    Constraints {
        got: usize,
        limit: usize,
    },
}

/// The error, where it is one.
#[tactic(auto, unfolding(crate::specs::Limits::passed_if))]
fn refuse_if(is_passed: bool, error: AirTooLarge) -> Result<(), AirTooLarge>
    ensures { Tells (passed_if is_passed error) result }
{
    if is_passed { Err(error) } else { Ok(()) }
}

/// What the lengths of lists leave of a limit; None where they pass it.
fn left_behind<F>(lists: &[Vec<F>], limit: usize) -> Option<usize>
    ensures some { IfSome result (λ left. left + lengths_of (items_of lists.now) ≡ limit) }
    ensures none { IsNone result → limit < lengths_of (items_of lists.now) }
{
    let mut left = limit;
    for list in lists {
        left = left.checked_sub(list.len())?;
    }
    Some(left)
}

/// Whether the values of all columns that an AIR fixes are more than `limit`.
fn has_more_cells<F>(columns: &TreeColumns<F>, limit: usize) -> bool
    ensures { result ≡ nat_lt limit (cells_of (columns_view columns.now)) }
{
    let Some(left) = left_behind(&columns.periodic_columns, limit) else {
        return true;
    };
    match &columns.preprocessed_trace {
        Some(trace) => trace.values.len() > left,
        None => false,
    }
}

impl Default for AirLimits {
    ghost use Rattle.std.specs.Prelude.{◌≡◌};
    ghost use Rattle.stark_statement.specs.Limits.{default_limits};

    ghost is_default = { λ limits. limits ≡ default_limits };

    /// What a process with a gigabyte of memory stands, whatever else the AIR is, and far more than
    /// AIRs have that were written for a purpose: 65536 columns, 65536 public values, 1048576
    /// values of periodic and preprocessed columns, 131072 constants, 131072 nodes and 32768
    /// constraints.
    ///
    /// - A column takes some 200 bytes, of opened rows and of what constraints read, and a public
    ///   value as JSON and as a variable about as much: 65536 of each are 30 megabytes.
    /// - A fixed value takes 8 bytes in each of some ten copies and transforms: 1048576, which are
    ///   256 columns of 4096 rows, are 80 megabytes.
    /// - A constant or a node takes 300 bytes as JSON, and a node some 100 at a point: 131072 of
    ///   each are 80 megabytes. Where it is shown, a node takes up to 4096 bytes: 131072 are 512
    ///   megabytes.
    /// - A constraint takes a power of alpha, and where it is shown up to 4096 bytes twice: 32768
    ///   are 256 megabytes.
    fn default() -> AirLimits {
        AirLimits {
            columns: 65_536,
            public_values: 65_536,
            cells: 1_048_576,
            constants: 131_072,
            nodes: 131_072,
            constraints: 32_768,
        }
    }
}

/// How many values fixed columns may have that are extended to `2^log_blowup` times as many.
fn cells_extended(log_blowup: usize) -> usize
    ensures { result ≡ cells_extended log_blowup }
{
    if log_blowup > 24 {
        return 0;
    }
    let cells: usize = 1 << (24 - log_blowup);
    cells.min(AirLimits::default().cells)
}

impl AirLimits {
    /// The limits of an AIR under a scheme. In the clear, and by FRI with a `log_blowup` up to 4,
    /// they are the default ones; beyond, the values of periodic and preprocessed columns are so
    /// few that 2^24 stand in their extensions, for which a tree takes a gigabyte at most. A
    /// verifier makes that tree itself.
    pub fn under(scheme: SchemeChoice) -> AirLimits
        ensures { result ≡ limits_under (scheme_numbers scheme) }
    {
        match scheme {
            SchemeChoice::Fri(parameters) => AirLimits {
                cells: cells_extended(parameters.log_blowup()),
                ..AirLimits::default()
            },
            SchemeChoice::Clear => AirLimits::default(),
        }
    }

    fn check_columns<F>(self, columns: &TreeColumns<F>) -> Result<(), AirTooLarge>
        ensures { Tells (columns_passed self (columns_view columns.now)) result }
    {
        let (main, preprocessed) = (columns.width, columns.preprocessed_width());
        let limit = self.columns;
        let passed = main > limit || preprocessed > limit - main;
        refuse_if(
            passed,
            AirTooLarge::Columns {
                main,
                preprocessed,
                limit,
            },
        )?;
        let (got, limit) = (columns.num_public_values, self.public_values);
        refuse_if(got > limit, AirTooLarge::PublicValues { got, limit })?;
        let limit = self.cells;
        refuse_if(has_more_cells(columns, limit), AirTooLarge::Cells { limit })
    }

    fn check_list<F>(self, list: &TreeList<F>) -> Result<(), AirTooLarge>
        ensures { Tells (list_passed self (list_view list.now)) result }
    {
        let (got, limit) = (list.constants.len(), self.constants);
        refuse_if(got > limit, AirTooLarge::Constants { got, limit })?;
        let (got, limit) = (list.nodes.len(), self.nodes);
        refuse_if(got > limit, AirTooLarge::Nodes { got, limit })?;
        let (got, limit) = (list.constraints.len(), self.constraints);
        refuse_if(got > limit, AirTooLarge::Constraints { got, limit })
    }

    /// Tests an AIR against the limits: Ok exactly where it passes none of them, else the first
    /// that it passes, in the order of the fields. It takes no memory, and a step for each periodic
    /// column.
    pub fn check<F>(self, air: &TreeAir<F>) -> Result<(), AirTooLarge>
        ensures within { IfOk result (λ _. IsWithin self (view_of air.now)) }
        ensures too_large { IfErr result (λ _. IsWithin self (view_of air.now) → ⊥) }
        ensures first { Tells (first_passed self (view_of air.now)) result }
    {
        self.check_columns(&air.declaration.columns)?;
        self.check_list(&air.list)
    }
}
