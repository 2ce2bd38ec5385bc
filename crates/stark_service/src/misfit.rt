//! Why rows that were read are no trace of a statement's AIR.

ghost use Rattle.stark_service.specs.Misfits.{IsOfCounts};

use stark_answers::CheckShape;
use std::fmt;

/// Why rows are no trace: the first fault.
#[derive(Clone, Copy, Debug, PartialEq, Eq)]
pub(crate) enum TraceMisfit {
    /// The statement has another number of public values than the AIR reads.
    PublicValues { expected: usize, got: usize },
    /// The number of rows is no power of two.
    NoPowerOfTwo { rows: usize },
    /// There are more rows than the configuration takes, `2^greatest`.
    TooManyRows { rows: usize, greatest: usize },
    /// The rows have another number of columns than the AIR.
    Width { expected: usize, got: usize },
    /// There are more or fewer rows than the preprocessed columns have, `2^log_rows`.
    PreprocessedRows { rows: usize, log_rows: usize },
    /// There are more or fewer rows than the statement fixes, `2^log_height`.
    FixedHeight { rows: usize, log_height: usize },
}

impl TraceMisfit {
    /// The first fault of counts that are those of no trace.
    pub(crate) fn of_counts(
        public_values: usize,
        rows: usize,
        width: usize,
        shape: CheckShape,
        log_rows: usize,
        greatest: usize,
    ) -> TraceMisfit
        ensures { IsOfCounts public_values rows width shape log_rows greatest result }
    {
        if public_values != shape.num_public_values {
            return TraceMisfit::PublicValues {
                expected: shape.num_public_values,
                got: public_values,
            };
        }
        if !rows.is_power_of_two() {
            return TraceMisfit::NoPowerOfTwo { rows };
        }
        if rows.ilog2() as usize > greatest {
            return TraceMisfit::TooManyRows { rows, greatest };
        }
        if width != shape.width {
            return TraceMisfit::Width {
                expected: shape.width,
                got: width,
            };
        }
        TraceMisfit::PreprocessedRows { rows, log_rows }
    }
}

impl fmt::Display for TraceMisfit {
    fn fmt<W: fmt::Write>(&self, f: &mut fmt::Formatter<W>) -> fmt::Result {
        match self {
            TraceMisfit::PublicValues { expected, got } => {
                write!(
                    f,
                    "the statement has {got} public values, and the AIR {expected}"
                )
            }
            TraceMisfit::NoPowerOfTwo { rows } => {
                write!(f, "the trace has {rows} rows, which is no power of two")
            }
            TraceMisfit::TooManyRows { rows, greatest } => {
                write!(f, "the trace has {rows} rows, more than 2^{greatest}")
            }
            TraceMisfit::Width { expected, got } => {
                write!(f, "the rows have {got} columns, and the AIR {expected}")
            }
            TraceMisfit::PreprocessedRows { rows, log_rows } => {
                write!(
                    f,
                    "the trace has {rows} rows, and the preprocessed columns 2^{log_rows}"
                )
            }
            TraceMisfit::FixedHeight { rows, log_height } => {
                write!(
                    f,
                    "the trace has {rows} rows, and the statement's log_height asks for 2^{log_height}"
                )
            }
        }
    }
}
