//! Over which field and with which scheme a statement is proved.
ghost use Rattle.std.specs.Prelude.{◌≡◌};
ghost use Rattle.stark_statement.specs.Configuration.{configuration_view, fast_configuration, proved_100_configuration, two_adicity};

use stark_fri_proof::FriParameters;

/// A field that a statement can name.
#[derive(Clone, Copy, Debug, PartialEq, Eq)]
pub enum FieldName {
    /// BabyBear, of 15 * 2^27 + 1 elements.
    BabyBear,
    /// KoalaBear, of 127 * 2^24 + 1 elements.
    KoalaBear,
    /// The field of 12289 = 3 * 2^12 + 1 elements.
    F12289,
}

impl FieldName {
    /// The logarithm of the greatest power of two that divides the order of the field's units: no
    /// coset of the units has more than two to this many points.
    pub fn two_adicity(self) -> usize
        ensures { result ≡ two_adicity self }
    {
        match self {
            FieldName::BabyBear => 27,
            FieldName::KoalaBear => 24,
            FieldName::F12289 => 12,
        }
    }
}

/// How columns are committed to.
#[derive(Clone, Copy, Debug)]
pub enum SchemeChoice {
    /// By FRI, with these parameters.
    Fri(FriParameters),
    /// In the clear: the columns themselves are the commitment.
    Clear,
}

/// Over which field and with which scheme a statement is proved.
#[derive(Clone, Copy, Debug)]
pub struct Configuration {
    /// The field of the trace.
    pub field: FieldName,
    /// The scheme of its columns.
    pub scheme: SchemeChoice,
}

impl Default for Configuration {
    ghost use Rattle.std.specs.Prelude.{◌≡◌};
    ghost use Rattle.stark_statement.specs.Configuration.{configuration_view, default_configuration};

    ghost is_default = { λ c. configuration_view c ≡ default_configuration };

    /// BabyBear and FRI, with columns of four times as many rows, folded to a constant, 120
    /// queries, no work before a fold and 16 bits before the queries: with 32 opened values 97
    /// proved bits at 2^16 rows, and 95 at 2^20.
    fn default() -> Configuration {
        Configuration {
            field: FieldName::BabyBear,
            scheme: SchemeChoice::Fri(FriParameters::new(2, 0, 120, 0, 16).unwrap()),
        }
    }
}

impl Configuration {
    /// BabyBear and FRI for trials, with columns of twice as many rows and 85 queries: 51 proved
    /// bits.
    pub fn fast() -> Configuration
        ensures { configuration_view result ≡ fast_configuration }
    {
        Configuration {
            field: FieldName::BabyBear,
            scheme: SchemeChoice::Fri(FriParameters::new(1, 0, 85, 0, 16).unwrap()),
        }
    }

    /// BabyBear and FRI with columns of twice as many rows and 220 queries: 100 proved bits up to
    /// 2^16 rows with 32 opened values.
    pub fn proved_100() -> Configuration
        ensures { configuration_view result ≡ proved_100_configuration }
    {
        Configuration {
            field: FieldName::BabyBear,
            scheme: SchemeChoice::Fri(FriParameters::new(1, 0, 220, 0, 16).unwrap()),
        }
    }
}
