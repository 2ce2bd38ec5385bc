//! What the proofs for a statement are worth, from the bytes of the statement to numbers.

ghost use Rattle.std.specs.Prelude.{◌≡◌, ℕ, List, Option, Result, Err};
ghost use Rattle.serde_json.specs.Data.{Data};
ghost use Rattle.stark_statement.specs.Configuration.{ConfigurationView, FriNumbers, IsWithinField, configuration_view, scheme_numbers};
ghost use Rattle.stark_statement.specs.StatementApart.{data_of};
ghost use Rattle.stark_statement.specs.StatementJson.{statement_reading};
ghost use Rattle.stark_statement.specs.StatementView.{statement_view};
ghost use Rattle.stark_service.specs.Schemes.{HasRoomFor, IsSaidOfBytes, OverField};
ghost use Rattle.stark_service.specs.Worth.{IsSecurityOf, IsSecurityOfRead, OrNoMemory, unsaid};
ghost use Rattle.stark_service.specs.declared.security.SecurityBits.{SecurityBits};
ghost use Rattle.stark_service.specs.declared.worth.SecurityError.{SecurityError};

use crate::counted::{CountedField, Numbered};
use crate::reading::read_statement;
use crate::security::{SecurityBits, bits_at};
use crate::showing::greatest_height;
use crate::statement::{NamedFields, copied, read_configured};
use stark_answers::Verdict;
use stark_bench::{BabyBearField, Ext4, F12289, KoalaBearField, Modulus, Residue, Scalar};
use stark_json::Document;
use stark_statement::{Configuration, FieldName, SchemeChoice, Statement};
use stark_support::{ExtensionField, JsonCodec, TwoAdicField};
use std::alloc::{AllocError, Global};

/// Why no bits are answered.
#[derive(Clone, Copy, Debug, PartialEq, Eq)]
pub enum SecurityError {
    /// The statement can't be read, its AIR passes a limit, or memory was refused: the verdict that
    /// each proof for it gets.
    Statement(Verdict),
    /// By the statement's scheme no trace is so high.
    TooHigh,
    /// A constraint has a greater degree than FRI's parameters are taken for, or 2^64 values and
    /// more are opened.
    NotStated,
}

/// What proofs for a statement that was read are worth at a height.
pub(crate) fn security_of<F: CountedField + TwoAdicField, EF: ExtensionField<F>>(
    alloc: Global,
    scheme: SchemeChoice,
    statement: &Statement<F>,
    log_height: usize,
) -> Result<SecurityBits, SecurityError>
    requires { HasRoomFor F.TWO_ADICITY scheme }
    ensures { OrNoMemory (IsSecurityOf ⟦<EF as Numbered<F>>⟧.fields (scheme_numbers scheme)
        log_height (statement_view statement.now)) result }
{
    if greatest_height::<F>(scheme) < log_height {
        return Err(SecurityError::TooHigh);
    }
    match bits_at::<F, EF>(alloc, scheme, statement, log_height) {
        Ok(Some(bits)) => Ok(bits),
        Ok(None) => Err(SecurityError::NotStated),
        Err(AllocError) => Err(SecurityError::Statement(Verdict::OutOfMemory)),
    }
}

/// What proofs for a statement over a field are worth at a height.
fn security_over<F, EF>(
    alloc: Global,
    scheme: SchemeChoice,
    value: Document,
    log_height: usize,
) -> Result<SecurityBits, SecurityError>
where
    F: CountedField + TwoAdicField + JsonCodec,
    EF: ExtensionField<F>,
    requires { HasRoomFor F.TWO_ADICITY scheme }
    ensures { OrNoMemory (IsSecurityOfRead ⟦<EF as Numbered<F>>⟧.fields (scheme_numbers scheme)
        log_height (statement_reading F.reading (data_of value))) result }
{
    let read = read_statement::<F>(alloc, &value);
    // The JSON is several times as long as the statement.
    drop(value);
    match read {
        Ok(statement) => security_of::<F, EF>(alloc, scheme, &statement, log_height),
        Err(report) => Err(SecurityError::Statement(report.answer)),
    }
}

/// A field over which statements are taken, and what their proofs are worth.
trait SecurityField: Sized {
    /// The logarithm of its greatest group of a power of two.
    ghost adicity: { ℕ };

    /// This is answered of a statement's JSON, at a height.
    ghost security: { Option FriNumbers → ℕ → Data → Result SecurityBits SecurityError → Type 0 };

    /// What proofs for a statement are worth at a height.
    fn security(
        alloc: Global,
        scheme: SchemeChoice,
        value: Document,
        log_height: usize,
    ) -> Result<SecurityBits, SecurityError>
        requires { HasRoomFor adicity scheme }
        ensures { OrNoMemory (security (scheme_numbers scheme) log_height (data_of value)) result };
}

impl<M: Modulus> SecurityField for Residue<M, Scalar> {
    ghost adicity = { ⟦<Residue<M, Scalar> as TwoAdicField>⟧.TWO_ADICITY };

    ghost security = { λ scheme k d. IsSecurityOfRead
        ⟦<Ext4<Residue<M, Scalar>> as Numbered<Residue<M, Scalar>>>⟧.fields scheme k
        (statement_reading ⟦<Residue<M, Scalar> as JsonCodec>⟧.reading d) };

    fn security(
        alloc: Global,
        scheme: SchemeChoice,
        value: Document,
        log_height: usize,
    ) -> Result<SecurityBits, SecurityError> {
        security_over::<Self, Ext4<Self>>(alloc, scheme, value, log_height)
    }
}

impl SecurityField for F12289 {
    ghost adicity = { ⟦<F12289 as TwoAdicField>⟧.TWO_ADICITY };

    ghost security = { λ scheme k d. IsSecurityOfRead
        ⟦<Ext4<F12289> as Numbered<F12289>>⟧.fields scheme k
        (statement_reading ⟦<F12289 as JsonCodec>⟧.reading d) };

    fn security(
        alloc: Global,
        scheme: SchemeChoice,
        value: Document,
        log_height: usize,
    ) -> Result<SecurityBits, SecurityError> {
        security_over::<F12289, Ext4<F12289>>(alloc, scheme, value, log_height)
    }
}

/// What is answered of a statement's JSON, whose configuration is given. It has no code.
trait ConfiguredSecurity {
    ghost security: { ConfigurationView → ℕ → Data → Result SecurityBits SecurityError → Type 0 };
}

impl ConfiguredSecurity for NamedFields {
    ghost security = { λ c k d r. OverField c.field
        (⟦<BabyBearField as SecurityField>⟧.security c.fri k d r)
        (⟦<KoalaBearField as SecurityField>⟧.security c.fri k d r)
        (⟦<F12289 as SecurityField>⟧.security c.fri k d r) };
}

/// What is answered of the bytes of a statement, at a height. It has no code.
pub trait StatementSecurity {
    ghost security: { List ℕ → ℕ → Result SecurityBits SecurityError → Type 0 };
}

impl StatementSecurity for NamedFields {
    ghost security = { λ statement k. IsSaidOfBytes unsaid (λ c d.
        ⟦<NamedFields as ConfiguredSecurity>⟧.security c k d) statement };
}

/// What proofs for a statement that was read as JSON are worth at a height, whose configuration is
/// this.
fn security_of_value(
    alloc: Global,
    configuration: Configuration,
    value: Document,
    log_height: usize,
) -> Result<SecurityBits, SecurityError>
    requires { IsWithinField configuration }
    ensures { OrNoMemory (⟦<NamedFields as ConfiguredSecurity>⟧.security
        (configuration_view configuration) log_height (data_of value)) result }
{
    let scheme = configuration.scheme;
    match configuration.field {
        FieldName::BabyBear => BabyBearField::security(alloc, scheme, value, log_height),
        FieldName::KoalaBear => KoalaBearField::security(alloc, scheme, value, log_height),
        FieldName::F12289 => F12289::security(alloc, scheme, value, log_height),
    }
}

/// What proofs for a statement are worth at a height, from its bytes, which are dropped once they
/// are read.
fn security_of_bytes(
    alloc: Global,
    statement: Vec<u8>,
    log_height: usize,
) -> Result<SecurityBits, SecurityError>
    ensures { OrNoMemory (⟦<NamedFields as StatementSecurity>⟧.security statement.items log_height)
        result }
{
    match read_configured(alloc, statement) {
        Ok((value, configuration)) => security_of_value(alloc, configuration, value, log_height),
        Err(report) => Err(SecurityError::Statement(report.answer)),
    }
}

/// What the proofs for a statement are worth over traces of `2^log_height` rows, from the bytes of
/// the statement: the bits that are proved, and by FRI those that are conjectured. An error where
/// the statement can't be read or its AIR passes a limit, where its scheme proves no trace of this
/// height, where no bits are stated, and where memory was refused.
pub fn statement_security(
    alloc: Global,
    statement: &[u8],
    log_height: usize,
) -> Result<SecurityBits, SecurityError>
    ensures { OrNoMemory (⟦<NamedFields as StatementSecurity>⟧.security statement.now log_height)
        result }
{
    let Ok(statement) = copied(alloc, statement) else {
        return Err(SecurityError::Statement(Verdict::OutOfMemory));
    };
    security_of_bytes(alloc, statement, log_height)
}
