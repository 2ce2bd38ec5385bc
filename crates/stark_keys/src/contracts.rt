//! What is said over a configuration with a key, in words. It has no code.
ghost use Rattle.std.specs.Prelude.{ℕ, List, Option, Result};
ghost use Rattle.stark_protocol.specs.declared.preprocessed.PreprocessedVerifierKey.{PreprocessedVerifierKey};
ghost use Rattle.stark_statement.specs.StatementView.{StatementView};
ghost use Rattle.stark_answers.specs.declared.verdict.Verdict.{Verdict};
ghost use Rattle.stark_service.specs.Statements.{OrUnjudged};
ghost use Rattle.stark_keys.specs.Keys.{IsKeyFile, IsMadeOn, IsOwnKey, IsVerdictByKey, IsVerdictWithKeyOn};

use stark_parts::StarkGenericConfig;
use stark_service::{ServiceAnswers, ServiceConfig, StarkService};

/// What is said with a configuration, whose challenger has observed the statement, where a key is
/// made and where it is given.
pub trait KeyAnswers: StarkGenericConfig {
    /// This is the AIR's own key, for `2^log_rows` rows of preprocessed columns.
    ghost is_key: { Self → StatementView Self.Pcs.Domain.Val → ℕ
        → Option (PreprocessedVerifierKey Self.Pcs.Commitment) → Type 0 };

    /// The bytes of a key's file are made, or the verdict says why there is none.
    ghost makes: { Self → StatementView Self.Pcs.Domain.Val → Result (List ℕ) Verdict → Type 0 };

    /// These are the bytes of the key's file.
    ghost key_file: { Self → StatementView Self.Pcs.Domain.Val → List ℕ → Type 0 };

    /// Of a proof, with this key.
    ghost judges: { Self → StatementView Self.Pcs.Domain.Val
        → Option (PreprocessedVerifierKey Self.Pcs.Commitment) → List ℕ → Verdict → Type 0 };

    /// Of the bytes of a key and of a proof.
    ghost verdict: { Self → StatementView Self.Pcs.Domain.Val → List ℕ → List ℕ → Verdict
        → Type 0 };

    /// Where these are the bytes of the key's file, this is a verdict on the proof as the verifier
    /// says it that sets the key up,
    ghost owned: { Self → StatementView Self.Pcs.Domain.Val → List ℕ → List ℕ → Verdict
        → Type 0 };

    /// and whatever columns take the proof's opened values break no constraint, unless a challenge
    /// is bad.
    ghost sound: { Self → StatementView Self.Pcs.Domain.Val → List ℕ → List ℕ → Type 0 };
}

impl<SC: ServiceConfig> KeyAnswers for SC {
    ghost is_key = { λ config s log_rows. IsOwnKey ⟦<SC as StarkService>⟧.service
        (SC.config.scheme config) s log_rows };

    ghost makes = { λ config s. IsMadeOn ⟦<SC as StarkService>⟧.service
        (SC.config.scheme config) s };

    ghost key_file = { λ config s. IsKeyFile ⟦<SC as StarkService>⟧.service
        (SC.config.scheme config) s };

    ghost judges = { λ config s key proof. IsVerdictByKey ⟦<SC as StarkService>⟧.service
        (SC.config.scheme config) (SC.config.first_state config) s key
        (⟦<SC as StarkService>⟧.service.reading proof) };

    ghost verdict = { λ config s key proof. IsVerdictWithKeyOn ⟦<SC as StarkService>⟧.service
        (SC.config.scheme config) (SC.config.first_state config) s key
        (⟦<SC as StarkService>⟧.service.reading proof) };

    ghost owned = { λ config s key proof v. IsKeyFile ⟦<SC as StarkService>⟧.service
        (SC.config.scheme config) s key
        → OrUnjudged (⟦<SC as ServiceAnswers>⟧.verdict config s proof) v };

    ghost sound = { λ config s key proof. IsKeyFile ⟦<SC as StarkService>⟧.service
        (SC.config.scheme config) s key
        → ⟦<SC as ServiceAnswers>⟧.sound config s proof };
}
