//! What a service says over a configuration, in words. It has no code.

ghost use Rattle.std.specs.Prelude.{ℕ, List, Option};
ghost use Rattle.stark_proof.specs.ProofJson.{proof_reading, proof_writing};
ghost use Rattle.stark_proof.specs.ProofView.{ProofView};
ghost use Rattle.stark_proof_bytes.specs.ProofBytes.{codecs};
ghost use Rattle.stark_statement.specs.StatementView.{StatementView};
ghost use Rattle.stark_statement.specs.declared.statement.Statement.{Statement};
ghost use Rattle.stark_support.specs.declared.matrix.RowMajorMatrix.{RowMajorMatrix};
ghost use Rattle.stark_trace_json.specs.declared.rows.TraceRows.{TraceRows};
ghost use Rattle.stark_answers.specs.declared.finding.Finding.{Finding};
ghost use Rattle.stark_answers.specs.declared.task.ProofForm.{ProofForm};
ghost use Rattle.stark_answers.specs.declared.task.TraceTask.{TraceTask};
ghost use Rattle.stark_answers.specs.declared.verdict.Verdict.{Verdict};
ghost use Rattle.stark_service.specs.Acceptance.{AcceptsAt, AcceptsOfRows, AcceptsOfTrace, AcceptsOn};
ghost use Rattle.stark_service.specs.Fitting.{TellsOfTrace};
ghost use Rattle.stark_service.specs.Service.{CanProve, CanProveFor, HasColumnsAt, IsReady, ServiceOps};
ghost use Rattle.stark_service.specs.Statements.{IsFileOn, IsFoundWithRows, IsSoundOfTakenOn, IsAnswerAtHeight, IsAnswerOn, IsAnswerWithRows, IsVerdictOn, IsVerdictWithRows, proof_in, rows_in};
ghost use Rattle.stark_service.specs.TraceChecks.{IsCheckedWithRows};

use crate::bounds::ServiceConfig;
use p3_uni_stark::StarkOperations;
use stark_air::BaseAir;
use stark_parts::{StarkGenericConfig, Val};
use stark_proof_bytes::BytesCodec;
use stark_support::{ExtensionField, JsonCodec, PrimeField64};
use stark_tree_air::TreeAir;

/// All that is computed over a configuration, and how its parts are read and written, in one
/// record, with names for the elements of the base field and for the scheme's commitments.
pub trait StarkService: StarkGenericConfig {
    ghost Value: { Type 0 };

    ghost Commitment: { Type 0 };

    ghost service: { ServiceOps Self.Pcs Value Self.Challenge Self.Challenger Commitment
        Self.Pcs.ProverData Self.Pcs.Proof Self.Pcs.Error Self.Pcs.ProverError };
}

impl<SC: ServiceConfig> StarkService for SC {
    ghost Value = { SC.Pcs.Domain.Val };

    ghost Commitment = { SC.Pcs.Commitment };

    ghost service = { record {
      protocol = ⟦<SC as StarkOperations>⟧.operations;
      coordinates = SC.Challenge.coordinates;
      number = SC.Pcs.Domain.Val.number_of;
      element = SC.Pcs.Domain.Val.reading;
      reading = proof_in (proof_reading SC.Pcs.Commitment.reading SC.Challenge.reading
          SC.Pcs.Proof.reading SC.Pcs.Domain.Val.reading SC.Pcs.Domain.Val.ring.zero)
          (codecs SC.Pcs.Commitment.bytes SC.Challenge.bytes SC.Pcs.Proof.bytes
          SC.Pcs.Domain.Val.bytes);
      writing = proof_writing SC.Pcs.Commitment.writing SC.Challenge.writing SC.Pcs.Proof.writing
          SC.Pcs.Domain.Val.writing SC.Pcs.Domain.Val.eq SC.Pcs.Domain.Val.ring.zero;
      codecs = codecs SC.Pcs.Commitment.bytes SC.Challenge.bytes SC.Pcs.Proof.bytes
          SC.Pcs.Domain.Val.bytes;
    } };
}

/// What is said with a configuration, whose challenger has observed the statement, of a proof and
/// of the rows of a trace.
pub trait ServiceAnswers: StarkGenericConfig {
    /// The scheme masks nothing and sets up all columns, and the work that is asked for is the
    /// statement's.
    ghost is_ready: { Self → StatementView Self.Pcs.Domain.Val → Type 0 };

    /// It commits to traces of any height and refuses no true opening, and proofs have exact lines.
    ghost can_prove: { Self → Type 0 };

    /// Both.
    ghost can_prove_for: { Self → StatementView Self.Pcs.Domain.Val → Type 0 };

    /// The statement's AIR has main columns, and preprocessed ones of `2^log_rows` rows, within the
    /// scheme's heights.
    ghost has_columns_at: { Self → Statement Self.Pcs.Domain.Val → ℕ → Type 0 };

    /// Of a proof, with a key for `2^log_rows` rows, and with the AIR's own number of rows.
    ghost judges: { Self → StatementView Self.Pcs.Domain.Val → ℕ → List ℕ → Verdict → Type 0 };

    ghost verdict: { Self → StatementView Self.Pcs.Domain.Val → List ℕ → Verdict → Type 0 };

    /// Whatever columns take the proof's opened values break no constraint, unless a challenge is
    /// bad.
    ghost sound: { Self → StatementView Self.Pcs.Domain.Val → List ℕ → Type 0 };

    /// Of rows, by a check.
    ghost checks: { Self → StatementView Self.Pcs.Domain.Val → ℕ
        → Option (List (List Self.Pcs.Domain.Val)) → Finding → Type 0 };

    /// Of a matrix as the trace of rows of at most `2^greatest`, by a prover, in the form that is
    /// asked for.
    ghost proves: { Self → ProofForm → ℕ → StatementView Self.Pcs.Domain.Val → ℕ
        → RowMajorMatrix Self.Pcs.Domain.Val → Finding → Type 0 };

    /// By what is asked for the trace.
    ghost tells: { Self → TraceTask → StatementView Self.Pcs.Domain.Val → ℕ
        → Option (List (List Self.Pcs.Domain.Val)) → Finding → Type 0 };

    /// By what is asked for the trace that bytes spell.
    ghost tells_of_bytes: { Self → TraceTask → StatementView Self.Pcs.Domain.Val → ℕ → List ℕ
        → Finding → Type 0 };

    /// Of the bytes of a trace.
    ghost finds: { Self → TraceTask → StatementView Self.Pcs.Domain.Val → List ℕ
        → Finding → Type 0 };

    /// This is the file of a proof, in a form, of the trace that the bytes spell.
    ghost proof_file: { Self → StatementView Self.Pcs.Domain.Val → List ℕ → ProofForm → List ℕ
        → Type 0 };

    /// By a scheme that sets up what is known in one way and whose proofs are read back as JSON, a
    /// proof that is found of a matrix is accepted, where this is the trace of rows of at most
    /// `2^greatest` that satisfy the AIR and are as many as the statement fixes,
    ghost accepts_of_trace: { Self → ℕ → StatementView Self.Pcs.Domain.Val → ℕ
        → RowMajorMatrix Self.Pcs.Domain.Val → Finding → Type 0 };

    /// and one that is found of rows after a check, where they are as many as the statement fixes,
    ghost accepts_of_rows: { Self → TraceTask → StatementView Self.Pcs.Domain.Val → ℕ
        → TraceRows Self.Pcs.Domain.Val → Finding → Type 0 };

    /// and one that is found of a file, with a key for `2^log_rows` rows,
    ghost accepts_at: { Self → TraceTask → StatementView Self.Pcs.Domain.Val → ℕ
        → Finding → Type 0 };

    /// and with the AIR's own number of rows: the verdict on what is written is `accepted` and no
    /// other, unless the proof's zeta lies in the trace's domain or the constraints' degrees don't
    /// fit the quotient's.
    ghost accepts: { Self → TraceTask → StatementView Self.Pcs.Domain.Val → Finding → Type 0 };
}

impl<SC: ServiceConfig> ServiceAnswers for SC {
    ghost is_ready = { λ config. IsReady ⟦<SC as StarkService>⟧.service (SC.config.scheme config)
        (SC.config.ood_bits config) (SC.config.constraint_bits config) };

    ghost can_prove = { λ config. CanProve ⟦<SC as StarkService>⟧.service
        (SC.config.scheme config) };

    ghost can_prove_for = { λ config. CanProveFor ⟦<SC as StarkService>⟧.service
        (SC.config.scheme config) (SC.config.ood_bits config) (SC.config.constraint_bits config) };

    ghost has_columns_at = { λ config statement. HasColumnsAt
        (⟦<TreeAir<Val<SC>> as BaseAir<Val<SC>>>⟧.layout statement.air)
        (⟦<TreeAir<Val<SC>> as BaseAir<Val<SC>>>⟧.preprocessed_trace statement.air)
        (SC.Pcs.scheme.log_max_trace_height (SC.config.scheme config)) };

    ghost judges = { λ config s log_rows proof. IsVerdictWithRows ⟦<SC as StarkService>⟧.service
        (SC.config.scheme config) (SC.config.first_state config) s log_rows
        (⟦<SC as StarkService>⟧.service.reading proof) };

    ghost verdict = { λ config s proof. IsVerdictOn ⟦<SC as StarkService>⟧.service
        (SC.config.scheme config) (SC.config.first_state config) s
        (⟦<SC as StarkService>⟧.service.reading proof) };

    ghost sound = { λ config s proof. IsSoundOfTakenOn ⟦<SC as StarkService>⟧.service
        (SC.config.scheme config) (SC.config.first_state config) s
        (⟦<SC as StarkService>⟧.service.reading proof) };

    ghost checks = { λ config. IsCheckedWithRows
        ⟦<SC as StarkService>⟧.service.protocol.opening.fields ⟦<SC as StarkService>⟧.service.number
        (SC.Pcs.scheme.log_max_trace_height (SC.config.scheme config)) };

    ghost proves = { λ config form greatest s log_rows trace. TellsOfTrace greatest log_rows s trace
        (IsFoundWithRows ⟦<SC as StarkService>⟧.service (SC.config.scheme config)
        (SC.config.first_state config) s form log_rows) };

    ghost tells = { λ config asked s. IsAnswerWithRows ⟦<SC as StarkService>⟧.service
        (SC.config.scheme config) (SC.config.first_state config) s asked };

    ghost tells_of_bytes = { λ config asked s log_rows trace. IsAnswerAtHeight
        ⟦<SC as StarkService>⟧.service (SC.config.scheme config) (SC.config.first_state config) s
        asked log_rows (rows_in ⟦<SC as StarkService>⟧.service.element trace) };

    ghost finds = { λ config asked s trace. IsAnswerOn ⟦<SC as StarkService>⟧.service
        (SC.config.scheme config) (SC.config.first_state config) s asked
        (rows_in ⟦<SC as StarkService>⟧.service.element trace) };

    ghost proof_file = { λ config s trace form. IsFileOn ⟦<SC as StarkService>⟧.service
        (SC.config.scheme config) (SC.config.first_state config) s form
        (rows_in ⟦<SC as StarkService>⟧.service.element trace) };

    ghost accepts_of_trace = { λ config greatest s. AcceptsOfTrace ⟦<SC as StarkService>⟧.service
        (SC.config.scheme config) (SC.config.first_state config) s greatest };

    ghost accepts_of_rows = { λ config asked s. AcceptsOfRows ⟦<SC as StarkService>⟧.service
        (SC.config.scheme config) (SC.config.first_state config) s asked };

    ghost accepts_at = { λ config asked s. AcceptsAt ⟦<SC as StarkService>⟧.service
        (SC.config.scheme config) (SC.config.first_state config) s asked };

    ghost accepts = { λ config asked s. AcceptsOn ⟦<SC as StarkService>⟧.service
        (SC.config.scheme config) (SC.config.first_state config) s asked };
}
