//! A proof as it is written.

ghost use Rattle.std.specs.Prelude.{ℕ, List, IfOk, string_bytes};
ghost use Rattle.stark_proof.specs.ProofJson.{proof_reading, proof_writing};
ghost use Rattle.stark_proof.specs.ProofView.{proof_view};
ghost use Rattle.stark_proof_bytes.specs.ProofBytes.{codecs};
ghost use Rattle.stark_answers.specs.Prove.{IsWritten, IsWrittenLine, OrNoMemory, TellsAnswer};
ghost use Rattle.stark_answers.specs.ReadBack.{ReadsBack, SpellsProof};
ghost use Rattle.stark_answers.specs.declared.finding.Finding.{Finding};
ghost use Rattle.stark_answers.specs.declared.task.ProofForm.{ProofForm};

use crate::finding::Finding;
use crate::refusal::refusal_of_prover;
use crate::task::ProofForm;
use crate::verdict::{Refusal, Verdict};
use stark_proof::Proof;
use stark_proof_bytes::{BytesCodec, proof_to_bytes};
use stark_support::{Field, JsonCodec, NeverNull};
use stark_transcript::ProvingError;
use std::alloc::{AllocError, Global};

/// What is written of a proof. It has no code.
pub trait WrittenProof: Sized {
    /// The finding is this proof in a form: the bytes that `stark_proof_bytes` gives, or its JSON
    /// without spaces and a newline, unless that had a float.
    ghost finds: { ProofForm → Self → Finding → Type 0 };

    /// The JSON text spells this proof, where that can be read.
    ghost spelled_by: { Self → List ℕ → Type 0 };

    /// What is written of this proof in a form spells it.
    ghost reads_back: { ProofForm → Self → Finding → Type 0 };
}

impl<Com, Challenge, PcsProof, Val> WrittenProof for Proof<Com, Challenge, PcsProof, Val>
where
    Com: NeverNull + BytesCodec + Drop,
    Challenge: JsonCodec + BytesCodec + Drop,
    PcsProof: JsonCodec + BytesCodec + Drop,
    Val: Field + NeverNull + BytesCodec,
{
    ghost finds = { λ form proof. IsWritten (proof_writing Com.writing Challenge.writing
        PcsProof.writing Val.writing Val.eq Val.ring.zero)
        (codecs Com.bytes Challenge.bytes PcsProof.bytes Val.bytes) form (proof_view proof) };

    ghost spelled_by = { λ proof. SpellsProof (proof_writing Com.writing Challenge.writing
        PcsProof.writing Val.writing Val.eq Val.ring.zero) (proof_reading Com.reading
        Challenge.reading PcsProof.reading Val.reading Val.ring.zero) (proof_view proof) };

    ghost reads_back = { λ form proof. ReadsBack (proof_writing Com.writing Challenge.writing
        PcsProof.writing Val.writing Val.eq Val.ring.zero) (proof_reading Com.reading
        Challenge.reading PcsProof.reading Val.reading Val.ring.zero)
        (codecs Com.bytes Challenge.bytes PcsProof.bytes Val.bytes) form (proof_view proof) };
}

/// The line of a proof, with its newline.
fn line_of_proof<Com, Challenge, PcsProof, Val>(
    alloc: Global,
    proof: &Proof<Com, Challenge, PcsProof, Val>,
) -> Result<String, AllocError>
where
    Com: NeverNull + BytesCodec + Drop,
    Challenge: JsonCodec + BytesCodec + Drop,
    PcsProof: JsonCodec + BytesCodec + Drop,
    Val: Field + NeverNull + BytesCodec,
    ensures written { IfOk result (IsWrittenLine (proof_writing Com.writing Challenge.writing
        PcsProof.writing Val.writing Val.eq Val.ring.zero) proof.now) }
    ensures read_back { IfOk result (λ line.
        ⟦<Proof<Com, Challenge, PcsProof, Val> as WrittenProof>⟧.spelled_by proof.now
        (string_bytes line)) }
{
    let value = proof.to_json(alloc)?;
    let mut line = value.to_string(alloc)?;
    line.push('\n')?;
    Ok(line)
}

/// A proof in a form. It is Err only where memory was refused: a proof of any size has its bytes.
fn written_proof<Com, Challenge, PcsProof, Val>(
    alloc: Global,
    form: ProofForm,
    proof: &Proof<Com, Challenge, PcsProof, Val>,
) -> Result<Finding, AllocError>
where
    Com: NeverNull + BytesCodec + Drop,
    Challenge: JsonCodec + BytesCodec + Drop,
    PcsProof: JsonCodec + BytesCodec + Drop,
    Val: Field + NeverNull + BytesCodec,
    ensures finds { IfOk result
        (⟦<Proof<Com, Challenge, PcsProof, Val> as WrittenProof>⟧.finds form proof.now) }
    ensures read_back { IfOk result
        (⟦<Proof<Com, Challenge, PcsProof, Val> as WrittenProof>⟧.reads_back form proof.now) }
{
    match form {
        ProofForm::Json => Ok(Finding::Proof(line_of_proof(alloc, proof)?)),
        ProofForm::Bytes => Ok(Finding::ProofBytes(proof_to_bytes(alloc, proof)?)),
    }
}

/// What is written of a prover's answer: the proof in a form, or the name of the error; the error
/// is `OutOfMemory` also where there is no memory for what is written. What is written of a proof
/// spells it (`read_back`): as bytes always, as JSON where the opened values keep the rule of the
/// preprocessed rows and the JSON nests no deeper than its reader goes.
pub fn finding_of_proof<Com, Challenge, PcsProof, Val, PcsErr>(
    alloc: Global,
    form: ProofForm,
    answer: &Result<Proof<Com, Challenge, PcsProof, Val>, ProvingError<PcsErr>>,
) -> Finding
where
    Com: NeverNull + BytesCodec + Drop,
    Challenge: JsonCodec + BytesCodec + Drop,
    PcsProof: JsonCodec + BytesCodec + Drop,
    Val: Field + NeverNull + BytesCodec,
    ensures finds { OrNoMemory (TellsAnswer
        (⟦<Proof<Com, Challenge, PcsProof, Val> as WrittenProof>⟧.finds form) answer.now) result }
    ensures read_back { IfOk answer.now (λ proof.
        ⟦<Proof<Com, Challenge, PcsProof, Val> as WrittenProof>⟧.reads_back form proof result) }
{
    match answer {
        Ok(proof) => match written_proof(alloc, form, proof) {
            Ok(finding) => finding,
            Err(AllocError) => Finding::Verdict(Verdict::Refused(Refusal::OutOfMemory)),
        },
        Err(error) => Finding::Verdict(Verdict::Refused(refusal_of_prover(error))),
    }
}
