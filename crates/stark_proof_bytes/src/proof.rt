//! The parts of proofs as bytes.
ghost use Rattle.std.specs.Prelude.{◌≡◌, ◌++◌, OnOk, option_map, true};
ghost use Rattle.stark_proof.specs.ProofView.{openings_view, preprocessed_view, proof_view};
ghost use Rattle.stark_proof_bytes.specs.Bytes.{Takes, option_ops};
ghost use Rattle.stark_proof_bytes.specs.ProofBytes.{codecs, commitments_laws, commitments_ops, openings_ops, preprocessed_ops, proof_body, proof_fits, proof_ops};

use crate::codec::BytesCodec;
use crate::fault::BytesFault;
use crate::lists::{read_list, read_lists, write_list, write_lists, write_number};
use crate::options::{read_list_option, read_option, write_list_option, write_option};
use crate::reader::ByteReader;
use stark_proof::{Commitments, OpenedValues, PreprocessedOpenedValues, Proof};
use std::alloc::{AllocError, Global};

impl<Com: BytesCodec + Drop> BytesCodec for Commitments<Com> {
    ghost bytes = { commitments_ops Com.bytes };

    /// The commitments to the trace, to the quotient's chunks, and to a random polynomial where
    /// there is one.
    fn read_from(alloc: Global, reader: &mut ByteReader) -> Result<Commitments<Com>, BytesFault> {
        let trace = Com::read_from(alloc, &mut *reader)?;
        let quotient_chunks = Com::read_from(alloc, &mut *reader)?;
        let random = read_option(alloc, reader)?;
        Ok(Commitments {
            trace,
            quotient_chunks,
            random,
        })
    }

    fn write_to(&self, out: &mut Vec<u8>) -> Result<(), AllocError> {
        self.trace.write_to(&mut *out)?;
        self.quotient_chunks.write_to(&mut *out)?;
        write_option(&self.random, out)
    }

    ghost bytes_laws = { commitments_laws Com.bytes Com.bytes_laws };
}

/// The preprocessed rows of the next bytes, where the first of them says that there are some.
fn read_preprocessed<E: BytesCodec + Drop>(
    alloc: Global,
    reader: &mut ByteReader,
) -> Result<Option<PreprocessedOpenedValues<E>>, BytesFault>
    ensures { Takes (option_map preprocessed_view) result reader.new
        ((option_ops (preprocessed_ops E.bytes)).reading reader.old) }
{
    if !reader.next_flag()? {
        return Ok(None);
    }
    let local = read_list(alloc, &mut *reader)?;
    let next = read_list_option(alloc, reader)?;
    Ok(Some(PreprocessedOpenedValues { local, next }))
}

/// Appends the byte 0, or 1 and the rows.
fn write_preprocessed<E: BytesCodec>(
    rows: &Option<PreprocessedOpenedValues<E>>,
    out: &mut Vec<u8>,
) -> Result<(), AllocError>
    ensures written { OnOk result (out.new.items ≡ out.old.items
        ++ (option_ops (preprocessed_ops E.bytes)).writing
        (option_map preprocessed_view rows.now)) }
    ensures fits { OnOk result ((option_ops (preprocessed_ops E.bytes)).fits
        (option_map preprocessed_view rows.now) ≡ true) }
{
    match rows {
        Some(rows) => {
            out.push(1)?;
            write_list(&rows.local, &mut *out)?;
            write_list_option(&rows.next, out)
        }
        None => {
            out.push(0)?;
            Ok(())
        }
    }
}

/// The opened values of the next bytes. Preprocessed rows of any widths are taken.
fn read_openings<E: BytesCodec + Drop>(
    alloc: Global,
    reader: &mut ByteReader,
) -> Result<OpenedValues<E>, BytesFault>
    ensures { Takes openings_view result reader.new ((openings_ops E.bytes).reading reader.old) }
{
    Ok(OpenedValues {
        trace_local: read_list(alloc, &mut *reader)?,
        trace_next: read_list_option(alloc, &mut *reader)?,
        preprocessed: read_preprocessed(alloc, &mut *reader)?,
        quotient_chunks: read_lists(alloc, &mut *reader)?,
        random: read_list_option(alloc, reader)?,
    })
}

/// Appends the opened values.
fn write_openings<E: BytesCodec>(
    opened_values: &OpenedValues<E>,
    out: &mut Vec<u8>,
) -> Result<(), AllocError>
    ensures written { OnOk result (out.new.items
        ≡ out.old.items ++ (openings_ops E.bytes).writing (openings_view opened_values.now)) }
    ensures fits { OnOk result
        ((openings_ops E.bytes).fits (openings_view opened_values.now) ≡ true) }
{
    write_list(&opened_values.trace_local, &mut *out)?;
    write_list_option(&opened_values.trace_next, &mut *out)?;
    write_preprocessed(&opened_values.preprocessed, &mut *out)?;
    write_lists(&opened_values.quotient_chunks, &mut *out)?;
    write_list_option(&opened_values.random, out)
}

/// The parts of a proof, behind what the file begins with.
pub(crate) fn read_proof<
    Com: BytesCodec + Drop,
    Challenge: BytesCodec + Drop,
    PcsProof: BytesCodec + Drop,
    Val: BytesCodec + Drop,
>(
    alloc: Global,
    reader: &mut ByteReader,
) -> Result<Proof<Com, Challenge, PcsProof, Val>, BytesFault>
    ensures { Takes proof_view result reader.new ((proof_ops
        (codecs Com.bytes Challenge.bytes PcsProof.bytes Val.bytes)).reading reader.old) }
{
    Ok(Proof {
        commitments: Commitments::read_from(alloc, &mut *reader)?,
        opened_values: read_openings(alloc, &mut *reader)?,
        opening_proof: PcsProof::read_from(alloc, &mut *reader)?,
        degree_bits: reader.next_number()?,
        ood_pow_witness: Val::read_from(alloc, &mut *reader)?,
        alpha_pow_witness: Val::read_from(alloc, reader)?,
    })
}

/// Appends the parts of a proof.
pub(crate) fn write_proof<
    Com: BytesCodec + Drop,
    Challenge: BytesCodec,
    PcsProof: BytesCodec,
    Val: BytesCodec,
>(proof: &Proof<Com, Challenge, PcsProof, Val>, out: &mut Vec<u8>) -> Result<(), AllocError>
    ensures written { OnOk result (out.new.items ≡ out.old.items ++ proof_body
        (codecs Com.bytes Challenge.bytes PcsProof.bytes Val.bytes) (proof_view proof.now)) }
    ensures fits { OnOk result (proof_fits
        (codecs Com.bytes Challenge.bytes PcsProof.bytes Val.bytes) (proof_view proof.now)
        ≡ true) }
{
    proof.commitments.write_to(&mut *out)?;
    write_openings(&proof.opened_values, &mut *out)?;
    proof.opening_proof.write_to(&mut *out)?;
    write_number(proof.degree_bits, &mut *out)?;
    proof.ood_pow_witness.write_to(&mut *out)?;
    proof.alpha_pow_witness.write_to(out)
}
