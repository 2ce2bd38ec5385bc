//! Proofs of FRI as bytes.
ghost use Rattle.stark_proof_bytes.specs.FriBytes.{fri_laws, fri_ops, input_laws, input_ops, layer_laws, layer_ops, phase_laws, phase_ops, query_laws, query_ops};

use crate::codec::BytesCodec;
use crate::fault::BytesFault;
use crate::lists::{read_list, read_lists, write_list, write_lists};
use crate::reader::ByteReader;
use stark_fri_proof::{FriProof, InputOpening, LayerOpening, MerklePath, Phase, QueryProof};
use stark_merkle::Root;
use std::alloc::{AllocError, Global};

impl<F: BytesCodec + Drop> BytesCodec for Phase<F> {
    ghost bytes = { phase_ops F.bytes };

    /// The root, and the witness.
    fn read_from(alloc: Global, reader: &mut ByteReader) -> Result<Phase<F>, BytesFault> {
        let root = Root::read_from(alloc, &mut *reader)?;
        let witness = F::read_from(alloc, reader)?;
        Ok(Phase { root, witness })
    }

    fn write_to(&self, out: &mut Vec<u8>) -> Result<(), AllocError> {
        self.root.write_to(&mut *out)?;
        self.witness.write_to(out)
    }

    ghost bytes_laws = { phase_laws F.bytes F.bytes_laws };
}

impl<E: BytesCodec + Drop> BytesCodec for LayerOpening<E> {
    ghost bytes = { layer_ops E.bytes };

    /// The sibling, and the path.
    fn read_from(alloc: Global, reader: &mut ByteReader) -> Result<LayerOpening<E>, BytesFault> {
        let sibling = E::read_from(alloc, &mut *reader)?;
        let path = MerklePath::read_from(alloc, reader)?;
        Ok(LayerOpening { sibling, path })
    }

    fn write_to(&self, out: &mut Vec<u8>) -> Result<(), AllocError> {
        self.sibling.write_to(&mut *out)?;
        self.path.write_to(out)
    }

    ghost bytes_laws = { layer_laws E.bytes E.bytes_laws };
}

impl<F: BytesCodec + Drop> BytesCodec for InputOpening<F> {
    ghost bytes = { input_ops F.bytes };

    /// The rows, and their path.
    fn read_from(alloc: Global, reader: &mut ByteReader) -> Result<InputOpening<F>, BytesFault> {
        let rows = read_lists(alloc, &mut *reader)?;
        let path = MerklePath::read_from(alloc, reader)?;
        Ok(InputOpening::new(rows, path))
    }

    fn write_to(&self, out: &mut Vec<u8>) -> Result<(), AllocError> {
        write_lists(self.rows(), &mut *out)?;
        self.path().write_to(out)
    }

    ghost bytes_laws = { input_laws F.bytes F.bytes_laws };
}

impl<F: BytesCodec + Drop, E: BytesCodec + Drop> BytesCodec for QueryProof<F, E> {
    ghost bytes = { query_ops F.bytes E.bytes };

    /// What is opened of the rounds, and of the folds.
    fn read_from(alloc: Global, reader: &mut ByteReader) -> Result<QueryProof<F, E>, BytesFault> {
        let inputs = read_list(alloc, &mut *reader)?;
        let layers = read_list(alloc, reader)?;
        Ok(QueryProof::new(inputs, layers))
    }

    fn write_to(&self, out: &mut Vec<u8>) -> Result<(), AllocError> {
        write_list(self.inputs(), &mut *out)?;
        write_list(self.layers(), out)
    }

    ghost bytes_laws = { query_laws F.bytes E.bytes F.bytes_laws E.bytes_laws };
}

impl<F: BytesCodec + Drop, E: BytesCodec + Drop> BytesCodec for FriProof<F, E> {
    ghost bytes = { fri_ops F.bytes E.bytes };

    /// The folds, the final polynomial, the witness and the queries.
    fn read_from(alloc: Global, reader: &mut ByteReader) -> Result<FriProof<F, E>, BytesFault> {
        let phases = read_list(alloc, &mut *reader)?;
        let final_polynomial = read_list(alloc, &mut *reader)?;
        let query_witness = F::read_from(alloc, &mut *reader)?;
        let queries = read_list(alloc, reader)?;
        Ok(FriProof::new(phases, final_polynomial, query_witness, queries))
    }

    fn write_to(&self, out: &mut Vec<u8>) -> Result<(), AllocError> {
        write_list(self.phases(), &mut *out)?;
        write_list(self.final_polynomial(), &mut *out)?;
        self.query_witness().write_to(&mut *out)?;
        write_list(self.queries(), out)
    }

    ghost bytes_laws = { fri_laws F.bytes E.bytes F.bytes_laws E.bytes_laws };
}
