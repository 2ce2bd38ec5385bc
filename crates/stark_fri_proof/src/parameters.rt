//! What FRI is run with.
ghost use Rattle.std.specs.Prelude.{◌≡◌, ◌≤◌, IfErr, IfOk};
ghost use Rattle.stark_fri_proof.specs.Parameters.{IsFirstFault};

use thiserror::Error;

/// What prover and verifier agree on. Logarithms are to the base 2, and work is counted in bits.
#[derive(Clone, Copy, Debug, PartialEq, Eq)]
pub struct FriParameters {
    log_blowup: usize,
    log_final_poly_len: usize,
    num_queries: usize,
    commit_proof_of_work_bits: usize,
    query_proof_of_work_bits: usize,
    pub ghost blown_up: { 1 ≤ log_blowup },
    pub ghost blowup_fits: { log_blowup ≤ 63 },
    pub ghost final_fits: { log_final_poly_len ≤ 63 },
    pub ghost queried: { 1 ≤ num_queries },
    pub ghost commit_work_fits: { commit_proof_of_work_bits ≤ 63 },
    pub ghost query_work_fits: { query_proof_of_work_bits ≤ 63 },
}

/// Why numbers are no parameters.
#[derive(Clone, Copy, Debug, PartialEq, Eq, Error)]
pub enum FriParametersError {
    /// `log_blowup` is 0: without a blow-up every word is a codeword.
    #[error("without a blow-up every word is a codeword")]
    NoBlowup,
    /// `log_blowup` is past 63.
    #[error("the logarithm of the blow-up is past 63")]
    BlowupTooLarge,
    /// `log_final_poly_len` is past 63.
    #[error("the logarithm of the final polynomial's length is past 63")]
    FinalPolynomialTooLong,
    /// `num_queries` is 0: nothing would be tested.
    #[error("without a query nothing is tested")]
    NoQueries,
    /// `commit_proof_of_work_bits` is past 63.
    #[error("the work at a fold is more than 63 bits")]
    CommitWorkTooLarge,
    /// `query_proof_of_work_bits` is past 63.
    #[error("the work before the queries is more than 63 bits")]
    QueryWorkTooLarge,
}

impl FriParameters {
    /// The parameters of these numbers. Otherwise the first fault in this order:
    ///
    /// - `NoBlowup` where `log_blowup` is 0, and `BlowupTooLarge` where it is past 63.
    /// - `FinalPolynomialTooLong` where `log_final_poly_len` is past 63.
    /// - `NoQueries` where `num_queries` is 0.
    /// - `CommitWorkTooLarge` where `commit_proof_of_work_bits` is past 63.
    /// - `QueryWorkTooLarge` where `query_proof_of_work_bits` is past 63.
    pub fn new(
        log_blowup: usize,
        log_final_poly_len: usize,
        num_queries: usize,
        commit_proof_of_work_bits: usize,
        query_proof_of_work_bits: usize,
    ) -> Result<FriParameters, FriParametersError>
        ensures log_blowup { IfOk result (λ p. p.log_blowup ≡ log_blowup) }
        ensures final_length { IfOk result (λ p. p.log_final_poly_len ≡ log_final_poly_len) }
        ensures queries { IfOk result (λ p. p.num_queries ≡ num_queries) }
        ensures commit_work { IfOk result (λ p.
            p.commit_proof_of_work_bits ≡ commit_proof_of_work_bits) }
        ensures query_work { IfOk result (λ p.
            p.query_proof_of_work_bits ≡ query_proof_of_work_bits) }
        ensures refused { IfErr result (IsFirstFault log_blowup log_final_poly_len num_queries
            commit_proof_of_work_bits query_proof_of_work_bits) }
    {
        if log_blowup == 0 {
            return Err(FriParametersError::NoBlowup);
        }
        if log_blowup > 63 {
            return Err(FriParametersError::BlowupTooLarge);
        }
        if log_final_poly_len > 63 {
            return Err(FriParametersError::FinalPolynomialTooLong);
        }
        if num_queries == 0 {
            return Err(FriParametersError::NoQueries);
        }
        if commit_proof_of_work_bits > 63 {
            return Err(FriParametersError::CommitWorkTooLarge);
        }
        if query_proof_of_work_bits > 63 {
            return Err(FriParametersError::QueryWorkTooLarge);
        }
        Ok(FriParameters {
            log_blowup,
            log_final_poly_len,
            num_queries,
            commit_proof_of_work_bits,
            query_proof_of_work_bits,
        })
    }

    /// The logarithm of how many times more rows are committed than a column has: 1 to 63.
    pub fn log_blowup(&self) -> usize
        ensures { result ≡ self.now.log_blowup }
    {
        self.log_blowup
    }

    /// The logarithm of how many coefficients are left when the folds end: 0 to 63. A column of
    /// fewer rows isn't folded.
    pub fn log_final_poly_len(&self) -> usize
        ensures { result ≡ self.now.log_final_poly_len }
    {
        self.log_final_poly_len
    }

    /// How many places are opened: at least 1.
    pub fn num_queries(&self) -> usize
        ensures { result ≡ self.now.num_queries }
    {
        self.num_queries
    }

    /// The bits of the work before each fold's challenge is drawn: 0 to 63.
    pub fn commit_proof_of_work_bits(&self) -> usize
        ensures { result ≡ self.now.commit_proof_of_work_bits }
    {
        self.commit_proof_of_work_bits
    }

    /// The bits of the work before the places are drawn: 0 to 63.
    pub fn query_proof_of_work_bits(&self) -> usize
        ensures { result ≡ self.now.query_proof_of_work_bits }
    {
        self.query_proof_of_work_bits
    }
}
